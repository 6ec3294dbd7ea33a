//! Sources, and what they assemble to. Bytes and addresses were worked out by hand from the encodings.

use super::files::{EXIT, file_of};
use super::{Failing, NONE, Reply, answer};
use mv_base::Status;
use std::alloc::Global;
use std::test::Fail;

/// What assembling a source into `b`, which is old, answers.
fn assembled(alloc: Global, source: &[u8], failing: Failing) -> Result<Reply, Fail> {
    let files = [("s", source), ("b", b"old".as_slice())];
    answer(alloc, "assemble s b", &files, failing)
}

/// Sources, their code, and what is printed.
static GOOD: [(&[u8], &[u8], &str); 8] = [
    (
        b"start:\nmov eax,0x1\nmov ebx,0x7\nint 0x80\n",
        EXIT,
        "08048054 b801000000 mov eax,0x1\n08048059 bb07000000 mov ebx,0x7\n0804805e cd80 int 0x80\n",
    ),
    (
        b"again:\ninc eax\njmp again\n",
        b"\x40\xe9\xfa\xff\xff\xff",
        "08048054 40 inc eax\n08048055 e9faffffff jmp 0x8048054\n",
    ),
    // through a register, and to labels that are named as a smaller register and as a mnemonic
    (b"jmp eax\n", b"\xff\xe0", "08048054 ffe0 jmp eax\n"),
    (
        b"ax:\njmp ax\n",
        b"\xe9\xfb\xff\xff\xff",
        "08048054 e9fbffffff jmp 0x8048054\n",
    ),
    (
        b"loop:\njmp loop\n",
        b"\xe9\xfb\xff\xff\xff",
        "08048054 e9fbffffff jmp 0x8048054\n",
    ),
    // a label of the end, a call and a branch by number, and bytes
    (
        b"je end\ncall 0x8048054\nbytes 00ff\n\nend:\n",
        b"\x0f\x84\x07\0\0\0\xe8\xf5\xff\xff\xff\0\xff",
        "08048054 0f8407000000 je 0x8048061\n0804805a e8f5ffffff call 0x8048054\n0804805f 00ff bytes 00ff\n",
    ),
    (
        b"a2345678901234567890123456789012:\nloop a2345678901234567890123456789012\n",
        b"\xe2\xfe",
        "08048054 e2fe loop 0x8048054\n",
    ),
    // a short form is written as a long one, and a loop goes to an address by number
    (
        b"jmp 0x8048059\njecxz 0x8048059\n",
        b"\xe9\0\0\0\0\xe3\xfe",
        "08048054 e900000000 jmp 0x8048059\n08048059 e3fe jecxz 0x8048059\n",
    ),
];

/// The texts of a listing, which stand behind the second blank of each line.
fn texts(alloc: Global, listing: &[u8]) -> Result<Vec<u8>, Fail> {
    let mut source = Vec::new(alloc);
    let mut blanks = 0u64;
    for byte in listing {
        if blanks >= 2 {
            source.push(*byte)?;
        }
        blanks = match *byte {
            b'\n' => 0,
            b' ' => blanks.saturating_add(1),
            _ => blanks,
        };
    }
    Ok(source)
}

#[test]
fn sources_assemble(rt: HostRuntime) -> Result<(), Fail> {
    let alloc = rt.alloc();
    for (source, code, text) in &GOOD {
        let image = file_of(alloc, code)?;
        let done = assembled(alloc, source, NONE)?;
        assert!(rt; done.is(Status::Done, text, &image), "{text}");
        // the texts of a listing are a source of the same
        let again = assembled(alloc, &texts(alloc, text.as_bytes())?, NONE)?;
        assert!(rt; again.is(Status::Done, text, &image), "{text}");
    }
    Ok(())
}

/// Sources, and the line that is at fault.
static BAD: [(&[u8], &str); 18] = [
    (b"", "multiverse: bad source: line 1\n"),
    (b"\n\n", "multiverse: bad source: line 3\n"),
    (b"jmp nowhere\n", "multiverse: bad source: line 1\n"),
    (b"jmp ax\n", "multiverse: bad source: line 1\n"),
    (b"nop\nnop", "multiverse: bad source: line 2\n"),
    (b"nop\r\n", "multiverse: bad source: line 1\n"),
    (b"nop\nmov\teax,0x1\n", "multiverse: bad source: line 2\n"),
    (b"\0\n", "multiverse: bad source: line 1\n"),
    (b"nop\n\xff:\n", "multiverse: bad source: line 2\n"),
    (b"a:\nnop\na:\n", "multiverse: bad source: line 3\n"),
    (b"eax:\nnop\n", "multiverse: bad source: line 1\n"),
    (b"2a:\nnop\n", "multiverse: bad source: line 1\n"),
    (b"bytes 0\n", "multiverse: bad source: line 1\n"),
    (b"bytes 0A\n", "multiverse: bad source: line 1\n"),
    (
        b"a23456789012345678901234567890123:\nnop\n",
        "multiverse: bad source: line 1\n",
    ),
    // a loop that is too far, before and behind a line that is none
    (b"nop\nloop 0x9000000\n", "multiverse: bad source: line 2\n"),
    (
        b"loop 0x9000000\nnope\n",
        "multiverse: bad source: line 2\n",
    ),
    (
        b"nope\nloop 0x9000000\n",
        "multiverse: bad source: line 1\n",
    ),
];

#[test]
fn sources_are_refused(rt: HostRuntime) -> Result<(), Fail> {
    let alloc = rt.alloc();
    for (source, text) in &BAD {
        let refused = assembled(alloc, source, NONE)?;
        assert!(rt; refused.is(Status::BadSource, text, b"old"), "{source:?}");
    }
    let get = Failing { get: 1, ..NONE };
    let unread = assembled(alloc, b"nop\n", get)?;
    assert!(rt; unread.is(Status::ReadFault, "multiverse: cannot read s\n", b"old"));
    let put = Failing { put: 1, ..NONE };
    let unwritten = assembled(alloc, b"nop\n", put)?;
    assert!(rt; unwritten.is(Status::WriteFault, "multiverse: cannot write b\n", b"old"));
    Ok(())
}

/// Appends a line of so many bytes.
fn put_bytes(source: &mut Vec<u8>, count: usize) -> Result<(), Fail> {
    source.extend_from_slice(b"bytes ")?;
    for _ in 0..count {
        source.extend_from_slice(b"90")?;
    }
    source.push(b'\n')?;
    Ok(())
}

/// What a source of bytes between two texts answers: these lines, each of so many bytes.
fn filled(
    alloc: Global,
    front: &[u8],
    lines: usize,
    count: usize,
    back: &[u8],
) -> Result<Status, Fail> {
    let mut source = Vec::from_slice(alloc, front)?;
    for _ in 0..lines {
        put_bytes(&mut source, count)?;
    }
    source.extend_from_slice(back)?;
    Ok(assembled(alloc, &source, NONE)?.status)
}

/// A front, a number of lines and of bytes in each, a back, and the answer: the most bytes of a line and one more, the furthest
/// that a loop goes and one more, the most code and one more.
static FILLED: [(&[u8], usize, usize, &[u8], Status); 6] = [
    (b"", 1, 4096, b"", Status::Done),
    (b"", 1, 4097, b"", Status::BadSource),
    (b"loop x\n", 1, 127, b"x:\n", Status::Done),
    (b"loop x\n", 1, 128, b"x:\n", Status::BadSource),
    (b"", 256, 4096, b"", Status::Done),
    (b"", 256, 4096, b"nop\n", Status::BadSource),
];

#[test]
fn sources_at_their_limits(rt: HostRuntime) -> Result<(), Fail> {
    for (front, lines, count, back, status) in &FILLED {
        let found = filled(rt.alloc(), front, *lines, *count, back)?;
        assert_eq!(rt; found, *status, "{lines} {count}");
    }
    Ok(())
}
