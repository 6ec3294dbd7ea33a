//! The worked example byte by byte, and images that are rewritten or refused.

use super::files::{CODE, EXIT, Head, file_of, full_of_headers};
use super::{Failing, NONE, answer};
use mv_base::Status;
use std::alloc::Global;
use std::test::Fail;

/// What a rewrite of `EXIT` prints: all offsets but those of 07 and of the last byte are sites.
pub(super) const PRINTED: &str = "sites 10\nadded 00100000 00005000\ncounters 0\n";

/// The stub with which its code begins.
const STUB: &[u8] = b"\
    \x89\x25\x08\x40\x10\0\xbc\x40\x40\x10\0\x9c\x50\x51\x52\xa1\x04\x40\x10\0\x89\xc1\x81\xe9\
    \x54\x80\x04\x08\x81\xf9\x0c\0\0\0\x73\x0a\xba\0\x20\x10\0\xe9\x02\0\0\0\xeb\x16\x51\xc1\xe9\
    \x0a\x8b\x14\x8a\x59\x81\xe1\xff\x03\0\0\x8b\x0c\x8a\x85\xc9\x0f\x45\xc1\xa3\x04\x40\x10\0\
    \x5a\x59\x58\x9d\x8b\x25\x08\x40\x10\0\xff\x25\x04\x40\x10\0";

/// The five chains behind it: pieces, and a join at the end of each. `mov eax,1`, `mov ebx,7` and `int 0x80`; `add [eax],eax`
/// and `add [eax],al`; `add [eax],al` and `add [ebx+7],bh`; `add [eax],al` and `add ch,cl`; `add [eax],al`.
const CHAINS: &[u8] = b"\
    \xb8\x01\0\0\0\xbb\x07\0\0\0\xcd\x80\xe9\xf4\x7f\xf4\x07\x01\0\0\0\xe9\xeb\xff\xff\xff\0\0\0\
    \xbb\x07\0\0\0\xe9\xe3\xff\xff\xff\0\0\0\xcd\xe9\xd4\x7f\xf4\x07\0\0\xe9\xd3\xff\xff\xff";

/// What stands in its table behind the page of zeros: the directory, and the first entries of the one page that it names,
/// an address for each byte of code. All behind these is 0.
const TABLE: &[u8] = b"\
    \x04\x20\x10\0\x5b\0\x10\0\x6c\0\x10\0\x75\0\x10\0\x6e\0\x10\0\x77\0\x10\0\x60\0\x10\0\0\0\0\
    \0\x82\0\x10\0\x8b\0\x10\0\x84\0\x10\0\x65\0\x10\0\0\0\0\0";

/// The frame record of its output, at 0x900.
const RECORD: &[u8] = b"\
    \x4d\x56\x46\x52\x02\0\0\0\x02\0\0\0\x60\0\0\0\0\0\x10\0\0\x50\0\0\0\0\x10\0\x92\0\0\0\0\x10\
    \x10\0\x04\x20\0\0\0\x40\x10\0\x40\0\0\0\x40\x40\x10\0\0\0\0\0\x04\x30\x10\0\x01\0\0\0\0\0\0\
    \0\0\0\0\0\x54\x80\x04\x08\x0c\0\0\0\0\x20\x10\0";

/// Whether a part begins with these bytes and has zeros behind them.
fn is_filled(part: &[u8], bytes: &[u8]) -> bool {
    part.get(..bytes.len()) == Some(bytes)
        && part
            .get(bytes.len()..)
            .is_some_and(|rest| rest.iter().all(|byte| *byte == 0))
}

/// A part of a file, and the bytes with which it begins. Behind them it has zeros.
type Part = (usize, usize, &'static [u8]);

/// The parts of the output but its headers, of which the entry is told, and the image.
static PARTS: [Part; 6] = [
    (24, 28, b"\x5b\0\x10\0"),
    (0x900, 0x954, RECORD),
    (0x2000, 0x205b, STUB),
    (0x205b, 0x3000, CHAINS),
    (0x3000, 0x4000, b""),
    (0x4000, 0x6000, TABLE),
];

/// Whether these bytes are the output of `EXIT`.
fn is_output(held: &[u8], image: &[u8]) -> bool {
    held.len() == 0x6000
        && held.get(0x1000..0x1060) == Some(image)
        && PARTS.iter().all(|(from, to, bytes)| {
            held.get(*from..*to)
                .is_some_and(|part| is_filled(part, bytes))
        })
}

#[test]
fn an_image_is_rewritten(rt: HostRuntime) -> Result<(), Fail> {
    let image = file_of(rt.alloc(), EXIT)?;
    // to another file, and to its own
    for words in ["rewrite a b", "rewrite b b"] {
        let files: [(&str, &[u8]); 2] = [("a", &image), ("b", &image)];
        let answer = answer(rt.alloc(), words, &files, NONE)?;
        assert!(rt; is_output(answer.written.as_slice(), &image), "{words}");
        assert!(rt;
            answer.is(Status::Done, PRINTED, answer.written.as_slice()),
            "{words}"
        );
    }
    Ok(())
}

#[test]
fn an_output_that_fails_is_old_or_whole(rt: HostRuntime) -> Result<(), Fail> {
    let image = file_of(rt.alloc(), EXIT)?;
    let files: [(&str, &[u8]); 2] = [("a", &image), ("b", b"old")];
    let put = Failing { put: 1, ..NONE };
    let unwritten = answer(rt.alloc(), "rewrite a b", &files, put)?;
    let text = "multiverse: cannot write b\n";
    assert!(rt; unwritten.is(Status::WriteFault, text, b"old"));

    let print = Failing { print: 1, ..NONE };
    let unprinted = answer(rt.alloc(), "rewrite a b", &files, print)?;
    assert!(rt; is_output(unprinted.written.as_slice(), &image));
    assert!(rt; unprinted.is(Status::SinkFault, "", unprinted.written.as_slice()));
    Ok(())
}

/// Writable code, and an interpreter.
pub(super) const WRITABLE_FIRST: Head = Head {
    entry: CODE,
    count: 2,
    headers: &[
        [1, 0x74, 0x0804_8074, 12, 12, 7],
        [3, 0x74, 0x0804_8074, 12, 12, 5],
    ],
};

/// Zeros at each address that an added block may have, and code above them.
pub(super) const NO_ROOM: Head = Head {
    entry: CODE,
    count: 2,
    headers: &[
        [1, 0, 0x0010_0000, 0, 0xaff0_0000, 6],
        [1, 0x74, 0xb000_0074, 12, 12, 5],
    ],
};

/// One byte of code more than is rewritten, at 0x08048074, which is the entry, behind two headers of which one is empty.
pub(super) const LARGE_CODE: Head = Head {
    entry: 0x0804_8074,
    count: 2,
    headers: &[[1, 0x74, 0x0804_8074, 12, 0x0100_0001, 5], [0; 6]],
};

/// Says that a header follows.
pub(super) const NO_HEADER: Head = Head {
    entry: CODE,
    count: 1,
    headers: &[],
};

/// Says that 65 headers follow.
pub(super) const MANY_HEADERS: Head = Head {
    entry: CODE,
    count: 65,
    headers: &[],
};

/// Maps 12 bytes, but doesn't let them run.
pub(super) const DATA: Head = Head {
    entry: CODE,
    count: 1,
    headers: &[[1, 0x54, CODE, 12, 12, 4]],
};

/// Headers, and what a rewrite of `EXIT` behind them gives: the answer, the text, and how many bytes OUT, which held 3, has
/// then.
type Row = (Head, Status, &'static str, usize);

/// What is rewritten or refused.
const ROWS: [Row; 9] = [
    (
        WRITABLE_FIRST,
        Status::BadImage,
        "multiverse: bad image: WritableCode header 0\n",
        3,
    ),
    // an interpreter, and writable code
    (
        Head {
            entry: CODE,
            count: 2,
            headers: &[
                [3, 0x74, 0x0804_8074, 12, 12, 5],
                [1, 0x74, 0x0804_8074, 12, 12, 7],
            ],
        },
        Status::BadImage,
        "multiverse: bad image: Interpreter header 0\n",
        3,
    ),
    (
        LARGE_CODE,
        Status::BadImage,
        "multiverse: bad image: CodeTooLarge\n",
        3,
    ),
    (
        MANY_HEADERS,
        Status::BadImage,
        "multiverse: bad image: HeaderCount\n",
        3,
    ),
    (
        NO_HEADER,
        Status::BadImage,
        "multiverse: bad image: HeadersOutside\n",
        3,
    ),
    (NO_ROOM, Status::NoRoom, "multiverse: no room: 20480\n", 3),
    // a page of zeros four pages above the lowest address of an added block, and code
    (
        Head {
            entry: CODE,
            count: 2,
            headers: &[
                [1, 0, 0x0010_4000, 0, 0x1000, 6],
                [1, 0x74, 0x0804_8074, 12, 12, 5],
            ],
        },
        Status::Done,
        "sites 10\nadded 00105000 00005000\ncounters 0\n",
        24_576,
    ),
    // the code twice, the second time two pages above
    (
        Head {
            entry: CODE,
            count: 2,
            headers: &[
                [1, 0x74, 0x0804_8074, 12, 12, 5],
                [1, 0x74, 0x0804_a074, 12, 12, 5],
            ],
        },
        Status::Done,
        "sites 20\nadded 00100000 00006000\ncounters 0\n",
        28_672,
    ),
    (
        DATA,
        Status::Done,
        "sites 0\nadded 00100000 00003000\ncounters 0\n",
        16_384,
    ),
];

/// No image, with `EXIT` behind it.
const NO_IMAGE: &[u8] = b"no image\xb8\x01\0\0\0\xbb\x07\0\0\0\xcd\x80";

/// Whether a rewrite of an image over an old output gives this. What isn't done changes nothing.
fn gives(
    alloc: Global,
    image: &[u8],
    status: Status,
    text: &str,
    output: usize,
) -> Result<bool, Fail> {
    let answer = answer(alloc, "rewrite a b", &[("a", image), ("b", b"old")], NONE)?;
    let written = answer.written.as_slice();
    let is_old = written == b"old".as_slice();
    Ok(
        answer.is(status, text, written)
            && written.len() == output
            && (is_old || matches!(status, Status::Done)),
    )
}

#[test]
fn images_are_rewritten_or_refused(rt: HostRuntime) -> Result<(), Fail> {
    let alloc = rt.alloc();
    for (head, status, text, output) in &ROWS {
        let image = head.file(alloc, EXIT)?;
        assert!(rt; gives(alloc, &image, *status, text, *output)?, "{text}");
    }
    let text = "multiverse: bad image: HeadersFull\n";
    let full = full_of_headers(alloc)?;
    assert!(rt; gives(alloc, &full, Status::BadImage, text, 3)?);
    let text = "multiverse: bad image: ShortHeader\n";
    assert!(rt; gives(alloc, NO_IMAGE, Status::BadImage, text, 3)?);
    Ok(())
}
