//! Files that a rewrite wrote: their inputs, and these written anew. The file of the first release for `EXIT` has a frame
//! record of version 1, a slot of 32 bytes for the piece of each site, and a flat table.

use super::files::{CODE, EXIT, Header, file_of, file_with};
use super::hostile::{check_prints, is_unread, is_unwritten};
use super::rewriting::{NO_ROOM, PRINTED, WRITABLE_FIRST};
use super::{NONE, answer, answer_to};
use mv_base::Status;
use std::alloc::Global;
use std::test::Fail;

/// The headers of that file: code, table, private area, and the code's old place.
const HEADERS: [Header; 4] = [
    [1, 0x2000, 0x0010_0000, 0x140, 0x140, 5],
    [1, 0x3000, 0x0010_1000, 0x30, 0x30, 4],
    [1, 0x4000, 0x0010_2000, 0, 0x40, 6],
    [1, 0x1054, CODE, 12, 12, 4],
];

/// The words of its frame record, at 0x900, before and behind the number of the input's bytes.
const RECORD: [&[u8]; 2] = [
    b"MVFR\x01\0\0\0\x01\0\0\0",
    b"\0\0\x10\0\0\x30\0\0\0\0\x10\0\x40\x01\0\0\0\x10\x10\0\x30\0\0\0\0\x20\x10\0\x40\0\0\0\
    \x40\x20\x10\0\0\0\0\0\x30\x10\x10\0\x01\0\0\0\x54\x80\x04\x08\x0c\0\0\0\0\x10\x10\0",
];

/// Its slots, each without the zeros behind it.
const SLOTS: [&[u8]; 10] = [
    b"\xb8\x01\0\0\0\xe9\x96\0\0\0",
    b"\x01\0\xe9\x39\0\0\0",
    b"\0\0\xe9\x39\0\0\0",
    b"\0\0\xe9\x39\0\0\0",
    b"\0\xbb\x07\0\0\0\xe9\x95\0\0\0",
    b"\xbb\x07\0\0\0\xe9\x76\0\0\0",
    b"\0\0\xe9\x39\0\0\0",
    b"\0\0\xe9\x39\0\0\0",
    b"\0\xcd\xe9\x58\x7f\xf4\x07",
    b"\xcd\x80\xe9\x39\x7f\xf4\x07",
];

/// Its table, an address for each byte of code.
const TABLE: &[u8] = b"\
    \0\0\x10\0\x20\0\x10\0\x40\0\x10\0\x60\0\x10\0\x80\0\x10\0\xa0\0\x10\0\0\0\0\0\xc0\0\x10\0\
    \xe0\0\x10\0\0\x01\x10\0\x20\x01\x10\0\0\0\0\0";

/// How many bytes it has.
const FILE_LEN: usize = 0x4000;

/// Where a record of version 2 has the number of its rule.
const RULE_PLACE: usize = 0x900 + 4 * 16;

/// The file of the first release, with this input.
pub(super) fn first_release(alloc: Global, input: &[u8]) -> Result<Vec<u8>, Fail> {
    let len = u32::try_from(input.len()).ok().ok_or("a length")?;
    let mut file = file_with(alloc, 0x0010_0000, 4, &HEADERS, b"")?;
    file.resize(0x900, 0)?;
    file.extend_from_slice(RECORD[0])?;
    file.extend_from_slice(&len.to_le_bytes())?;
    file.extend_from_slice(RECORD[1])?;
    file.resize(0x1000, 0)?;
    file.extend_from_slice(input)?;
    let mut end = 0x2000;
    for slot in SLOTS {
        file.resize(end, 0)?;
        file.extend_from_slice(slot)?;
        end += 32;
    }
    file.resize(0x3000, 0)?;
    file.extend_from_slice(TABLE)?;
    file.resize(FILE_LEN, 0)?;
    Ok(file)
}

/// What a command that is done, and prints this, leaves as `b`.
fn made(alloc: Global, words: &str, a: &[u8], text: &str) -> Result<Vec<u8>, Fail> {
    let answer = answer_to(alloc, words, a, NONE)?;
    if answer.is(Status::Done, text, answer.written.as_slice()) {
        Ok(Vec::from_slice(alloc, answer.written.as_slice())?)
    } else {
        Ok(Vec::new(alloc))
    }
}

#[test]
fn files_of_the_first_release_are_upgraded_and_extracted(rt: HostRuntime) -> Result<(), Fail> {
    let alloc = rt.alloc();
    let image = file_of(alloc, EXIT)?;
    let old = first_release(alloc, &image)?;
    let mut new = made(alloc, "rewrite a b", &image, PRINTED)?;
    for file in [&old, &new] {
        let extracted = made(alloc, "extract a b", file, "input 96\n")?;
        assert!(rt; extracted.as_slice() == image.as_slice());
    }
    let upgraded = made(alloc, "upgrade a b", &old, PRINTED)?;
    // the same but for the number of the rule, which is that of listed addresses
    *new.get_mut(RULE_PLACE).ok_or("a rule")? = 6;
    assert!(rt; upgraded.as_slice() == new.as_slice());
    // over itself
    let files: [(&str, &[u8]); 2] = [("a", &image), ("b", &upgraded)];
    let again = answer(alloc, "upgrade b b", &files, NONE)?;
    assert!(rt; again.is(Status::Done, PRINTED, &new));
    Ok(())
}

/// Words that rewrite `EXIT` by a rule. At 0x0804805a no instruction lies.
static RULES: [&str; 8] = [
    "rewrite a b --count=none",
    "rewrite a b --count=all",
    "rewrite a b --count=calls",
    "rewrite a b --count=returns",
    "rewrite a b --count=branches",
    "rewrite a b --count=system",
    "rewrite a b --count=at:08048054,0804805e",
    "rewrite a b --count=at:08048059,0804805a",
];

/// Whether an upgrade of what such words write prints the same and writes the same.
fn is_kept_by_upgrades(alloc: Global, words: &str) -> Result<bool, Fail> {
    let image = file_of(alloc, EXIT)?;
    let first = answer(alloc, words, &[("a", &image)], NONE)?;
    let second = answer(
        alloc,
        "upgrade a b",
        &[("a", first.written.as_slice())],
        NONE,
    )?;
    let are_done = first.status == Status::Done && second.status == Status::Done;
    Ok(
        are_done
            && first.is_kept
            && second.is_kept
            && first.text.as_slice() == second.text.as_slice()
            && !first.written.as_slice().is_empty()
            && first.written.as_slice() == second.written.as_slice(),
    )
}

#[test]
fn upgrades_keep_the_rule(rt: HostRuntime) -> Result<(), Fail> {
    for words in &RULES {
        assert!(rt; is_kept_by_upgrades(rt.alloc(), words)?, "{words}");
    }
    Ok(())
}

/// Whether an upgrade of a frame's input answers this, and an extract gives it back.
fn is_faulty(
    alloc: Global,
    input: &[u8],
    status: Status,
    text: &str,
    extracted: &str,
) -> Result<bool, Fail> {
    let file = first_release(alloc, input)?;
    let upgraded = answer_to(alloc, "upgrade a b", &file, NONE)?;
    Ok(
        upgraded.is(status, text, b"old")
            && answer_to(alloc, "extract a b", &file, NONE)?.is(Status::Done, extracted, input),
    )
}

#[test]
fn inputs_of_frames_may_have_faults(rt: HostRuntime) -> Result<(), Fail> {
    let alloc = rt.alloc();
    let text = "multiverse: bad image: ShortHeader\n";
    let no_image = b"no image\xb8\x01\0\0\0\xbb\x07\0\0\0\xcd\x80";
    assert!(rt; is_faulty(alloc, no_image, Status::BadImage, text, "input 20\n")?);
    let rows = [
        (
            WRITABLE_FIRST,
            Status::BadImage,
            "multiverse: bad image: WritableCode header 0\n",
        ),
        (NO_ROOM, Status::NoRoom, "multiverse: no room: 20480\n"),
    ];
    for (head, status, text) in rows {
        let input = head.file(alloc, EXIT)?;
        assert!(rt;
            is_faulty(alloc, &input, status, text, "input 128\n")?,
            "{text}"
        );
    }
    Ok(())
}

/// Whether both commands find no frame in a file, and change nothing.
fn has_no_frame(alloc: Global, file: &[u8]) -> Result<bool, Fail> {
    for words in ["extract a b", "upgrade a b"] {
        let answer = answer_to(alloc, words, file, NONE)?;
        if !answer.is(Status::NoFrame, "multiverse: no frame\n", b"old") {
            return Ok(false);
        }
    }
    Ok(true)
}

/// The file of the first release with another byte at a place.
fn damaged(alloc: Global, place: usize) -> Result<Vec<u8>, Fail> {
    let image = file_of(alloc, EXIT)?;
    let mut file = first_release(alloc, &image)?;
    if let Some(byte) = file.get_mut(place) {
        *byte = 7;
    }
    Ok(file)
}

#[test]
fn files_without_a_frame_are_refused(rt: HostRuntime) -> Result<(), Fail> {
    let alloc = rt.alloc();
    let image = file_of(alloc, EXIT)?;
    assert!(rt; has_no_frame(alloc, &image)?);
    let file = first_release(alloc, &image)?;
    for len in [0, 0xfff, 0x1000, FILE_LEN - 1] {
        assert!(rt;
            has_no_frame(alloc, file.get(..len).ok_or("a front")?)?,
            "{len}"
        );
    }
    // another magic number, version, form and rule of places
    for place in [0x900, 0x904, 0x908, 0x910] {
        assert!(rt; has_no_frame(alloc, &damaged(alloc, place)?)?, "{place}");
    }
    Ok(())
}

#[test]
fn each_call_that_fails_is_told_of_a_frame(rt: HostRuntime) -> Result<(), Fail> {
    let alloc = rt.alloc();
    let image = file_of(alloc, EXIT)?;
    let file = first_release(alloc, &image)?;
    let text = "multiverse: cannot read a\n";
    for words in ["extract a b", "upgrade a b"] {
        assert!(rt; is_unread(alloc, words, &file, 1, text)?, "{words}");
        assert!(rt; is_unwritten(alloc, words, &file)?, "{words}");
        check_prints(&rt, words, &file)?;
    }
    Ok(())
}
