//! Images cut short, and files and a text that fail at each call, for each command.

use super::files::{EXIT, file_of};
use super::{Failing, NONE, answer_to};
use mv_base::Status;
use std::alloc::Global;
use std::process::Abort;
use std::test::Fail;

/// What a small program of a compiler is: three headers, of which one maps the code behind them, one names a note and one the
/// stack; and the code.
const COMPILED: &[u8] = b"\
    \x7f\x45\x4c\x46\x01\x01\x01\0\0\0\0\0\0\0\0\0\x02\0\x03\0\x01\0\0\0\x94\x80\x04\x08\x34\0\0\
    \0\0\0\0\0\0\0\0\0\x34\0\x20\0\x03\0\0\0\0\0\0\0\x01\0\0\0\x94\0\0\0\x94\x80\x04\x08\x94\x80\
    \x04\x08\x1c\0\0\0\x1c\0\0\0\x05\0\0\0\0\x10\0\0\x04\0\0\0\0\0\0\0\0\0\0\0\0\0\0\0\0\0\0\0\0\
    \0\0\0\x04\0\0\0\x04\0\0\0\x51\xe5\x74\x64\0\0\0\0\0\0\0\0\0\0\0\0\0\0\0\0\0\0\0\0\x06\0\0\0\
    \x10\0\0\0\xf3\x0f\x1e\xfb\xe8\x0c\0\0\0\xb8\x01\0\0\0\xcd\x80\x0f\x1f\x44\0\0\xbb\x2a\0\0\0\
    \xf3\xc3";

/// The text of a refusal of an image's front, where its whole headers are so many bytes and the file so many; None where it is
/// none.
fn refusal(len: usize, headers: usize, whole: usize) -> Option<&'static str> {
    if len < 52 {
        Some("multiverse: bad image: ShortHeader\n")
    } else if len < headers {
        Some("multiverse: bad image: HeadersOutside\n")
    } else if len < whole {
        Some("multiverse: bad image: FileRange header 0\n")
    } else {
        None
    }
}

/// Whether a front of an image whose headers end at `headers` is rewritten or refused as it must be.
fn is_judged(alloc: Global, image: &[u8], len: usize, headers: usize) -> Result<bool, Fail> {
    let front = image.get(..len).ok_or("a front")?;
    let answer = answer_to(alloc, "rewrite a b", front, NONE)?;
    Ok(match refusal(len, headers, image.len()) {
        Some(text) => answer.is(Status::BadImage, text, b"old"),
        None => answer.is_kept && answer.status == Status::Done,
    })
}

#[test]
fn fronts_of_images(rt: HostRuntime) -> Result<(), Fail> {
    let small = file_of(rt.alloc(), EXIT)?;
    for (image, headers) in [(small.as_slice(), 84), (COMPILED, 148)] {
        for len in 0..=image.len() {
            assert!(rt; is_judged(rt.alloc(), image, len, headers)?, "{len}");
        }
    }
    Ok(())
}

/// Whether a read that fails is told by this text, and changes nothing.
pub(super) fn is_unread(
    alloc: Global,
    words: &str,
    image: &[u8],
    get: u64,
    text: &str,
) -> Result<bool, Fail> {
    let answer = answer_to(alloc, words, image, Failing { get, ..NONE })?;
    Ok(answer.is(Status::ReadFault, text, b"old"))
}

/// Whether a write that fails is told, and leaves what was there or a front of what is written.
pub(super) fn is_unwritten(alloc: Global, words: &str, image: &[u8]) -> Result<bool, Fail> {
    let whole = answer_to(alloc, words, image, NONE)?;
    let failed = answer_to(alloc, words, image, Failing { put: 1, ..NONE })?;
    let left = failed.written.as_slice();
    let text = "multiverse: cannot write b\n";
    Ok(
        failed.is(Status::WriteFault, text, left)
            && (left == b"old".as_slice() || whole.written.as_slice().starts_with(left)),
    )
}

/// How often a command prints at most.
const MOST_PRINTS: u64 = 100;

/// Whether the part of a command's text with this number is printed; None where it isn't and anything but that is told, or
/// more is left than the file that is written and a front of the text.
fn is_printed(alloc: Global, words: &str, image: &[u8], print: u64) -> Result<Option<bool>, Fail> {
    let whole = answer_to(alloc, words, image, NONE)?;
    let cut = answer_to(alloc, words, image, Failing { print, ..NONE })?;
    let is_front = cut.written.as_slice() == whole.written.as_slice()
        && whole.text.starts_with(&cut.text);
    Ok(match cut.status {
        Status::Done if is_front => Some(true),
        Status::SinkFault if is_front => Some(false),
        _ => None,
    })
}

/// Lets each part of a command's text fail in turn, of which there is one at least.
pub(super) fn check_prints(
    rt: &(impl AllocGlobal + Abort),
    words: &str,
    image: &[u8],
) -> Result<(), Fail> {
    for print in 1..MOST_PRINTS {
        let printed = is_printed(rt.alloc(), words, image, print)?;
        assert!(rt; printed.is_some(), "{words}");
        if printed == Some(true) {
            assert!(rt; 1 < print, "{words}");
            return Ok(());
        }
    }
    assert!(rt; false, "{words}");
    Ok(())
}

#[test]
fn each_call_that_fails_is_told(rt: HostRuntime) -> Result<(), Fail> {
    let image = file_of(rt.alloc(), EXIT)?;
    let reads = [
        ("rewrite a b", 1, "multiverse: cannot read a\n"),
        ("trace a l 9", 1, "multiverse: cannot read a\n"),
        ("trace a l 9", 2, "multiverse: cannot read l\n"),
        ("list a", 1, "multiverse: cannot read a\n"),
    ];
    for (words, get, text) in reads {
        assert!(rt; is_unread(rt.alloc(), words, &image, get, text)?, "{words}");
    }
    for words in ["rewrite a b", "sample 7 64 b"] {
        assert!(rt; is_unwritten(rt.alloc(), words, &image)?, "{words}");
    }
    for words in ["rewrite a b", "trace a l 100", "list a", "sample 7 64 b"] {
        check_prints(&rt, words, &image)?;
    }
    Ok(())
}
