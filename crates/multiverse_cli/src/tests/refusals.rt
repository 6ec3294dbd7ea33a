//! Refusals: each says why, and changes nothing.

use super::files::{EXIT, file_of};
use super::{Failing, NONE, answer_to, said, store_of};
use mv_base::Status;
use mv_rewrite::FILE_LIMIT;
use std::test::Fail;

/// Words that ask for nothing.
static USAGE: [&str; 44] = [
    "",
    "rewrite",
    "rewrite a",
    "rewrite a b --count=all --count=all",
    "rewrite a b --count=each",
    "rewrite a --count=all b",
    "rewrite a b b",
    "rewrite  b",
    "rewrite a --b",
    "Rewrite a b",
    "rewrite a b --edges=all --count=all",
    "rewrite a b --edges=all --edges=all",
    "rewrite a b --edges=calls",
    "rewrite a b --count=all --edges=",
    "rewrite a b --edges=at:08048059,08048059",
    "trace a b",
    "trace a b ",
    "trace a b 01",
    "trace a b +1",
    "trace a b 1 1",
    "trace a b 18446744073709551616",
    "trace a --b 1",
    "list",
    "list a b",
    "list --a",
    "sample 0 0 b",
    "sample 0 1048577 b",
    "sample 4294967296 1 b",
    "sample 0 01 b",
    "sample 0 1 --b",
    "sample 0 1",
    "extract a",
    "extract a b b",
    "extract --a b",
    "extract a ",
    "upgrade a",
    "upgrade a b --count=all",
    "upgrade  b",
    "upgrade a --b",
    "check a",
    "check a b b",
    "check a --b",
    "assemble a",
    "assemble a --b",
];

#[test]
fn words_that_ask_for_nothing(rt: HostRuntime) -> Result<(), Fail> {
    let image = file_of(rt.alloc(), EXIT)?;
    for words in &USAGE {
        let answer = answer_to(rt.alloc(), words, &image, NONE)?;
        let text = "multiverse: usage\n";
        assert!(rt; answer.is(Status::Usage, text, b"old"), "{words}");
    }
    let print = Failing { print: 1, ..NONE };
    let unprinted = answer_to(rt.alloc(), "rewrite", &image, print)?;
    assert!(rt; unprinted.is(Status::Usage, "", b"old"));
    Ok(())
}

/// Words over an image, the number of the call of `get` that fails, and the refusal.
static REFUSED: [(&str, u64, Status, &str); 5] = [
    (
        "rewrite c b",
        0,
        Status::ReadFault,
        "multiverse: cannot read c\n",
    ),
    (
        "rewrite a b",
        1,
        Status::ReadFault,
        "multiverse: cannot read a\n",
    ),
    (
        "extract c b",
        0,
        Status::ReadFault,
        "multiverse: cannot read c\n",
    ),
    ("extract a b", 0, Status::NoFrame, "multiverse: no frame\n"),
    ("upgrade a b", 0, Status::NoFrame, "multiverse: no frame\n"),
];

#[test]
fn files_that_are_refused(rt: HostRuntime) -> Result<(), Fail> {
    let image = file_of(rt.alloc(), EXIT)?;
    for (words, get, status, text) in &REFUSED {
        let failing = Failing { get: *get, ..NONE };
        let answer = answer_to(rt.alloc(), words, &image, failing)?;
        assert!(rt; answer.is(*status, text, b"old"), "{words}");
    }
    let text = "multiverse: bad image: ShortHeader\n";
    let none = answer_to(rt.alloc(), "rewrite a b", b"no image", NONE)?;
    assert!(rt; none.is(Status::BadImage, text, b"old"));
    Ok(())
}

/// The message that `l` is too large.
const TOO_LARGE: &str = "multiverse: too large: l above 268435456\n";

/// What is answered where `l` has a byte more than is read. All files are read before any is judged.
static LARGE: [(&str, Status, &str); 7] = [
    ("rewrite l b", Status::TooLarge, TOO_LARGE),
    ("list l", Status::TooLarge, TOO_LARGE),
    ("extract l b", Status::TooLarge, TOO_LARGE),
    ("upgrade l b", Status::TooLarge, TOO_LARGE),
    ("trace l a 0", Status::TooLarge, TOO_LARGE),
    ("trace a l 0", Status::TooLarge, TOO_LARGE),
    (
        "trace l c 0",
        Status::ReadFault,
        "multiverse: cannot read c\n",
    ),
];

#[test]
fn files_above_the_limit(rt: HostRuntime) -> Result<(), Fail> {
    let alloc = rt.alloc();
    let mut store = store_of(alloc, &[("a", b"no image"), ("b", b"old")], NONE)?;
    store.add("l", &vec![in alloc; 0u8; FILE_LIMIT + 1]?)?;
    for (words, status, text) in &LARGE {
        let (answer, printed) = said(alloc, words, &mut store, 0)?;
        assert_eq!(rt; answer, *status, "{words}");
        assert!(rt; printed.as_slice() == text.as_bytes(), "{words}");
        assert!(rt; store.file("b") == Some(b"old".as_slice()), "{words}");
    }
    Ok(())
}
