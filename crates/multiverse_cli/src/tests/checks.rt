//! Files that are checked beside an image: its outputs, these with other bytes at some places, and others. What is told of a
//! changed file was worked out from the layout of outputs and from the order in which their parts are looked at.

use super::files::{EXIT, Head, file_of};
use super::rewriting::{DATA, PRINTED};
use super::upgrades::first_release;
use super::{Failing, NONE, Reply, answer};
use mv_base::Status;
use std::alloc::Global;
use std::test::Fail;

/// Places of a file, and what stands there instead.
type Patches = &'static [(usize, &'static [u8])];

/// A file with other bytes at these places.
fn patched(alloc: Global, file: &[u8], patches: Patches) -> Result<Vec<u8>, Fail> {
    let mut other = Vec::from_slice(alloc, file)?;
    for (place, bytes) in patches {
        for (k, byte) in bytes.iter().enumerate() {
            let at = place.checked_add(k).ok_or("a place")?;
            *other.get_mut(at).ok_or("a place")? = *byte;
        }
    }
    Ok(other)
}

/// What such words write of an image.
fn output_of(alloc: Global, words: &str, image: &[u8]) -> Result<Vec<u8>, Fail> {
    let made = answer(alloc, words, &[("a", image)], NONE)?;
    Ok(Vec::from_slice(alloc, made.written.as_slice())?)
}

/// What a check of `b` beside `a` answers.
fn checked(alloc: Global, a: &[u8], b: &[u8], failing: Failing) -> Result<Reply, Fail> {
    answer(alloc, "check a b", &[("a", a), ("b", b)], failing)
}

/// Words that rewrite `EXIT`, what is changed in what they write, and the part that differs, its place, and both values there.
/// Where the rule picks all sites each has 46 bytes more in front, and the list has ten pairs of two words at 0x5004.
static CHANGED: [(&str, Patches, &str); 20] = [
    // the block one page lower, with all places that the record has, and the page that the directory names
    (
        "rewrite a b",
        &[
            (0x910, b"\0\xf0\x0f\0"),
            (0x918, b"\0\xf0\x0f\0"),
            (0x920, b"\0\0\x10\0"),
            (0x928, b"\0\x30\x10\0"),
            (0x930, b"\x40\x30\x10\0"),
            (0x938, b"\x04\x20\x10\0"),
            (0x950, b"\0\x10\x10\0"),
            (0x4000, b"\x04\x10\x10\0"),
        ],
        "room 000ff000 000ff000 00100000",
    ),
    // two runs, a run that begins earlier, and a longer one
    (
        "rewrite a b",
        &[
            (0x93c, b"\x02"),
            (0x954, b"\0\0\0\x09\x01\0\0\0\0\x20\x10\0"),
        ],
        "runs 00000000 00000001 00000002",
    ),
    (
        "rewrite a b",
        &[(0x948, b"\x53")],
        "runs 00000001 08048054 08048053",
    ),
    (
        "rewrite a b",
        &[(0x94c, b"\x0d")],
        "runs 00000002 0000000c 0000000d",
    ),
    // the entry, the rights of the old code, a byte of the input, and one behind it, behind the code and behind the table
    (
        "rewrite a b",
        &[(0x18, b"\x5c")],
        "file 00000018 0000005b 0000005c",
    ),
    (
        "rewrite a b",
        &[(0xac, b"\x05")],
        "file 000000ac 00000004 00000005",
    ),
    (
        "rewrite a b",
        &[(0x1054, b"\xb9")],
        "file 00001054 000000b8 000000b9",
    ),
    (
        "rewrite a b",
        &[(0x1060, b"\x01")],
        "file 00001060 00000000 00000001",
    ),
    (
        "rewrite a b",
        &[(0x2092, b"\x01")],
        "file 00002092 00000000 00000001",
    ),
    (
        "rewrite a b --count=all",
        &[(0x5054, b"\x01")],
        "file 00005054 00000000 00000001",
    ),
    // the first two pairs the other way round, the last one at no instruction, and of a kind that a system call doesn't have
    (
        "rewrite a b --count=all",
        &[(0x5004, b"\x55"), (0x500c, b"\x54")],
        "counted 00000001 08048055 08048054",
    ),
    (
        "rewrite a b --count=all",
        &[(0x504c, b"\x5f")],
        "counted 00000009 0804805d 0804805f",
    ),
    (
        "rewrite a b --count=all",
        &[(0x5050, b"\x01")],
        "counted 00000009 0804805d 0804805e",
    ),
    // another first byte of the stub, and a code that ends in it
    (
        "rewrite a b",
        &[(0x2000, b"\x90")],
        "stub 00100000 00000089 00000090",
    ),
    (
        "rewrite a b",
        &[
            (0x91c, b"\x10"),
            (0x44, b"\x10"),
            (0x48, b"\x10"),
            (0x2010, &[0; 0x82]),
        ],
        "stub 00100010 00000004 00000100",
    ),
    // an entry where no instruction lies, and one behind the code
    (
        "rewrite a b",
        &[(0x401c, b"\x60\0\x10\0")],
        "entry 0804805a 00000000 00100060",
    ),
    (
        "rewrite a b",
        &[(0x400a, b"\x11")],
        "entry 08048055 00100000 0011006c",
    ),
    // another first byte of a counter, another join behind the system call, and a code without its last byte
    (
        "rewrite a b --count=all",
        &[(0x205b, b"\x90")],
        "piece 08048054 00000089 00000090",
    ),
    (
        "rewrite a b",
        &[(0x2067, b"\xe8")],
        "piece 0804805e 000000e9 000000e8",
    ),
    (
        "rewrite a b",
        &[
            (0x91c, b"\x91"),
            (0x44, b"\x91"),
            (0x48, b"\x91"),
            (0x2091, b"\0"),
        ],
        "piece 0804805c 000000ff 00000100",
    ),
];

/// Whether a check says this of a file beside an image.
fn differs(alloc: Global, image: &[u8], file: &[u8], found: &str) -> Result<bool, Fail> {
    let mut text = String::from_str(alloc, "multiverse: differs: ")?;
    text.push_str(found)?;
    text.push('\n')?;
    Ok(checked(alloc, image, file, NONE)?.is(Status::Differs, &text, file))
}

#[test]
fn changed_outputs_differ(rt: HostRuntime) -> Result<(), Fail> {
    let alloc = rt.alloc();
    let image = file_of(alloc, EXIT)?;
    for (words, patches, found) in &CHANGED {
        let output = output_of(alloc, words, &image)?;
        let other = patched(alloc, &output, patches)?;
        assert!(rt; differs(alloc, &image, &other, found)?, "{found}");
    }
    let old = first_release(alloc, &image)?;
    assert!(rt; differs(alloc, &image, &old, "file 00000904 00000002 00000001")?);
    Ok(())
}

/// `EXIT` behind two headers, of which the first maps 32 bytes in two pages that the block of the other image has.
const IN_THE_BLOCK: Head = Head {
    entry: 0x0804_8074,
    count: 2,
    headers: &[
        [1, 0xff0, 0x0010_2ff0, 0, 0x20, 6],
        [1, 0x74, 0x0804_8074, 12, 12, 5],
    ],
};

/// A branch of which both ways lead to one address, and `hlt`.
const BRANCH: &[u8] = b"\x74\0\xf4";

#[test]
fn outputs_of_other_images_differ(rt: HostRuntime) -> Result<(), Fail> {
    let alloc = rt.alloc();
    let output = output_of(alloc, "rewrite a b", &file_of(alloc, EXIT)?)?;
    let other = IN_THE_BLOCK.file(alloc, EXIT)?;
    assert!(rt; differs(alloc, &other, &output, "room 00102000 00100000 00102ff0")?);
    // the counters of both ways, the second said to be of all executions, so that the first has no other
    let image = file_of(alloc, BRANCH)?;
    let edges = output_of(alloc, "rewrite a b --edges=all", &image)?;
    let mixed = patched(alloc, &edges, &[(0x5010, b"\0")])?;
    let found = "counted 00000000 00000000 08048054";
    assert!(rt; differs(alloc, &image, &mixed, found)?);
    Ok(())
}

/// Words that rewrite `BRANCH`, which has three sites.
static RULES: [&str; 10] = [
    "rewrite a b",
    "rewrite a b --count=all",
    "rewrite a b --count=calls",
    "rewrite a b --count=returns",
    "rewrite a b --count=branches",
    "rewrite a b --count=system",
    "rewrite a b --count=at:08048055",
    "rewrite a b --edges=all",
    "rewrite a b --edges=at:08048054,08048056",
    "rewrite a b --count=all --edges=all",
];

#[test]
fn outputs_pass(rt: HostRuntime) -> Result<(), Fail> {
    let alloc = rt.alloc();
    let image = file_of(alloc, BRANCH)?;
    for words in &RULES {
        let output = output_of(alloc, words, &image)?;
        let yes = checked(alloc, &image, &output, NONE)?;
        assert!(rt; yes.is(Status::Done, "checked 3\n", &output), "{words}");
    }
    let data = DATA.file(alloc, EXIT)?;
    let output = output_of(alloc, "rewrite a b", &data)?;
    let yes = checked(alloc, &data, &output, NONE)?;
    assert!(rt; yes.is(Status::Done, "checked 0\n", &output));
    Ok(())
}

#[test]
fn checks_of_other_files(rt: HostRuntime) -> Result<(), Fail> {
    let alloc = rt.alloc();
    let image = file_of(alloc, EXIT)?;
    let twice = checked(alloc, &image, &image, NONE)?;
    assert!(rt; twice.is(Status::NoFrame, "multiverse: no frame\n", &image));
    // an image is judged before what is beside it
    let none = checked(alloc, b"no image", b"no output", NONE)?;
    let text = "multiverse: bad image: ShortHeader\n";
    assert!(rt; none.is(Status::BadImage, text, b"no output"));
    let get = Failing { get: 2, ..NONE };
    let unread = checked(alloc, &image, &image, get)?;
    let text = "multiverse: cannot read b\n";
    assert!(rt; unread.is(Status::ReadFault, text, &image));
    // the worked example
    let made = answer(alloc, "rewrite a b", &[("a", &image)], NONE)?;
    assert!(rt; made.is(Status::Done, PRINTED, &made.written));
    let yes = checked(alloc, &image, &made.written, NONE)?;
    assert!(rt; yes.is(Status::Done, "checked 10\n", &made.written));
    let print = Failing { print: 1, ..NONE };
    let unprinted = checked(alloc, &image, &made.written, print)?;
    assert!(rt; unprinted.is(Status::SinkFault, "", &made.written));
    Ok(())
}
