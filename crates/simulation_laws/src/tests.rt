//! A file whose code is the stub of its one run, for a table of form 1, and that file with a byte changed.

use crate::{stub_at, stub_difference};
use elf32_write::read_frame;
use std::alloc::Global;
use std::test::Fail;

// The stub for a run of 2 bytes at 0x08048054 with its table at 0x00101000 and the private area at 0x00102000.
const STUB: [u8; 77] = [
    0x89, 0x25, 0x08, 0x20, 0x10, 0x00, 0xBC, 0x40, 0x20, 0x10, 0x00, 0x9C, 0x50, 0x51, 0x52, 0xA1,
    0x04, 0x20, 0x10, 0x00, 0x89, 0xC1, 0x81, 0xE9, 0x54, 0x80, 0x04, 0x08, 0x81, 0xF9, 0x02, 0x00,
    0x00, 0x00, 0x73, 0x0A, 0xBA, 0x00, 0x10, 0x10, 0x00, 0xE9, 0x02, 0x00, 0x00, 0x00, 0xEB, 0x08,
    0x8B, 0x0C, 0x8A, 0x85, 0xC9, 0x0F, 0x45, 0xC1, 0xA3, 0x04, 0x20, 0x10, 0x00, 0x5A, 0x59, 0x58,
    0x9D, 0x8B, 0x25, 0x08, 0x20, 0x10, 0x00, 0xFF, 0x25, 0x04, 0x20, 0x10, 0x00,
];

// The record: no input, a block of three pages at 0x00100000, and the run.
const RECORD: [u8; 76] = [
    0x4D, 0x56, 0x46, 0x52, 1, 0, 0, 0, 1, 0, 0, 0, 0, 0, 0, 0, // magic, version, form, input
    0, 0, 0x10, 0, 0, 0x30, 0, 0, 0, 0, 0x10, 0, 77, 0, 0, 0, // block and code
    0, 0x10, 0x10, 0, 8, 0, 0, 0, 0, 0x20, 0x10, 0, 64, 0, 0, 0, // table and private area
    0x40, 0x20, 0x10, 0, 0, 0, 0, 0, 8, 0x10, 0x10, 0, 1, 0, 0, 0, // counters, list, runs
    0x54, 0x80, 0x04, 0x08, 2, 0, 0, 0, 0, 0x10, 0x10, 0,
];

// Whether the code of a file with this record begins with the stub, where byte `place` of it is changed, and where it first
// differs.
type Found = (bool, Option<(u32, u32, u32)>);

fn found(alloc: Global, place: usize) -> Result<Option<Found>, Fail> {
    let mut file = vec![in alloc; 0; 0x900]?;
    file.extend_from_slice(&RECORD)?;
    file.resize(0x1000, 0)?;
    for (i, byte) in STUB.iter().enumerate() {
        file.push(if i == place { !*byte } else { *byte })?;
    }
    file.resize(0x3000, 0)?;
    Ok(read_frame(&file).map(|frame| (stub_at(&frame), stub_difference(&frame))))
}

#[test]
fn finds_the_stub_byte_by_byte(rt: HostRuntime) -> Result<(), Fail> {
    assert_eq!(rt; found(rt.alloc(), STUB.len())?, Some((true, None)));
    for place in [0, 24, 30, 37, 42, 76] {
        let kept = u32::from(STUB[place]);
        let differs = (0x0010_0000 + place as u32, kept, 255 - kept);
        assert_eq!(rt; found(rt.alloc(), place)?, Some((false, Some(differs))));
    }
    Ok(())
}
