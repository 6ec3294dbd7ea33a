//! Files that are written and read back, and one of version 1.

ghost use Rattle.std.specs.Prelude.{IsTrue};
ghost use Rattle.elf32_write.specs.Writing.{EndsLow};

use crate::files::{CODE, code, file_of};
use elf32_read::read_image;
use elf32_write::{Frame, Pairs, Plan, RunPlaces, read_frame, write_image};
use mv_base::{Bytes, NoMemory, RunPlace};
use std::alloc::Global;
use std::test::Fail;

/// The address of the added block.
const BLOCK: u32 = 0x0010_0000;

/// A file with two bytes of code.
fn input(alloc: Global) -> Result<Vec<u8>, NoMemory> {
    Ok(file_of(alloc, CODE, &[code(0x54, CODE, 2)], &[0xCD, 0x80])?)
}

/// A page of zeros, a directory that names the page which lies this many bytes behind it, and that page, whose first address
/// goes to the code.
fn table(alloc: Global, page: u8) -> Result<Bytes, NoMemory> {
    let mut table = vec![in alloc; 0; 4096]?;
    table.extend_from_slice(&[page, 0x20, 0x10, 0, 0, 0, 0x10, 0])?;
    table.resize(8196, 0)?;
    Ok(Bytes::new(table))
}

/// A plan with 32 bytes of code, one run of two addresses, such a table and these counters.
fn plan(alloc: Global, page: u8, counted: &[(u32, u8)]) -> Result<Plan, NoMemory> {
    let run = RunPlace {
        lo: CODE,
        len: 2,
        dir: 0x0010_2000,
    };
    Ok(Plan {
        base: BLOCK,
        code: Bytes::new(vec![in alloc; 0xCC; 32]?),
        table: table(alloc, page)?,
        counted: Pairs::new(Vec::from_slice(alloc, counted)?),
        runs: RunPlaces::new(vec![in alloc; run]?),
        entry: BLOCK,
        rule: 6,
        edge_rule: 1,
    })
}

/// Whether the block of a plan ends low enough.
#[tactic(auto, using(elf32_write::specs::Written::table_length))]
fn ends_low(plan: &Plan) -> bool
    ensures { IsTrue result → EndsLow plan.now }
{
    plan.base == BLOCK
        && plan.code.len() <= 4096
        && plan.table.len() <= 12_288
        && plan.counted.len() <= 64
}

/// The file of a plan over an input.
fn file_over(alloc: Global, input: &[u8], plan: &Plan) -> Option<Vec<u8>> {
    let image = read_image(alloc, input).ok()?;
    let is_small = input.len() <= 4096 && plan.runs.len() <= 64 && image.headers.len() <= 61;
    if is_small && ends_low(plan) {
        write_image(alloc, &image, input, plan).ok()
    } else {
        None
    }
}

/// The file of such a plan.
fn written(alloc: Global, page: u8, counted: &[(u32, u8)]) -> Result<Vec<u8>, Fail> {
    let input = input(alloc)?;
    let plan = plan(alloc, page, counted)?;
    Ok(file_over(alloc, &input, &plan).ok_or("a file")?)
}

/// What a frame says: its version, form, rule and rule of branches; where the block and the private area lie, and how long
/// input, code and table are; where the two addresses of the run, and address 7, lead; and the last counter with its number.
#[derive(Clone, Copy)]
struct Told {
    words: [u8; 4],
    places: [u32; 2],
    lens: [usize; 3],
    runs: u32,
    entries: [Option<u32>; 2],
    maps: [u32; 2],
    counters: u32,
    last: (u32, u8, u32),
}

/// The last counter's site, its kind and its place; zeros where there is none.
fn last_counter(frame: &Frame<'_>) -> (u32, u8, u32) {
    match frame.counter_count() {
        0 => (0, 0, 0),
        count => (
            frame.counted_at(count - 1),
            frame.kind_at(count - 1),
            frame.counter_place(count - 1),
        ),
    }
}

/// What the frame of a file says, if it has one.
fn frame_of(file: &[u8]) -> Option<Told> {
    let frame = read_frame(file)?;
    Some(Told {
        words: [
            frame.version(),
            frame.form(),
            frame.rule(),
            frame.edge_rule(),
        ],
        places: [frame.added().lo(), frame.private()],
        lens: [
            frame.input().len(),
            frame.code_bytes().len(),
            frame.table_bytes().len(),
        ],
        runs: frame.run_count(),
        entries: [frame.entry(CODE), frame.entry(CODE + 1)],
        maps: [frame.map(CODE), frame.map(7)],
        counters: frame.counter_count(),
        last: last_counter(&frame),
    })
}

/// Whether the frame of a file has this input.
fn has_input(file: &[u8], input: &[u8]) -> bool {
    read_frame(file).is_some_and(|frame| frame.input() == input)
}

/// The kind of the first counter of a file's frame.
fn first_kind(file: &[u8]) -> Option<u8> {
    let frame = read_frame(file)?;
    if frame.counter_count() == 0 {
        return None;
    }
    Some(frame.kind_at(0))
}

#[test]
fn reads_back_what_is_written(rt: HostRuntime) -> Result<(), Fail> {
    let alloc = rt.alloc();
    let file = written(alloc, 4, &[(CODE, 0), (CODE, 2)])?;
    assert_eq!(rt; file.len(), 0x6000);
    assert!(rt; has_input(&file, &input(alloc)?));
    assert_eq!(rt; first_kind(&file), Some(0));
    let frame = frame_of(&file).ok_or("a frame")?;
    assert_eq!(rt; frame.words, [2, 2, 6, 1]);
    assert_eq!(rt; frame.places, [BLOCK, 0x0010_4000]);
    assert_eq!(rt; frame.lens, [86, 32, 8196]);
    assert_eq!(rt; (frame.runs, frame.counters), (1, 2));
    assert_eq!(rt; frame.entries, [Some(BLOCK), None]);
    assert_eq!(rt; frame.maps, [BLOCK, 7]);
    assert_eq!(rt; frame.last, (CODE, 2, 0x0010_4048));
    Ok(())
}

/// The record of version 1 of a file with no input, 32 bytes of code, a table of form 1 for a run of two addresses, and one
/// counter.
const OLD_RECORD: [u8; 76] = [
    0x4D, 0x56, 0x46, 0x52, 1, 0, 0, 0, 1, 0, 0, 0, 0, 0, 0, 0, // magic, version, form, input
    0, 0, 0x10, 0, 0, 0x30, 0, 0, 0, 0, 0x10, 0, 32, 0, 0, 0, // block and code
    0, 0x10, 0x10, 0, 12, 0, 0, 0, 0, 0x20, 0x10, 0, 64, 0, 0, 0, // table and private area
    0x40, 0x20, 0x10, 0, 1, 0, 0, 0, 8, 0x10, 0x10, 0, 1, 0, 0, 0, // counters, list, runs
    0x54, 0x80, 0x04, 0x08, 2, 0, 0, 0, 0, 0x10, 0x10, 0, // the run
];

/// The file of that record, with this version in it.
fn old_file(alloc: Global, version: u8) -> Result<Vec<u8>, NoMemory> {
    let mut file = vec![in alloc; 0; 0x900]?;
    file.extend_from_slice(&OLD_RECORD)?;
    file.resize(0x2000, 0)?;
    file.extend_from_slice(&[0, 0, 0x10, 0, 0, 0, 0, 0, 0x55, 0x80, 0x04, 0x08])?;
    file.resize(0x3000, 0)?;
    if let Some(byte) = file.get_mut(0x904) {
        *byte = version;
    }
    Ok(file)
}

#[test]
fn reads_version_1(rt: HostRuntime) -> Result<(), Fail> {
    let frame = frame_of(&old_file(rt.alloc(), 1)?).ok_or("a frame")?;
    assert_eq!(rt; frame.words, [1, 1, 6, 0]);
    assert_eq!(rt; frame.entries, [Some(BLOCK), None]);
    assert_eq!(rt; frame.maps, [BLOCK, 7]);
    let (site, kind, _) = frame.last;
    assert_eq!(rt; (frame.counters, site, kind), (1, 0x0804_8055, 0));
    Ok(())
}

#[test]
fn gives_no_frame(rt: HostRuntime) -> Result<(), Fail> {
    // a page behind the table, and a third kind
    let rows: [(u8, &[(u32, u8)]); 2] = [(5, &[]), (4, &[(CODE, 3)])];
    for (page, counted) in rows {
        let file = written(rt.alloc(), page, counted)?;
        assert!(rt; frame_of(&file).is_none());
    }
    // other versions
    for version in [0, 2, 3] {
        assert!(rt; frame_of(&old_file(rt.alloc(), version)?).is_none());
    }
    Ok(())
}
