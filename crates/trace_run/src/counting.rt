//! The counters of a file's frame, as they are in memory.

ghost use Rattle.std.specs.Prelude.{◌≡◌, ◌<◌, ◌++◌, option_to_list, IfOk, OnOk};
ghost use Rattle.elf32_write.specs.Frame.{frame};
ghost use Rattle.proc_image.specs.Paged.{cells};
ghost use Rattle.trace_run.specs.Counts.{count_at as count_of, counter_at as counter_of, counts_of, frame_counts as counts_in, with_number as numbered};

use crate::report::Counts;
use byteorder::{ByteOrder, LittleEndian};
use elf32_write::{Frame, read_frame};
use mv_base::NoMemory;
use proc_image::Memory;
use std::alloc::Global;

/// The counters of a file's frame that are mapped and not 0, each with the address of its site and its kind, in the order
/// of the frame's list; none where the file has no frame.
pub fn counts(alloc: Global, file: &[u8], memory: &Memory) -> Result<Counts, NoMemory>
    ensures { IfOk result (λ found. found ≡ counts_of (frame file.now) (cells memory.now)) }
{
    match read_frame(file) {
        Some(frame) => frame_counts(alloc, &frame, memory),
        None => Ok(Counts::new(Vec::new(alloc))),
    }
}

/// The same of a frame.
fn frame_counts(alloc: Global, frame: &Frame<'_>, memory: &Memory) -> Result<Counts, NoMemory>
    ensures { IfOk result (λ found. found ≡ counts_in frame.now (cells memory.now)) }
{
    let mut found = Vec::new(alloc);
    for index in 0..frame.counter_count() {
        push_count(count_at(frame, memory, index), &mut found)?;
    }
    Ok(Counts::new(found))
}

/// Appends a count, if there is one.
fn push_count(
    count: Option<(u32, u8, u64)>,
    found: &mut Vec<(u32, u8, u64)>,
) -> Result<(), NoMemory>
    ensures { OnOk result (found.new.items ≡ found.old.items ++ option_to_list count) }
{
    match count {
        Some(count) => {
            found.push(count)?;
            Ok(())
        }
        None => Ok(()),
    }
}

/// The address of a counted site, the counter's kind and the counter, where that is mapped and not 0.
fn count_at(frame: &Frame<'_>, memory: &Memory, index: u32) -> Option<(u32, u8, u64)>
    requires { index < frame.now.counters }
    ensures { result ≡ count_of frame.now (cells memory.now) index }
{
    let number = counter_at(memory, frame.counter_place(index));
    with_number(frame.counted_at(index), frame.kind_at(index), number)
}

/// An address and a kind with their number, unless that is 0.
fn with_number(address: u32, kind: u8, number: Option<u64>) -> Option<(u32, u8, u64)>
    ensures { result ≡ numbered address kind number }
{
    match number {
        None | Some(0) => None,
        Some(number) => Some((address, kind, number)),
    }
}

/// The number of the eight bytes from an address on; `None` where one isn't mapped.
fn counter_at(memory: &Memory, at: u32) -> Option<u64>
    ensures { result ≡ counter_of (cells memory.now) at }
{
    let mut bytes = [0; 8];
    match memory.read_bytes(at, &mut bytes) {
        Ok(()) => Some(LittleEndian::read_u64(&bytes)),
        Err(_) => None,
    }
}
