//! The bytes of the whole file: those of the input and of what the frame says was added.

ghost use Rattle.std.specs.Prelude.{◌≡◌, ◌≤◌, length, None, Some, IfOk};
ghost use Rattle.elf32_read.specs.Faults.{limit_fault};
ghost use Rattle.elf32_read.specs.Reading.{IsImage};
ghost use Rattle.elf32_write.specs.Frame.{frame as frame_of};
ghost use Rattle.elf32_read.specs.Fields.{entry_at};
ghost use Rattle.elf32_write.specs.Frame.{counted};
ghost use Rattle.pair_check.specs.Parts.{file_differs};
ghost use Rattle.elf32_write.specs.Plans.{plan_of as plan_in};

use crate::differs::{Differs, Part};
use elf32_read::Image;
use elf32_write::{Frame, Pairs, Plan, RunPlaces, write_image};
use mv_base::{Bytes, NoMemory};
use simulation_laws::first_difference;
use std::alloc::Global;

/// Where in a file the version of its record stands.
const VERSION_PLACE: u32 = 0x904;

/// The version that a record is to have, and the one before it.
const VERSION: u32 = 2;

const OLD_VERSION: u32 = 1;

/// The first byte of an output that is not that of the file of the input and the frame's own parts, or an old version of
/// the record.
pub fn file_difference(
    alloc: Global,
    image: &Image,
    original: &[u8],
    frame: &Frame<'_>,
    output: &[u8],
) -> Result<Option<Differs>, NoMemory>
    requires image { IsImage original.now image.now }
    requires limit { length original.now ≤ 268435456 }
    requires admitted { limit_fault original.now ≡ None }
    requires framed { frame_of output.now ≡ Some frame.now }
    ensures { IfOk result (λ found. found ≡ file_differs original.now output.now frame.now) }
{
    if u32::from(frame.version()) == OLD_VERSION {
        return Ok(Some(Differs {
            part: Part::File,
            at: VERSION_PLACE,
            kept: VERSION,
            found: OLD_VERSION,
        }));
    }
    let plan = plan_of(alloc, frame, image.entry)?;
    let wanted = write_image(alloc, image, original, &plan)?;
    match first_difference(0, &wanted, output) {
        Some(found) => Ok(Some(Differs {
            part: Part::File,
            at: found.place as u32,
            kept: found.kept,
            found: found.found,
        })),
        None => Ok(None),
    }
}

/// What the frame says was added, for an input that starts at an address.
fn plan_of(alloc: Global, frame: &Frame<'_>, start: u32) -> Result<Plan, NoMemory>
    ensures { IfOk result (λ plan. plan ≡ plan_in start frame.now) }
{
    Ok(Plan {
        base: frame.added().lo(),
        code: Bytes::new(frame.code_bytes().to_vec(alloc)?),
        table: Bytes::new(frame.table_bytes().to_vec(alloc)?),
        counted: counted_of(alloc, frame)?,
        runs: runs_of(alloc, frame)?,
        entry: frame.map(start),
        rule: frame.rule(),
        edge_rule: frame.edge_rule(),
    })
}

/// The counters of a frame.
fn counted_of(alloc: Global, frame: &Frame<'_>) -> Result<Pairs, NoMemory>
    ensures { IfOk result (λ pairs. pairs ≡ counted frame.now) }
{
    let mut pairs = Vec::new(alloc);
    for index in 0..frame.counter_count() {
        pairs.push((frame.counted_at(index), frame.kind_at(index)))?;
    }
    Ok(Pairs::new(pairs))
}

/// The runs of a frame.
fn runs_of(alloc: Global, frame: &Frame<'_>) -> Result<RunPlaces, NoMemory>
    ensures { IfOk result (λ runs. runs ≡ frame.now.runs) }
{
    let mut runs = Vec::new(alloc);
    for index in 0..frame.run_count() {
        runs.push(frame.run_at(index))?;
    }
    Ok(RunPlaces::new(runs))
}
