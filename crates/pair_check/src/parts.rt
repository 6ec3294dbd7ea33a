//! The parts that a file has once, but the counters: where the block lies, the runs and the stub.

ghost use Rattle.std.specs.Prelude.{◌≡◌, ◌<◌, ◌≤◌, ◌^◌, length};
ghost use Rattle.elf32_read.specs.Runs.{AreSpread};
ghost use Rattle.image_layout.specs.Fit.{is_apart as apart};
ghost use Rattle.pair_check.specs.Parts.{room_differs, run_differs, runs_differ, stub_differs};

use crate::differs::{Differs, Part};
use elf32_read::{Run, Segment};
use elf32_write::Frame;
use mv_base::RunPlace;
use simulation_laws::stub_difference;

/// How many bytes a page has.
const PAGE: u32 = 4096;

/// The lowest address of a block.
const LOWEST_BASE: u32 = 0x0010_0000;

/// The first segment with which the block shares a page, or a base that is too low.
pub fn room_difference(frame: &Frame<'_>, segments: &[Segment]) -> Option<Differs>
    ensures { result ≡ room_differs frame.now segments.now }
{
    let added = frame.added();
    let first = added.lo() / PAGE;
    let end = (u64::from(added.lo()) + u64::from(added.len())) / u64::from(PAGE);
    for segment in segments {
        if !is_apart(first, end, segment) {
            return Some(Differs {
                part: Part::Room,
                at: PAGE * first.max(segment.range.lo() / PAGE),
                kept: added.lo(),
                found: segment.range.lo(),
            });
        }
    }
    if added.lo() < LOWEST_BASE {
        return Some(Differs {
            part: Part::Room,
            at: added.lo(),
            kept: added.lo(),
            found: LOWEST_BASE,
        });
    }
    None
}

/// Whether pages from one on, up to one that is not among them, have none of a segment's pages.
fn is_apart(first: u32, end: u64, segment: &Segment) -> bool
    ensures { result ≡ apart first end segment.now }
{
    let range = segment.range;
    end <= u64::from(range.lo() / PAGE) || range.end().div_ceil(u64::from(PAGE)) <= u64::from(first)
}

/// The first number that differs of the input's runs and the frame's: how many there are, then the address and the length
/// of each.
pub fn runs_difference(frame: &Frame<'_>, runs: &[Run]) -> Option<Differs>
    requires spread { AreSpread 0 runs.now }
    requires few { length runs.now ≤ 64 }
    ensures { result ≡ runs_differ runs.now frame.now }
{
    let count = runs.len() as u32;
    if count != frame.run_count() {
        return Some(Differs {
            part: Part::Runs,
            at: 0,
            kept: count,
            found: frame.run_count(),
        });
    }
    for index in 0..runs.len() {
        let place = frame.run_at(index as u32);
        if let Some(found) = run_difference(1 + 2 * index as u32, &runs[index], &place) {
            return Some(found);
        }
    }
    None
}

/// The first number that differs of an input's run and one of the frame, whose first number is at a place.
fn run_difference(at: u32, run: &Run, place: &RunPlace) -> Option<Differs>
    requires at { at < 1000 }
    requires short { length run.now.bytes < 2 ^ 32 }
    ensures { result ≡ run_differs at run.now place.now }
{
    if run.lo != place.lo {
        return Some(Differs {
            part: Part::Runs,
            at,
            kept: run.lo,
            found: place.lo,
        });
    }
    let len = run.bytes.len() as u32;
    if len != place.len {
        return Some(Differs {
            part: Part::Runs,
            at: at + 1,
            kept: len,
            found: place.len,
        });
    }
    None
}

/// The first byte at which the code differs from the lookup stub.
pub fn stub_part(frame: &Frame<'_>) -> Option<Differs>
    ensures { result ≡ stub_differs frame.now }
{
    match stub_difference(frame) {
        Some((at, kept, found)) => Some(Differs {
            part: Part::Stub,
            at,
            kept,
            found,
        }),
        None => None,
    }
}
