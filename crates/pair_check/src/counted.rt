//! The frame's counters: they ascend, each is that of a site, and both ways of a branch or a loop are counted or neither.
//! The list may be anybody's, so nothing is searched in it but its front, as far as that ascends.

ghost use Rattle.std.specs.Prelude.{◌≡◌, ◌<◌, ◌≤◌, true, length, None, Some, IfOk};
ghost use Rattle.elf32_read.specs.Runs.{code_of, AreSpread};
ghost use Rattle.x86_insn.specs.Flow.{flow_of};
ghost use Rattle.counter_hooks.specs.Rules.{is_branch as branching};
ghost use Rattle.elf32_write.specs.Frame.{Frame as FrameOf, counted, pair_at as pair_of};
ghost use Rattle.simulation_laws.specs.Code.{site_at as site_of};
ghost use Rattle.pair_check.specs.declared.differs.Part.TheVariants as PartOf;
ghost use Rattle.pair_check.specs.Parts.{
  counts_site as counting_site,
  differs_at,
  has_other as other_there,
  is_behind as behind,
  is_way as way_kind,
  last_address as address_of,
  pairs_differ,
};
ghost use Rattle.pair_check.specs.Walking.{
  pair_before as before_pair,
  AreMarked,
  AreMarks,
  IsOrdered,
  IsPlace,
};

use crate::differs::{Differs, Part};
use elf32_read::Run;
use elf32_write::Frame;
use mv_base::NoMemory;
use std::alloc::Global;
use superset::{Site, site_at};
use x86_insn::Flow;

/// The kinds of the two ways that a branch or a loop goes, and what they are together.
const TAKEN: u8 = 1;

const PASSED: u8 = 2;

const BOTH: u8 = TAKEN + PASSED;

/// The first of the frame's counters that is not behind the one before it, is not that of a site, or counts one way of
/// what is no branch or loop, or whose other way is not counted.
pub fn pairs_difference(
    alloc: Global,
    frame: &Frame<'_>,
    runs: &[Run],
) -> Result<Option<Differs>, NoMemory>
    requires { AreSpread 0 runs.now }
    ensures { IfOk result (λ found. found
        ≡ pairs_differ frame.now (code_of runs.now) 0 None (counted frame.now)) }
{
    let ordered = ordered_count(frame);
    let others = others(alloc, frame, ordered)?;
    for index in 0..ordered {
        if !counts_site(runs, pair_at(frame, index), others[index as usize]) {
            return Ok(Some(pair_differs(frame, index)));
        }
    }
    if ordered < frame.counter_count() {
        return Ok(Some(pair_differs(frame, ordered)));
    }
    Ok(None)
}

/// That a counter is wrong.
fn pair_differs(frame: &Frame<'_>, index: u32) -> Differs
    requires { index < frame.now.counters }
    ensures { Some result ≡ differs_at PartOf.Counted index
        (address_of (before_pair frame.now index)) (pair_of frame.now index).0 }
{
    Differs {
        part: Part::Counted,
        at: index,
        kept: last_address(pair_before(frame, index)),
        found: frame.counted_at(index),
    }
}

/// How many counters there are before the first that is not behind the one before it.
fn ordered_count(frame: &Frame<'_>) -> u32
    ensures { IsOrdered frame.now result }
{
    for index in 0..frame.counter_count() {
        if !is_behind(pair_before(frame, index), pair_at(frame, index)) {
            return index;
        }
    }
    frame.counter_count()
}

/// An address that is counted and the kind.
fn pair_at(frame: &Frame<'_>, index: u32) -> (u32, u8)
    requires { index < frame.now.counters }
    ensures is { result ≡ pair_of frame.now index }
    ensures high { result.1 ≤ 2 }
{
    (frame.counted_at(index), frame.kind_at(index))
}

/// The one before it, if there is one.
fn pair_before(frame: &Frame<'_>, index: u32) -> Option<(u32, u8)>
    requires { index < frame.now.counters }
    ensures { result ≡ before_pair frame.now index }
{
    if index == 0 {
        return None;
    }
    Some(pair_at(frame, index - 1))
}

/// Whether a counter is behind the one before it, if there is one: by its address, and at one address by its kind.
fn is_behind(last: Option<(u32, u8)>, pair: (u32, u8)) -> bool
    ensures { result ≡ behind last pair }
{
    match last {
        Some(before) if before.0 == pair.0 => before.1 < pair.1,
        Some(before) => before.0 < pair.0,
        None => true,
    }
}

/// The address of a counter, or 0.
fn last_address(last: Option<(u32, u8)>) -> u32
    ensures { result ≡ address_of last }
{
    match last {
        Some(pair) => pair.0,
        None => 0,
    }
}

/// Whether a kind is that of one of the ways that a branch or a loop goes.
fn is_way(kind: u8) -> bool
    ensures { result ≡ way_kind kind }
{
    kind == TAKEN || kind == PASSED
}

/// For each of the first counters, which ascend, whether the list has the other way at its address, if it counts a way. By
/// one walk over the whole list: each pair is looked for in the first ones as the other way of one of them.
fn others(alloc: Global, frame: &Frame<'_>, ordered: u32) -> Result<Vec<bool>, NoMemory>
    requires { IsOrdered frame.now ordered }
    ensures { IfOk result (λ marks. AreMarks frame.now ordered marks.items) }
{
    let mut marks = vec![in alloc; false; ordered as usize]?;
    for index in 0..frame.counter_count() {
        mark(frame, ordered, pair_at(frame, index), &mut marks);
    }
    Ok(marks)
}

/// Marks which of the first counters, which ascend, has this as its other way.
fn mark(frame: &Frame<'_>, ordered: u32, pair: (u32, u8), marks: &mut Vec<bool>)
    requires ordered { IsOrdered frame.now ordered }
    requires count { length marks.old.items ≡ ordered }
    requires high { pair.1 ≤ 2 }
    ensures { AreMarked frame.now ordered pair marks.old.items marks.new.items }
{
    if !is_way(pair.1) {
        return;
    }
    let wanted = (pair.0, BOTH - pair.1);
    let place = place_of(frame, ordered, wanted);
    if place == ordered {
        return;
    }
    let there = pair_at(frame, place);
    if there.0 == wanted.0 && there.1 == wanted.1 {
        marks[place as usize] = true;
    }
}

/// Where among the first counters, which ascend, this can be.
fn place_of(frame: &Frame<'_>, ordered: u32, pair: (u32, u8)) -> u32
    requires { IsOrdered frame.now ordered }
    ensures { IsPlace frame.now ordered pair result }
{
    let mut low = 0;
    let mut high = ordered;
    while low < high {
        let middle = low + (high - low) / 2;
        if is_behind(Some(pair_at(frame, middle)), pair) {
            low = middle + 1;
        } else {
            high = middle;
        }
    }
    high
}

/// Whether a counter is that of a site; and where it counts a way, that of a branch or a loop whose other way is counted too.
fn counts_site(runs: &[Run], pair: (u32, u8), has_other: bool) -> bool
    requires { AreSpread 0 runs.now }
    ensures { (f : FrameOf) → (way_kind pair.1 ≡ true → has_other ≡ other_there f pair) →
        result ≡ counting_site f pair (site_of (code_of runs.now) pair.0) }
{
    match site_of_runs(runs, pair.0) {
        Some(site) => !is_way(pair.1) || (is_branch(&site) && has_other),
        None => false,
    }
}

/// Whether a site is a branch or a loop.
fn is_branch(site: &Site) -> bool
    ensures { result ≡ branching (flow_of site.now.insn) }
{
    matches!(site.insn.next_kind(), Flow::Branch | Flow::Count)
}

/// The site at an address of the runs.
fn site_of_runs(runs: &[Run], address: u32) -> Option<Site>
    requires { AreSpread 0 runs.now }
    ensures { result ≡ site_of (code_of runs.now) address }
{
    for run in runs {
        if address >= run.lo && ((address - run.lo) as usize) < run.bytes.len() {
            return site_at(run, (address - run.lo) as usize);
        }
    }
    None
}
