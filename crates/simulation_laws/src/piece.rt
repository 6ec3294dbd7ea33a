//! The counter and the piece of a site where a frame maps the site, and what leads on behind them.

ghost use Rattle.std.specs.Prelude.{◌≡◌, ℕ, ◌∷◌, [], ◌++◌, ◌+◌, ◌<◌, ◌≤◌, ◌^◌, true, List, Some, length};
ghost use Rattle.std.specs.Option.{option_map, ForSome};
ghost use Rattle.mv_base.specs.Memory.{exec_bytes};
ghost use Rattle.x86_insn.specs.Flow.{flow_of};
ghost use Rattle.elf32_read.specs.Runs.{code_of};
ghost use Rattle.elf32_write.specs.Frame.{AscendPairs, counted};
ghost use Rattle.counter_hooks.specs.Rules.{is_branch};
ghost use Rattle.simulation_laws.specs.declared.anchors.Anchors.{Anchors as AnchorsValue};
ghost use Rattle.simulation_laws.specs.Code.{site_at};
ghost use Rattle.simulation_laws.specs.Front.{difference};
ghost use Rattle.simulation_laws.specs.Pieces.{counter_code, ways_by};
ghost use Rattle.simulation_laws.specs.Relocated.{
  IsOutput,
  counter_there,
  fits_ways,
  kind_of as place_of,
  piece_place,
  ways_fit as fit_by,
  ways_of as ways_there,
};
ghost use Rattle.simulation_laws.specs.Standing.{
  code_from as code_there,
  has_piece,
  is_entry as entry_is,
  piece_difference as difference_of,
  piece_over,
  way_there,
  HasRun,
};
ghost use Rattle.simulation_laws.specs.Stepping.{SiteLaw};

use crate::anchors::{Anchors, Ways};
use crate::counters::{Counters, counters_of};
use crate::front::{Difference, behind, first_difference};
use crate::site_pieces::site_piece;
use branch_lengthen::join_piece;
use counter_hooks::counter_piece;
use elf32_read::Run;
use elf32_write::Frame;
use superset::{Piece, Site, successor, target};
use x86_insn::Flow;

/// Whether the frame counts both ways of a site of the run or neither, and only a branch's or a loop's, and its code has,
/// where it maps the site, the site's counter of all executions, if it has one, then the site's piece, with a counter on
/// each counted way, and behind it, where the instruction may go on, the successor's entry or a join to it. The addresses that the frame counts, each with its kind, strictly ascend. Where all
/// this holds, and the file loads as an output over an input with this run, each clear step of the input at the site has
/// its law: from states that agree the output comes within the bound to what the step comes to, completed or stopped, with
/// the site counted once more, and the way that a branch or a loop goes, and shows nothing else on the way.
pub fn piece_at(frame: &Frame<'_>, run: &Run, site: &Site) -> bool
    requires site { site_at (code_of (run.now ∷ [])) site.now.at ≡ Some site.now }
    requires ascends { AscendPairs (counted frame.now) }
    ensures value { result ≡ has_piece frame.now (code_of (run.now ∷ [])) site.now }
    ensures law { result ≡ true → (b x : List ℕ) →
        IsOutput b x frame.now → HasRun b run.now → SiteLaw b x frame.now site.now }
{
    let counters = counters_of(frame, site.at);
    let fits = ways_fit(counters, site);
    if !fits {
        return false;
    }
    site_difference(frame, run, site, counters).is_none()
}

/// The first byte at which the code differs from what `piece_at` asks for where the frame maps the site, both of whose ways
/// are counted or neither, and only a branch's or a loop's: the byte that is wanted, and the one that is found, 256 where
/// the code has ended. `None` exactly where `piece_at` is true.
pub fn piece_difference(frame: &Frame<'_>, run: &Run, site: &Site) -> Option<(u32, u32)>
    requires site { site_at (code_of (run.now ∷ [])) site.now.at ≡ Some site.now }
    requires ascends { AscendPairs (counted frame.now) }
    requires ways { fits_ways frame.now site.now ≡ true }
    ensures { result ≡ option_map (λ d. (d.kept, d.found))
        (difference_of frame.now (code_of (run.now ∷ [])) site.now) }
{
    let counters = counters_of(frame, site.at);
    site_difference(frame, run, site, counters).map(|d| (d.kept, d.found))
}

// Whether both ways of a site are counted or neither, and only a branch's or a loop's.
fn ways_fit(counters: Counters, site: &Site) -> bool
    ensures { result ≡ fit_by counters.taken counters.passed (is_branch (flow_of site.now.insn)) }
{
    match (counters.taken, counters.passed) {
        (None, None) => true,
        (Some(_), Some(_)) => matches!(site.insn.next_kind(), Flow::Branch | Flow::Count),
        (Some(_), None) | (None, Some(_)) => false,
    }
}

// The counters of both ways, where there are both.
fn ways_of(counters: Counters) -> Option<Ways>
    ensures { result ≡ ways_by counters.taken counters.passed }
{
    match (counters.taken, counters.passed) {
        (Some(taken), Some(passed)) => Some(Ways { taken, passed }),
        _ => None,
    }
}

// The counter of all executions, or no byte where there is none.
fn counter_bytes(private: u32, counter: Option<u32>) -> Piece
    ensures { (anchors : AnchorsValue) → private ≡ anchors.private →
        result ≡ counter_code anchors counter }
{
    match counter {
        Some(counter) => counter_piece(private, counter),
        None => Piece::new(&[]),
    }
}

// The first difference of the code from what is to stand where the frame maps a site with these counters.
fn site_difference(
    frame: &Frame<'_>,
    run: &Run,
    site: &Site,
    counters: Counters,
) -> Option<Difference>
    requires site { site_at (code_of (run.now ∷ [])) site.now.at ≡ Some site.now }
    requires all { counters.all ≡ place_of frame.now 0 site.now.at }
    requires taken { counters.taken ≡ place_of frame.now 1 site.now.at }
    requires passed { counters.passed ≡ place_of frame.now 2 site.now.at }
    requires fits { fits_ways frame.now site.now ≡ true }
    ensures { result ≡ difference_of frame.now (code_of (run.now ∷ [])) site.now }
{
    let entry = frame.map(site.at);
    let code = code_from(frame, entry);
    let counter = counter_bytes(frame.private(), counters.all);
    if let Some(found) = first_difference(0, counter.as_slice(), code) {
        return Some(found);
    }
    let here = entry + counter.len() as u32;
    let ways = ways_of(counters);
    difference_behind(frame, run, site, ways, here, behind(code, counter.len()))
}

// The first difference of the code from the piece of a site that is to stand at `here`, behind the site's counter, and
// from what leads on.
fn difference_behind(
    frame: &Frame<'_>,
    run: &Run,
    site: &Site,
    ways: Option<Ways>,
    here: u32,
    code: &[u8],
) -> Option<Difference>
    requires site { site_at (code_of (run.now ∷ [])) site.now.at ≡ Some site.now }
    requires ways { ways ≡ ways_there frame.now site.now.at }
    requires branches { ForSome ways (λ w. is_branch (flow_of site.now.insn) ≡ true) }
    requires here { here ≡ piece_place frame.now site.now }
    requires low { here + length code.now < 2 ^ 32 }
    ensures { result ≡ difference (length (counter_there frame.now site.now))
        (piece_over frame.now (code_of (run.now ∷ [])) site.now
        ++ way_there frame.now (here
        + length (piece_over frame.now (code_of (run.now ∷ [])) site.now)) site.now)
        code.now }
{
    let anchors = Anchors {
        stub: frame.code().lo(),
        private: frame.private(),
    };
    let own = own_bytes(run, site);
    let piece = site_piece(own, site, anchors, ways, here, frame.map(target(site)));
    let piece = piece.as_slice();
    let from = u64::from(here - frame.map(site.at));
    if let Some(found) = first_difference(from, piece, code) {
        return Some(found);
    }
    let from = from + piece.len() as u64;
    let next = here + piece.len() as u32;
    way_difference(frame, site, next, from, behind(code, piece.len()))
}

// The first difference of the code, whose first place has this number, from what leads on from an address behind the
// piece of a site.
fn way_difference(
    frame: &Frame<'_>,
    site: &Site,
    here: u32,
    from: u64,
    code: &[u8],
) -> Option<Difference>
    requires { from < 2 ^ 33 }
    ensures { result ≡ difference from (way_there frame.now here site.now) code.now }
{
    if !site.insn.next_kind().falls() {
        return None;
    }
    let next = successor(site);
    if is_entry(frame, next, here) {
        return None;
    }
    first_difference(from, join_piece(here, frame.map(next)).as_slice(), code)
}

// Whether an address has an entry, and this is it.
fn is_entry(frame: &Frame<'_>, address: u32, here: u32) -> bool
    ensures { result ≡ entry_is frame.now address here }
{
    match frame.entry(address) {
        Some(entry) => entry == here,
        None => false,
    }
}

// The frame's code from an address on: nothing where that lies outside it.
fn code_from<'a>(frame: &'a Frame<'_>, at: u32) -> &'a [u8]
    ensures is { result.now ≡ code_there frame.now at }
    ensures low { at + length result.now < 2 ^ 32 }
{
    let lo = frame.code().lo();
    if at < lo {
        return &[];
    }
    let end = frame.code_end();
    if end < at {
        return &[];
    }
    behind(frame.code_bytes(), (at - lo) as usize)
}

// The bytes of a site's instruction.
fn own_bytes<'a>(run: &'a Run, site: &Site) -> &'a [u8]
    requires { site_at (code_of (run.now ∷ [])) site.now.at ≡ Some site.now }
    ensures bytes { result.now ≡ exec_bytes (code_of (run.now ∷ [])) site.now.at site.now.len }
    ensures short { length result.now ≤ 15 }
{
    let offset = (site.at - run.lo) as usize;
    &run.bytes.as_slice()[offset..offset + usize::from(site.len)]
}
