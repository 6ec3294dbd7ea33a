//! The sites of the input: each has its code, and no other address has an entry.

ghost use Rattle.std.specs.Prelude.{◌≡◌, ◌==◌, ◌+◌, ◌<◌, ◌≤◌, [], ◌∷◌, length, Some, None, if◌then◌else◌};
ghost use Rattle.mv_base.specs.Memory.{within};
ghost use Rattle.elf32_read.specs.Runs.{code_of, AreSpread};
ghost use Rattle.elf32_write.specs.Frame.{AscendPairs, counted, frame_entry};
ghost use Rattle.superset.specs.Sites.{addresses, run_addresses};
ghost use Rattle.simulation_laws.specs.Code.{site_at as site_of};
ghost use Rattle.pair_check.specs.declared.differs.Part.TheVariants as PartOf;
ghost use Rattle.pair_check.specs.Parts.{address_differs, differs_at, site_differs};
ghost use Rattle.pair_check.specs.Walking.{FitWays, Finds, IsSeen, site_count};

use crate::differs::{Differs, Part};
use elf32_read::Run;
use elf32_write::Frame;
use mv_base::Range;
use simulation_laws::piece_difference;
use superset::{Site, site_at};

/// How many addresses of the runs are sites, where each of these has its code and no other has an entry; else what is
/// wrong first, going up. It decodes once at each address, and keeps no list.
pub fn sites_difference(frame: &Frame<'_>, runs: &[Run]) -> Result<u32, Differs>
    requires spread { AreSpread 0 runs.now }
    requires few { length (addresses runs.now) ≤ 16777216 }
    requires ascends { AscendPairs (counted frame.now) }
    requires fits { FitWays frame.now (code_of runs.now) }
    ensures { IsSeen frame.now (code_of runs.now) (addresses runs.now) result }
{
    let mut count = 0;
    for run in runs {
        let seen = match run_difference(frame, run) {
            Ok(seen) => seen,
            Err(found) => return Err(found),
        };
        count += seen;
    }
    Ok(count)
}

/// The same for the addresses of one run.
fn run_difference(frame: &Frame<'_>, run: &Run) -> Result<u32, Differs>
    requires ends { run.now.lo + length run.now.bytes ≤ 0xFFFFF000 }
    requires ascends { AscendPairs (counted frame.now) }
    requires fits { FitWays frame.now (code_of (run.now ∷ [])) }
    ensures { IsSeen frame.now (code_of (run.now ∷ [])) (run_addresses run.now) result }
{
    let mut count = 0;
    for offset in 0..run.bytes.len() {
        let seen = match address_difference(frame, run, offset) {
            Ok(seen) => seen,
            Err(found) => return Err(found),
        };
        count += seen;
    }
    Ok(count)
}

/// Whether the address at an offset of a run is a site, 0 or 1, where nothing is wrong there.
fn address_difference(frame: &Frame<'_>, run: &Run, offset: usize) -> Result<u32, Differs>
    requires within { offset < length run.now.bytes }
    requires ends { run.now.lo + length run.now.bytes ≤ 0xFFFFF000 }
    requires ascends { AscendPairs (counted frame.now) }
    requires fits { FitWays frame.now (code_of (run.now ∷ [])) }
    ensures { Finds (address_differs frame.now (code_of (run.now ∷ [])) (run.now.lo + offset))
        (site_count (site_of (code_of (run.now ∷ [])) (run.now.lo + offset))) result }
{
    let address = run.lo + offset as u32;
    let entry = entry_or_zero(frame, address);
    match site_at(run, offset) {
        Some(site) => site_difference(frame, run, &site, entry),
        None => none_at(address, entry),
    }
}

/// An address that is no site has no entry.
fn none_at(address: u32, entry: u32) -> Result<u32, Differs>
    ensures { Finds (if entry == 0 then None else differs_at PartOf.Entry address 0 entry) 0 result }
{
    if entry != 0 {
        return Err(Differs {
            part: Part::Entry,
            at: address,
            kept: 0,
            found: entry,
        });
    }
    Ok(0)
}

/// A site has an entry in the code, and its code stands there.
fn site_difference(frame: &Frame<'_>, run: &Run, site: &Site, entry: u32) -> Result<u32, Differs>
    requires site { site_of (code_of (run.now ∷ [])) site.now.at ≡ Some site.now }
    requires entry { entry ≡ frame_entry frame.now site.now.at }
    requires ascends { AscendPairs (counted frame.now) }
    requires fits { FitWays frame.now (code_of (run.now ∷ [])) }
    ensures { Finds (site_differs frame.now (code_of (run.now ∷ [])) site.now.at (Some site.now)) 1
        result }
{
    let code = frame.code();
    if !is_in_code(code, entry) {
        return Err(Differs {
            part: Part::Entry,
            at: site.at,
            kept: code.lo(),
            found: entry,
        });
    }
    match piece_difference(frame, run, site) {
        Some((kept, found)) => Err(Differs {
            part: Part::Piece,
            at: site.at,
            kept,
            found,
        }),
        None => Ok(1),
    }
}

/// Whether an address lies in a range.
fn is_in_code(code: Range, address: u32) -> bool
    ensures { result ≡ within code.lo code.len address }
{
    code.lo() <= address && u64::from(address) < u64::from(code.lo()) + u64::from(code.len())
}

/// An address's entry, or 0.
fn entry_or_zero(frame: &Frame<'_>, address: u32) -> u32
    ensures { result ≡ frame_entry frame.now address }
{
    frame.entry(address).unwrap_or(0)
}
