//! Superset disassembly: decoding at every byte of the runs.

ghost use Rattle.std.specs.Prelude.{◌≡◌, ◌+◌, ◌<◌, ◌≤◌, [], ◌∷◌, ◌++◌, length, option_to_list, IfOk, OnOk};
ghost use Rattle.std.specs.List.{AllByRecursion};
ghost use Rattle.elf32_read.specs.Runs.{code_of, AreSpread};
ghost use Rattle.superset.specs.Sites.{site_at as site_of, sites_in, AreSites, EndsLow, HasLength};

use crate::site::Site;
use elf32_read::Run;
use mv_base::NoMemory;
use std::alloc::Global;
use x86_decode::{Decoded, decode};

/// How many bytes an instruction has at most.
const LONGEST: usize = 15;

/// All sites of the runs, ascending: the addresses at which an instruction lies wholly in the runs' bytes. It decodes
/// once at each address, and looks at no more than 15 bytes there. The runs ascend with a gap between any two, and end
/// at most at 0xFFFFF000.
///
/// # Errors
///
/// `NoMemory`.
pub fn sites(alloc: Global, runs: &[Run]) -> Result<Vec<Site>, NoMemory>
    requires { AreSpread 0 runs.now }
    ensures listed { IfOk result (λ found. found.items ≡ sites_in (code_of runs.now) runs.now) }
    ensures exact { IfOk result (λ found. AreSites (code_of runs.now) found.items) }
    ensures ends { IfOk result (λ found. AllByRecursion EndsLow found.items) }
    ensures lengths { IfOk result (λ found. AllByRecursion HasLength found.items) }
{
    let mut found = Vec::new(alloc);
    for run in runs {
        add_sites(run, &mut found)?;
    }
    Ok(found)
}

/// Appends the sites of a run.
fn add_sites(run: &Run, found: &mut Vec<Site>) -> Result<(), NoMemory>
    requires { run.now.lo + length run.now.bytes ≤ 0xFFFFF000 }
    ensures { OnOk result
        (found.new.items ≡ found.old.items ++ sites_in (code_of (run.now ∷ [])) (run.now ∷ [])) }
{
    for offset in 0..run.bytes.len() {
        push_site(run, offset, found)?;
    }
    Ok(())
}

/// Appends the site at an offset of a run, where there is one.
fn push_site(run: &Run, offset: usize, found: &mut Vec<Site>) -> Result<(), NoMemory>
    requires within { offset < length run.now.bytes }
    requires ends { run.now.lo + length run.now.bytes ≤ 0xFFFFF000 }
    ensures { OnOk result
        (found.new.items ≡ found.old.items
        ++ option_to_list (site_of (code_of (run.now ∷ [])) (run.now.lo + offset))) }
{
    match site_at(run, offset) {
        Some(site) => {
            found.push(site)?;
            Ok(())
        }
        None => Ok(()),
    }
}

/// The site at an offset of a run: the instruction that begins there, where it lies wholly in the run's bytes. It looks
/// at no more than 15 of them, and takes no memory.
pub fn site_at(run: &Run, offset: usize) -> Option<Site>
    requires within { offset < length run.now.bytes }
    requires ends { run.now.lo + length run.now.bytes ≤ 0xFFFFF000 }
    ensures { result ≡ site_of (code_of (run.now ∷ [])) (run.now.lo + offset) }
{
    let tail = &run.bytes.as_slice()[offset..];
    match decode(&tail[..LONGEST.min(tail.len())]) {
        Decoded::Insn { insn, len } => Some(Site {
            at: run.lo + offset as u32,
            len,
            insn,
        }),
        Decoded::Short => None,
        Decoded::Unknown => None,
    }
}
