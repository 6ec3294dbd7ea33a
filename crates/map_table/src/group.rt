//! The groups of runs: up to 1,024 addresses each, which have their words in one page.

ghost use Rattle.std.specs.Prelude.{◌≡◌, ◌+◌, ◌<◌, ◌≤◌, ◌++◌, length, IfOk, OnOk};
ghost use Rattle.mv_base.specs.Table.{group_count as count_of_groups};
ghost use Rattle.elf32_read.specs.Runs.{AreApart};
ghost use Rattle.map_table.specs.Groups.{group_of, groups_in, groups as groups_of};

use elf32_read::Run;
use mv_base::NoMemory;
use std::alloc::Global;

/// How many addresses a group has, but the last of a run, which may have fewer.
pub const GROUP_LEN: u32 = 1024;

/// The addresses from `lo` on, `len` of them and at most 1,024, of one run.
#[derive(Clone, Copy, Drop)]
pub struct Group {
    pub lo: u32,
    pub len: u32,
}

/// How many groups a run has.
pub fn group_count(run: &Run) -> u32
    requires { run.now.lo + length run.now.bytes ≤ 0xFFFFF000 }
    ensures { result ≡ count_of_groups (length run.now.bytes) }
{
    (run.bytes.len() as u32).div_ceil(GROUP_LEN)
}

/// A group of a run, by its number from 0 on.
#[tactic(auto, unfolding(crate::specs::Groups::group_of))]
pub fn group_at(run: &Run, number: u32) -> Group
    requires ends { run.now.lo + length run.now.bytes ≤ 0xFFFFF000 }
    requires number { number < count_of_groups (length run.now.bytes) }
    ensures { result ≡ group_of run.now number }
{
    let start = GROUP_LEN * number;
    let rest = run.bytes.len() as u32 - start;
    Group {
        lo: run.lo + start,
        len: rest.min(GROUP_LEN),
    }
}

/// Appends the groups of a run.
fn put_groups(run: &Run, to: &mut Vec<Group>) -> Result<(), NoMemory>
    requires { run.now.lo + length run.now.bytes ≤ 0xFFFFF000 }
    ensures { OnOk result (to.new.items ≡ to.old.items ++ groups_in run.now) }
{
    for number in 0..group_count(run) {
        to.push(group_at(run, number))?;
    }
    Ok(())
}

/// The groups of runs, in their order.
pub fn groups(alloc: Global, runs: &[Run]) -> Result<Vec<Group>, NoMemory>
    requires { AreApart 0 runs.now }
    ensures { IfOk result (λ gs. gs.items ≡ groups_of runs.now) }
{
    let mut groups = Vec::new(alloc);
    for run in runs {
        put_groups(run, &mut groups)?;
    }
    Ok(groups)
}
