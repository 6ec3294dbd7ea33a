//! The table of pairs of an old and a new address, and how long it is.

ghost use Rattle.std.specs.Prelude.{◌≡◌, ℕ, ◌+◌, ◌*◌, ◌^◌, ◌<◌, ◌≤◌, length, map, IfOk, if◌then◌else◌};
ghost use Rattle.std.specs.List.{count_by, AllByRecursion};
ghost use Rattle.mv_base.specs.Table.{group_count as count_of_groups, paged_entry};
ghost use Rattle.elf32_read.specs.Runs.{AreApart};
ghost use Rattle.map_table.specs.Groups.{groups_in, has_site as has_site_of, groups as groups_of};
ghost use Rattle.map_table.specs.Pairs.{Ascend, entry_in, second_of};
ghost use Rattle.map_table.specs.Paged.{table_bytes, table_size, places, places_from, IsMade, IsPaged, AreRuns};

use crate::group::{GROUP_LEN, Group, group_at, group_count, groups};
use crate::page::{PAGE_LEN, put_directories, put_pages, put_zeros};
use crate::pairs::has_site;
use crate::reading::word_for;
use elf32_read::Run;
use mv_base::{Bytes, NoMemory};
use std::alloc::Global;
use std::marker::Model;

/// A table of form 2, seen as what it is made of: runs, pairs of an old and a new address, and the table's own address.
#[derive(Drop)]
pub struct Table<'a> {
    runs: &'a [Run],
    pairs: &'a [(u32, u32)],
    lo: u32,
    dirs: Vec<u32>,
    bytes: Vec<u8>,
}

impl<'a> Model for Table<'a> {
    ghost use Rattle.map_table.specs.Paged.{Made};
    ghost use Rattle.map_table.specs.Built.{IsBuilt};

    ghost Value = { Made };

    ghost view = { λ t. record { runs = t.runs.now; pairs = t.pairs.now; lo = t.lo } };

    ghost invariant = { λ t. IsBuilt (record { runs = t.runs.now; pairs = t.pairs.now; lo = t.lo })
        t.dirs.items t.bytes.items };
}

impl<'a> Table<'a> {
    /// The table of pairs, for runs and an address.
    ///
    /// # Errors
    ///
    /// `NoMemory` where memory for the table is wanted.
    pub fn build(
        alloc: Global,
        runs: &'a [Run],
        pairs: &'a [(u32, u32)],
        lo: u32,
    ) -> Result<Table<'a>, NoMemory>
        requires { IsMade (record { runs = runs.now; pairs = pairs.now; lo = lo }) }
        ensures { IfOk result (λ table. table
            ≡ record { runs = runs.now; pairs = pairs.now; lo = lo }) }
    {
        let bytes = bytes_of(alloc, runs, pairs, lo)?;
        let dirs = dirs_of(alloc, runs, lo + PAGE_LEN)?;
        Ok(Table {
            runs,
            pairs,
            lo,
            dirs,
            bytes,
        })
    }

    /// The new address of an address, read from its page; `None` exactly where it has no pair.
    pub fn entry(&self, address: u32) -> Option<u32>
        ensures { result ≡ second_of self.now.pairs address }
    {
        let (dirs, bytes) = (self.dirs.as_slice(), self.bytes.as_slice());
        match word_for(self.runs, self.pairs, self.lo, dirs, bytes, address) {
            0 => None,
            entry => Some(entry),
        }
    }

    /// The addresses of the directories, one for each run.
    pub fn dirs(&self) -> &[u32]
        ensures { result.now ≡ map (λ r. r.dir) (places self.now.runs self.now.lo) }
    {
        self.dirs.as_slice()
    }

    /// The table as it lies in memory. Read by the rule of form 2 it gives each entry, and 0 at every other address;
    /// each directory and each page that is named lies in it.
    pub fn bytes(&self) -> &[u8]
        ensures is { result.now ≡ table_bytes self.now.runs self.now.pairs self.now.lo }
        ensures len { length result.now ≡ table_size self.now.runs (map (λ p. p.0) self.now.pairs) }
        ensures reads { (a : ℕ) →
            paged_entry result.now self.now.lo (places self.now.runs self.now.lo) a
            ≡ entry_in self.now.pairs a }
        ensures inside { AllByRecursion (IsPaged result.now self.now.lo)
            (places self.now.runs self.now.lo) }
    {
        self.bytes.as_slice()
    }

    /// The bytes of the table, as `bytes` gives them.
    pub fn into_bytes(self) -> Bytes
        ensures { result ≡ table_bytes self.entry.runs self.entry.pairs self.entry.lo }
    {
        Bytes::new(self.bytes)
    }
}

/// How many pages of its own a group has.
fn page_count(sites: &[u32], group: Group) -> u32
    requires { Ascend 0 sites.now }
    ensures { result ≡ (if has_site_of sites.now group then 1 else 0) }
{
    if has_site(sites, group) { 1 } else { 0 }
}

/// How many bytes a run's directory and its pages have.
fn run_len(run: &Run, sites: &[u32]) -> u32
    requires ascend { Ascend 0 sites.now }
    requires ends { run.now.lo + length run.now.bytes ≤ 0xFFFFF000 }
    requires small { length run.now.bytes ≤ 16777216 }
    ensures { result ≡ 4 * length (groups_in run.now)
        + 4096 * count_by (has_site_of sites.now) (groups_in run.now) }
{
    let mut pages = 0;
    let count = group_count(run);
    for number in 0..count {
        pages += page_count(sites, group_at(run, number));
    }
    4 * count + PAGE_LEN * pages
}

/// How many bytes the table of runs has for sites that strictly ascend.
pub fn table_len(runs: &[Run], sites: &[u32]) -> u32
    requires runs { AreRuns runs.now }
    requires ascend { Ascend 0 sites.now }
    ensures { result ≡ table_size runs.now sites.now }
{
    let mut len = PAGE_LEN;
    for run in runs {
        len += run_len(run, sites);
    }
    len
}

/// The addresses of the directories of runs, which stand one behind the other from `first` on.
fn dirs_of(alloc: Global, runs: &[Run], first: u32) -> Result<Vec<u32>, NoMemory>
    requires apart { AreApart 0 runs.now }
    requires room { first + 4 * length (groups_of runs.now) < 2 ^ 32 }
    ensures { IfOk result (λ dirs. dirs.items ≡ map (λ r. r.dir) (places_from first runs.now)) }
{
    let mut dirs = Vec::with_capacity(alloc, runs.len())?;
    let mut dir = first;
    for run in runs {
        dirs.push(dir)?;
        dir += 4 * group_count(run);
    }
    Ok(dirs)
}

/// The bytes of the table of pairs.
fn bytes_of(alloc: Global, runs: &[Run], pairs: &[(u32, u32)], lo: u32) -> Result<Vec<u8>, NoMemory>
    requires { IsMade (record { runs = runs.now; pairs = pairs.now; lo = lo }) }
    ensures { IfOk result (λ bytes. bytes.items ≡ table_bytes runs.now pairs.now lo) }
{
    let groups = groups(alloc, runs)?;
    let first = lo + PAGE_LEN + 4 * groups.len() as u32;
    let mut bytes = Vec::new(alloc);
    put_zeros(GROUP_LEN, &mut bytes)?;
    put_directories(pairs, lo, first, &groups, &mut bytes)?;
    put_pages(pairs, &groups, &mut bytes)?;
    Ok(bytes)
}
