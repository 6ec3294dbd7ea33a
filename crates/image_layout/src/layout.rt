//! The layout of the added block: where it lies, and what is where in it.

ghost use Rattle.std.specs.Prelude.{◌≡◌, ◌+◌, ◌*◌, ◌^◌, ◌<◌, ◌≤◌, length, map, None, Some, IfOk};
ghost use Rattle.std.specs.List.{AllByRecursion};
ghost use Rattle.elf32_read.specs.Runs.{code_of, AreApart};
ghost use Rattle.elf32_write.specs.Format.{up as up_of};
ghost use Rattle.elf32_write.specs.Frame.{AscendPairs};
ghost use Rattle.map_table.specs.Paged.{places as places_of, AreRuns};
ghost use Rattle.lookup_stub.specs.Stub.{stub_size};
ghost use Rattle.counter_hooks.specs.Rules.{Tells};
ghost use Rattle.edge_hooks.specs.declared.rules.EdgeRule.TheVariants as edge_rule;
ghost use Rattle.edge_hooks.specs.Rules.{edge_picked};
ghost use Rattle.superset.specs.Sites.{sites_in};
ghost use Rattle.sequence_join.specs.Chains.{order, EachOnce, IsLinked};
ghost use Rattle.image_layout.specs.Fit.{first_fit as first_fit_of};
ghost use Rattle.image_layout.specs.InPlace.{HasPieces};
ghost use Rattle.image_layout.specs.Laying.{IsLaid, LaysOut};
ghost use Rattle.image_layout.specs.Layout.{size as size_of, pairs_from as pairs_of, moved as moved_of};
ghost use Rattle.image_layout.specs.Parts.{parts, parts_len};
ghost use Rattle.image_layout.specs.Measuring.{IsMeasured};
ghost use Rattle.image_layout.specs.Pieces.{code_lens as code_lens_of};
ghost use Rattle.image_layout.specs.Room.{ArePagesApart};
ghost use Rattle.image_layout.specs.Rules.{alone, both};
ghost use Rattle.image_layout.specs.Sites.{AreShort, AreWhole, AreBelow};

use crate::code::put_chains;
use crate::places::{Measured, chains_len, entries, measure, pairs};
use crate::room::first_fit;
use counter_hooks::{Hooks, Question, rule_number};
use edge_hooks::{EdgeHooks, EdgeRule, edge_number};
use elf32_read::{Image, Run};
use elf32_write::{Plan, RunPlaces};
use lookup_stub::{stub, stub_len};
use map_table::{Table, table_len};
use mv_base::{Bytes, NoMemory, RunPlace};
use sequence_join::ChainList;
use simulation_laws::Anchors;
use std::alloc::Global;
use superset::Site;
use thiserror::Error;

/// How many bytes the private area has without counters.
const PRIVATE_LEN: u64 = 64;

/// How many bytes a counter has.
const COUNTER_ROOM: u64 = 8;

/// How many bytes a counter has in the list behind the table: its address and its kind.
const LISTED_LEN: u64 = 8;

/// Why a file isn't laid out: no place has room for its block, which has this many bytes, or want of memory.
#[derive(Debug, Drop, Error)]
pub enum LayFault {
    #[error("no room: {0}")]
    NoRoom(u64),
    #[error("no memory")]
    NoMemory,
}

impl From<NoMemory> for LayFault {
    ghost use Rattle.std.specs.Prelude.{◌≡◌};
    ghost use Rattle.image_layout.specs.declared.layout.LayFault.TheVariants as fault;

    ghost from_gives = { λ _ e. e ≡ fault.NoMemory };

    fn from(_error: NoMemory) -> LayFault {
        LayFault::NoMemory
    }
}

/// What is added to a file: the block at the lowest place that has room, with the stub, the chains behind it, the table of
/// form 2, the list of the counters of the sites that the hooks count, each with kind 0, and the private area with the
/// counters. `admit` takes the image, and the runs, sites and chains are those of its file. It asks the hooks twice a site:
/// once for lengths, once for bytes. The work is linear in the sites; an address is looked up in the table by a step for
/// each run.
///
/// # Errors
///
/// `NoRoom` with the block's size exactly where no place has room for it; `NoMemory`.
pub fn lay<F: Question>(
    alloc: Global,
    image: &Image,
    runs: &[Run],
    sites: &[Site],
    chains: &ChainList,
    hooks: &Hooks<F>,
) -> Result<Plan, LayFault>
    requires apart { ArePagesApart 0 image.now.segments }
    requires runs { AreRuns runs.now }
    requires sites { sites.now ≡ sites_in (code_of runs.now) runs.now }
    requires once { EachOnce (length sites.now) (order chains.now) }
    requires linked { AllByRecursion (IsLinked sites.now) chains.now }
    ensures laid { LaysOut image.now (alone hooks.now) runs.now sites.now chains.now result }
    ensures in_place { IfOk result (λ plan.
        HasPieces (alone hooks.now) runs.now sites.now chains.now plan) }
    ensures ascends { IfOk result (λ plan. AscendPairs plan.counted) }
{
    lay_alone(alloc, image, runs, sites, chains, hooks, |_: &Site| false)
}

/// The same, with a question that is answered by no at every site.
fn lay_alone<F: Question, G: Question + Drop>(
    alloc: Global,
    image: &Image,
    runs: &[Run],
    sites: &[Site],
    chains: &ChainList,
    hooks: &Hooks<F>,
    ask: G,
) -> Result<Plan, LayFault>
    requires apart { ArePagesApart 0 image.now.segments }
    requires runs { AreRuns runs.now }
    requires sites { sites.now ≡ sites_in (code_of runs.now) runs.now }
    requires once { EachOnce (length sites.now) (order chains.now) }
    requires linked { AllByRecursion (IsLinked sites.now) chains.now }
    requires tells { Tells (G.answers ask) (edge_picked edge_rule.None) }
    ensures laid { LaysOut image.now (alone hooks.now) runs.now sites.now chains.now result }
    ensures in_place { IfOk result (λ plan.
        HasPieces (alone hooks.now) runs.now sites.now chains.now plan) }
    ensures ascends { IfOk result (λ plan. AscendPairs plan.counted) }
{
    let edges = EdgeHooks::new(EdgeRule::None, ask);
    lay_edges(alloc, image, runs, sites, chains, hooks, &edges)
}

/// What is added to a file, as `lay` has it, with the two counters of each branch and loop that the edge hooks count, of
/// kind 1 where it is taken and of kind 2 where it is passed. It asks both hooks twice a site.
///
/// # Errors
///
/// `NoRoom` with the block's size exactly where no place has room for it; `NoMemory`.
pub fn lay_edges<F: Question, G: Question>(
    alloc: Global,
    image: &Image,
    runs: &[Run],
    sites: &[Site],
    chains: &ChainList,
    hooks: &Hooks<F>,
    edges: &EdgeHooks<G>,
) -> Result<Plan, LayFault>
    requires apart { ArePagesApart 0 image.now.segments }
    requires runs { AreRuns runs.now }
    requires sites { sites.now ≡ sites_in (code_of runs.now) runs.now }
    requires once { EachOnce (length sites.now) (order chains.now) }
    requires linked { AllByRecursion (IsLinked sites.now) chains.now }
    ensures laid { LaysOut image.now (both hooks.now edges.now) runs.now sites.now chains.now result }
    ensures in_place { IfOk result (λ plan.
        HasPieces (both hooks.now edges.now) runs.now sites.now chains.now plan) }
    ensures ascends { IfOk result (λ plan. AscendPairs plan.counted) }
{
    let measured = measure(alloc, sites, hooks, edges)?;
    let chains_len = chains_len(chains, measured.lens.as_slice());
    let code_len = stub_len(runs.len()) as u64 + chains_len;
    let counters = measured.counted.len() as u64;
    let table_len = u64::from(table_len(runs, measured.addresses.as_slice()))
        + LISTED_LEN * counters;
    let size = up(code_len) + up(table_len) + up(PRIVATE_LEN + COUNTER_ROOM * counters);
    match first_fit(image, size) {
        Some(base) => {
            let plan = lay_at(
                alloc, image, runs, sites, chains, hooks, edges, measured, chains_len, base,
            )?;
            Ok(plan)
        }
        None => Err(LayFault::NoRoom(size)),
    }
}

/// A number raised to a multiple of 4,096.
fn up(n: u64) -> u64
    requires { n ≤ 2 ^ 33 }
    ensures { result ≡ up_of n }
{
    (n + 4095) / 4096 * 4096
}

/// The runs with the addresses of their directories.
fn run_places(
    alloc: Global,
    runs: &[Run],
    dirs: &[u32],
    _lo: u32,
) -> Result<Vec<RunPlace>, NoMemory>
    requires apart { AreApart 0 runs.now }
    requires dirs_are { dirs.now ≡ map (λ r. r.dir) (places_of runs.now _lo) }
    ensures { IfOk result (λ places. places.items ≡ places_of runs.now _lo) }
{
    let mut places = Vec::with_capacity(alloc, runs.len())?;
    for (index, run) in runs.iter().enumerate() {
        places.push(RunPlace {
            lo: run.lo,
            len: run.bytes.len() as u32,
            dir: dirs[index],
        })?;
    }
    Ok(places)
}

/// Where an address goes by a table: its new address, or itself where it has none.
pub fn moved(table: &Table<'_>, address: u32) -> u32
    ensures { result ≡ moved_of table.now.pairs address }
{
    let entry = table.entry(address).unwrap_or(0);
    if entry == 0 { address } else { entry }
}

/// Each site's address with its entry, where the chains begin at `first`.
fn entry_pairs<F: Question, G: Question>(
    alloc: Global,
    _sites: &[Site],
    addresses: &[u32],
    chains: &ChainList,
    _hooks: &Hooks<F>,
    _edges: &EdgeHooks<G>,
    lens: &[u8],
    first: u32,
) -> Result<Vec<(u32, u32)>, NoMemory>
    requires addresses_are { addresses.now ≡ map (λ s. s.at) _sites.now }
    requires lens_are { lens.now ≡ code_lens_of (both _hooks.now _edges.now) _sites.now }
    requires below { AreBelow (length _sites.now) chains.now }
    requires room { first + parts_len lens.now (parts chains.now) < 2 ^ 32 }
    ensures { IfOk result (λ found.
        found.items ≡ pairs_of (both _hooks.now _edges.now) _sites.now chains.now first) }
{
    let entries = entries(alloc, chains, lens, first)?;
    pairs(alloc, _sites, addresses, &entries)
}

/// What is added to a file, where the block lies at `base`.
fn lay_at<F: Question, G: Question>(
    alloc: Global,
    image: &Image,
    runs: &[Run],
    sites: &[Site],
    chains: &ChainList,
    hooks: &Hooks<F>,
    edges: &EdgeHooks<G>,
    measured: Measured,
    chains_len: u64,
    base: u32,
) -> Result<Plan, NoMemory>
    requires runs { AreRuns runs.now }
    requires sites { sites.now ≡ sites_in (code_of runs.now) runs.now }
    requires once { EachOnce (length sites.now) (order chains.now) }
    requires linked { AllByRecursion (IsLinked sites.now) chains.now }
    requires measured { IsMeasured (both hooks.now edges.now) sites.now measured }
    requires chains_len { chains_len ≡ parts_len measured.lens (parts chains.now) }
    requires base_is { first_fit_of image.now.segments
        (size_of (both hooks.now edges.now) runs.now sites.now chains.now) ≡ Some base }
    ensures laid { IfOk result (λ plan.
        IsLaid image.now (both hooks.now edges.now) runs.now sites.now chains.now plan) }
    ensures in_place { IfOk result (λ plan.
        HasPieces (both hooks.now edges.now) runs.now sites.now chains.now plan) }
{
    let Measured {
        addresses,
        lens,
        ranks,
        counted,
    } = measured;
    let stub_len = stub_len(runs.len());
    let first = base + stub_len as u32;
    let (at, lens) = (addresses.as_slice(), lens.as_slice());
    let pairs = entry_pairs(alloc, sites, at, chains, hooks, edges, lens, first)?;
    let lo = base + up(stub_len as u64 + chains_len) as u32;
    let table = Table::build(alloc, runs, &pairs, lo)?;
    let run_places = run_places(alloc, runs, table.dirs(), lo)?;
    let table_len = table.bytes().len() as u64 + LISTED_LEN * counted.len() as u64;
    let anchors = Anchors {
        stub: base,
        private: lo + up(table_len) as u32,
    };
    let mut code = stub(alloc, &run_places, anchors.private)?;
    code.reserve(chains_len as usize)?;
    put_chains(
        runs,
        &table,
        sites,
        chains,
        hooks,
        edges,
        ranks.as_slice(),
        anchors,
        &mut code,
    )?;
    let entry = moved(&table, image.entry);
    Ok(Plan {
        base,
        code: Bytes::new(code),
        table: table.into_bytes(),
        counted,
        runs: RunPlaces::new(run_places),
        entry,
        rule: rule_number(hooks.rule()),
        edge_rule: edge_number(edges.rule()),
    })
}
