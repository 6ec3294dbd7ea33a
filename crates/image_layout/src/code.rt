//! The bytes of chains: counters, pieces and joins, each for the address at which it comes to stand.

ghost use Rattle.std.specs.Prelude.{◌≡◌, true, ◌+◌, ◌*◌, ◌^◌, ◌<◌, ◌≤◌, ◌++◌, ◌-◌, ◌⊎◌, length, drop, map, Some, None, IfOk, OnOk, IfSome, IfNone, if◌then◌else◌};
ghost use Rattle.std.specs.List.{All};
ghost use Rattle.std.specs.Option.{ForSome};
ghost use Rattle.mv_base.specs.Memory.{exec_bytes};
ghost use Rattle.elf32_read.specs.Runs.{code_of, AreApart};
ghost use Rattle.map_table.specs.Pairs.{Ascend};
ghost use Rattle.x86_insn.specs.Flow.{flow_of};
ghost use Rattle.step_laws.specs.Jumps.{jump_bytes};
ghost use Rattle.counter_hooks.specs.Rules.{is_branch, picked};
ghost use Rattle.edge_hooks.specs.Rules.{edge_picked};
ghost use Rattle.superset.specs.Targets.{target as target_of};
ghost use Rattle.simulation_laws.specs.Pieces.{counter_code, counted_piece, piece_with};
ghost use Rattle.image_layout.specs.Layout.{moved as moved_of};
ghost use Rattle.image_layout.specs.Measuring.{AreRanks};
ghost use Rattle.image_layout.specs.Parts.{chain_parts, parts, parts_len, placed};
ghost use Rattle.image_layout.specs.Rules.{both};
ghost use Rattle.image_layout.specs.Pieces.{all_place, is_direct, is_own, counters, code_lens, part_bytes, bytes_of, chain_code, ways_place};
ghost use Rattle.image_layout.specs.Sites.{AreShort, AreWhole, AreBelow, IsShort, IsWhole};

use crate::layout::moved;
use branch_lengthen::pieces::near_jump;
use counter_hooks::{Hooks, Question, counter_piece};
use edge_hooks::EdgeHooks;
use elf32_read::Run;
use map_table::Table;
use mv_base::NoMemory;
use sequence_join::{Chain, ChainList};
use simulation_laws::{Anchors, Ways, site_piece};
use std::alloc::Global;
use superset::{Site, target};
use x86_insn::Flow;

/// How many bytes of the private area stand before the counters.
const FIRST_COUNTER: u32 = 64;

/// How many bytes a counter has.
const COUNTER_ROOM: u32 = 8;

/// Appends the chains of sites to code whose first byte stands at `anchors.stub`. The bytes of the sites are those of the
/// runs, and the table says where an address now is. It asks both hooks once a site, and `ranks` says how many counters
/// stand before each site's own.
///
/// # Errors
///
/// `NoMemory`.
pub fn put_chains<F: Question, G: Question>(
    runs: &[Run],
    table: &Table<'_>,
    sites: &[Site],
    chains: &ChainList,
    hooks: &Hooks<F>,
    edges: &EdgeHooks<G>,
    ranks: &[u32],
    anchors: Anchors,
    code: &mut Vec<u8>,
) -> Result<(), NoMemory>
    requires apart { AreApart 0 runs.now }
    requires short { AreShort sites.now }
    requires whole { AreWhole (code_of runs.now) sites.now }
    requires ascend { Ascend 0 (map (λ s. s.at) sites.now) }
    requires below { AreBelow (length sites.now) chains.now }
    requires ranks { AreRanks (both hooks.now edges.now) sites.now ranks.now }
    requires counters { anchors.private + 64 + 24 * length sites.now < 2 ^ 32 }
    requires room { anchors.stub + length code.old.items
        + parts_len (code_lens (both hooks.now edges.now) sites.now) (parts chains.now) < 2 ^ 32 }
    ensures { OnOk result (code.new.items ≡ code.old.items
        ++ chain_code (both hooks.now edges.now) anchors (moved_of table.now.pairs)
        (code_of runs.now) sites.now (anchors.stub + length code.old.items) chains.now) }
{
    for number in 0..chains.len() {
        let chain = chains.get(number);
        put_chain(
            runs, table, sites, &chain, hooks, edges, ranks, anchors, code,
        )?;
    }
    Ok(())
}

/// Appends a chain of sites.
fn put_chain<F: Question, G: Question>(
    runs: &[Run],
    table: &Table<'_>,
    sites: &[Site],
    chain: &Chain<'_>,
    hooks: &Hooks<F>,
    edges: &EdgeHooks<G>,
    ranks: &[u32],
    anchors: Anchors,
    code: &mut Vec<u8>,
) -> Result<(), NoMemory>
    requires apart { AreApart 0 runs.now }
    requires short { AreShort sites.now }
    requires whole { AreWhole (code_of runs.now) sites.now }
    requires ascend { Ascend 0 (map (λ s. s.at) sites.now) }
    requires below { All (λ k. k < length sites.now) chain.now.links }
    requires ranks { AreRanks (both hooks.now edges.now) sites.now ranks.now }
    requires counters { anchors.private + 64 + 24 * length sites.now < 2 ^ 32 }
    requires room { anchors.stub + length code.old.items
        + parts_len (code_lens (both hooks.now edges.now) sites.now) (chain_parts chain.now) < 2 ^ 32 }
    ensures { OnOk result (code.new.items ≡ code.old.items
        ++ bytes_of (part_bytes anchors (moved_of table.now.pairs) (code_of runs.now)
        (counters (both hooks.now edges.now) anchors sites.now) sites.now)
        (placed (code_lens (both hooks.now edges.now) sites.now) (anchors.stub + length code.old.items)
        (chain_parts chain.now))) }
{
    for link in chain.links() {
        let index = *link as usize;
        let site = &sites[index];
        let places = places_of(hooks, edges, site, ranks[index], anchors.private);
        let here = anchors.stub + code.len() as u32;
        put_site(runs, table, site, places, anchors, here, code)?;
    }
    match chain.next() {
        Some(next) => put_join(table, next, anchors, code),
        None => Ok(()),
    }
}

/// Where the counters of a site are: that of all executions, and those of its two ways.
#[derive(Clone, Copy, Drop)]
struct Places {
    all: Option<u32>,
    ways: Option<Ways>,
}

/// Where the counters of a site are that has so many counters before its own.
fn places_of<F: Question, G: Question>(
    hooks: &Hooks<F>,
    edges: &EdgeHooks<G>,
    site: &Site,
    rank: u32,
    private: u32,
) -> Places
    requires { private + 64 + 8 * (rank + 3) < 2 ^ 32 }
    ensures all { result.all ≡ all_place (private + 64 + 8 * rank) (picked hooks.now site.now) }
    ensures ways { result.ways ≡ ways_place (private + 64 + 8 * rank)
        (picked hooks.now site.now) (edge_picked edges.now site.now) }
{
    let first = private + FIRST_COUNTER + COUNTER_ROOM * rank;
    let is_counted = hooks.asks(site);
    Places {
        all: if is_counted { Some(first) } else { None },
        ways: places_of_ways(first, is_counted, edges.asks(site)),
    }
}

/// Where the counters of a site's ways are, behind that of all executions, if it has one.
fn places_of_ways(first: u32, is_counted: bool, has_ways: bool) -> Option<Ways>
    requires { first + 16 < 2 ^ 32 }
    ensures { result ≡ ways_place first is_counted has_ways }
{
    if !has_ways {
        return None;
    }
    let taken = if is_counted {
        first + COUNTER_ROOM
    } else {
        first
    };
    let passed = taken + COUNTER_ROOM;
    Some(Ways { taken, passed })
}

/// Appends a join to where an address now is.
fn put_join(
    table: &Table<'_>,
    to: u32,
    anchors: Anchors,
    code: &mut Vec<u8>,
) -> Result<(), NoMemory>
    requires { anchors.stub + length code.old.items + 5 < 2 ^ 32 }
    ensures { OnOk result (code.new.items ≡ code.old.items
        ++ jump_bytes (anchors.stub + length code.old.items) (moved_of table.now.pairs to)) }
{
    let here = anchors.stub + code.len() as u32;
    code.extend_from_slice(&near_jump(here, moved(table, to)))?;
    Ok(())
}

/// Appends the code of a site that stands at `here`: its counter, where it has one, and its piece, with a counter on each
/// way, where its ways have counters.
fn put_site(
    runs: &[Run],
    table: &Table<'_>,
    site: &Site,
    places: Places,
    anchors: Anchors,
    here: u32,
    code: &mut Vec<u8>,
) -> Result<(), NoMemory>
    requires apart { AreApart 0 runs.now }
    requires short { IsShort site.now }
    requires whole { IsWhole (code_of runs.now) site.now }
    requires branches { ForSome places.ways (λ w. is_branch (flow_of site.now.insn) ≡ true) }
    requires room { here + length (counter_code anchors places.all) < 2 ^ 32 }
    ensures { OnOk result (code.new.items ≡ code.old.items
        ++ counted_piece anchors (moved_of table.now.pairs) (code_of runs.now)
        places.all places.ways here site.now) }
{
    let Places { all, ways } = places;
    match all {
        Some(counter) => {
            let front = counter_piece(anchors.private, counter);
            code.extend_from_slice(front.as_slice())?;
            let here = here + front.len() as u32;
            put_piece(runs, table, site, ways, anchors, here, code)
        }
        None => put_piece(runs, table, site, ways, anchors, here, code),
    }
}

/// Appends the piece of a site that stands at `here`, with counters on its ways where these have some. The bytes of an instruction that is copied go straight to the code.
fn put_piece(
    runs: &[Run],
    table: &Table<'_>,
    site: &Site,
    ways: Option<Ways>,
    anchors: Anchors,
    here: u32,
    code: &mut Vec<u8>,
) -> Result<(), NoMemory>
    requires apart { AreApart 0 runs.now }
    requires short { IsShort site.now }
    requires whole { IsWhole (code_of runs.now) site.now }
    requires branches { ForSome ways (λ w. is_branch (flow_of site.now.insn) ≡ true) }
    ensures { OnOk result (code.new.items ≡ code.old.items
        ++ piece_with anchors (moved_of table.now.pairs) (code_of runs.now) ways here site.now) }
{
    let own = bytes_from(runs, site.at, usize::from(site.len));
    if is_copied(site) {
        code.extend_from_slice(own)?;
        return Ok(());
    }
    let piece = site_piece(own, site, anchors, ways, here, target_place(table, site));
    code.extend_from_slice(piece.as_slice())?;
    Ok(())
}

/// Whether the piece of a site is its instruction's own bytes.
fn is_copied(site: &Site) -> bool
    ensures { result ≡ is_own (flow_of site.now.insn) }
{
    match site.insn.next_kind() {
        Flow::Plain | Flow::System | Flow::Trap => true,
        Flow::Jump | Flow::Branch | Flow::Count | Flow::Call => false,
        Flow::JumpVia | Flow::CallVia | Flow::Return => false,
    }
}

/// Where the target of a direct transfer now is; 0 for any other instruction, for which no address is looked up.
fn target_place(table: &Table<'_>, site: &Site) -> u32
    ensures { result ≡ (if is_direct (flow_of site.now.insn)
        then moved_of table.now.pairs (target_of site.now) else 0) }
{
    match site.insn.next_kind() {
        Flow::Jump | Flow::Branch | Flow::Count | Flow::Call => moved(table, target(site)),
        Flow::Plain | Flow::System | Flow::Trap => 0,
        Flow::JumpVia | Flow::CallVia | Flow::Return => 0,
    }
}

/// At most `len` bytes that the runs have from an address on.
fn bytes_from<'a>(runs: &'a [Run], at: u32, len: usize) -> &'a [u8]
    requires { AreApart 0 runs.now }
    ensures { result.now ≡ exec_bytes (code_of runs.now) at len }
{
    for run in runs {
        if let Some(rest) = tail_from(run, at) {
            return &rest[..len.min(rest.len())];
        }
    }
    &[]
}

/// The bytes of a run from an address on; `None` where the address isn't the run's.
fn tail_from<'a>(run: &'a Run, at: u32) -> Option<&'a [u8]>
    ensures found { IfSome result (λ rest. (run.now.lo ≤ at)
        × (at < run.now.lo + length run.now.bytes)
        × (rest.now ≡ drop (at - run.now.lo) run.now.bytes)) }
    ensures missing { IfNone result ((at < run.now.lo) ⊎ (run.now.lo + length run.now.bytes ≤ at)) }
{
    if at < run.lo {
        return None;
    }
    let bytes = run.bytes.as_slice();
    let offset = (at - run.lo) as usize;
    if offset < bytes.len() {
        Some(&bytes[offset..])
    } else {
        None
    }
}
