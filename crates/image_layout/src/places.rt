//! Where the code of sites stands, by its lengths alone.

ghost use Rattle.std.specs.Prelude.{◌≡◌, ℕ, ◌+◌, ◌<◌, ◌≤◌, ◌^◌, length, map, slice_index, IfOk, OnOk, false, ◌++◌};
ghost use Rattle.std.specs.List.{All};
ghost use Rattle.image_layout.specs.Layout.{pairs_by};
ghost use Rattle.image_layout.specs.Parts.{chain_parts, parts, parts_len, placed, place_or, entry};
ghost use Rattle.image_layout.specs.Measuring.{IsMeasured};
ghost use Rattle.image_layout.specs.Pieces.{kinds_at, counter_len as counter_len_of, piece_len as piece_len_of, way_len as way_len_of};
ghost use Rattle.image_layout.specs.Rules.{both};
ghost use Rattle.image_layout.specs.Sites.{AreShort, IsShort, AreBelow};

use branch_lengthen::near_len;
use call_rewrite::far_len;
use counter_hooks::{Hooks, Question, counter_len};
use edge_hooks::{EdgeHooks, edge_len};
use elf32_write::Pairs;
use mv_base::{Addrs, Bytes, NoMemory};
use sequence_join::{Chain, ChainList};
use std::alloc::Global;
use superset::Site;
use x86_insn::Flow;

/// How many bytes a join has.
const JOIN_LEN: u32 = 5;

/// What is known of sites before they have places: their addresses, how many bytes the code of each has, how many counters
/// stand before each one's own, and the counters.
#[derive(Drop)]
pub struct Measured {
    pub addresses: Addrs,
    pub lens: Bytes,
    pub ranks: Addrs,
    pub counted: Pairs,
}

/// What is known of sites before they have places. It asks both hooks once a site.
///
/// # Errors
///
/// `NoMemory`.
pub fn measure<F: Question, G: Question>(
    alloc: Global,
    sites: &[Site],
    hooks: &Hooks<F>,
    edges: &EdgeHooks<G>,
) -> Result<Measured, NoMemory>
    requires short { AreShort sites.now }
    requires few { length sites.now ≤ 16777216 }
    ensures { IfOk result (IsMeasured (both hooks.now edges.now) sites.now) }
{
    let mut addresses = Vec::with_capacity(alloc, sites.len())?;
    let mut lens = Vec::with_capacity(alloc, sites.len())?;
    let mut ranks = Vec::with_capacity(alloc, sites.len())?;
    let mut counted = Vec::new(alloc);
    for site in sites {
        let is_counted = hooks.asks(site);
        let has_ways = edges.asks(site);
        addresses.push(site.at)?;
        lens.push(site_len(site, is_counted, has_ways))?;
        ranks.push(counted.len() as u32)?;
        push_counters(&mut counted, site.at, is_counted, has_ways)?;
    }
    Ok(Measured {
        addresses: Addrs::new(addresses),
        lens: Bytes::new(lens),
        ranks: Addrs::new(ranks),
        counted: Pairs::new(counted),
    })
}

/// Appends the counters of a site: that of all executions, if it is counted, and those of its ways, if it has these.
fn push_counters(
    counted: &mut Vec<(u32, u8)>,
    address: u32,
    is_counted: bool,
    has_ways: bool,
) -> Result<(), NoMemory>
    ensures { OnOk result (counted.new.items ≡ counted.old.items
        ++ kinds_at address is_counted has_ways) }
{
    if !is_counted {
        return push_ways(counted, address, has_ways);
    }
    counted.push((address, 0))?;
    push_ways(counted, address, has_ways)
}

/// Appends the counters of a site's ways, if it has these: taken, and then passed.
fn push_ways(counted: &mut Vec<(u32, u8)>, address: u32, has_ways: bool) -> Result<(), NoMemory>
    ensures { OnOk result (counted.new.items ≡ counted.old.items
        ++ kinds_at address false has_ways) }
{
    if !has_ways {
        return Ok(());
    }
    counted.push((address, 1))?;
    counted.push((address, 2))?;
    Ok(())
}

/// How many bytes the code of a site has, where it is counted or not, and its ways are or not.
fn site_len(site: &Site, is_counted: bool, has_ways: bool) -> u8
    requires { IsShort site.now }
    ensures { result ≡ counter_len_of is_counted + way_len_of has_ways site.now }
{
    let piece = way_len(site, has_ways);
    if is_counted {
        counter_len() as u8 + piece
    } else {
        piece
    }
}

/// How many bytes the piece of a site has, with counters on its ways or without.
fn way_len(site: &Site, has_ways: bool) -> u8
    requires { IsShort site.now }
    ensures is { result ≡ way_len_of has_ways site.now }
    ensures few { result ≤ 105 }
{
    if has_ways {
        edge_len(site) as u8
    } else {
        piece_len(site)
    }
}

/// How many bytes the piece of a site has.
fn piece_len(site: &Site) -> u8
    requires { IsShort site.now }
    ensures is { result ≡ piece_len_of site.now }
    ensures few { result ≤ 33 }
{
    match site.insn.next_kind() {
        Flow::Plain | Flow::System | Flow::Trap => site.len,
        Flow::Jump => near_len(site) as u8,
        Flow::Branch => near_len(site) as u8,
        Flow::Count => near_len(site) as u8,
        Flow::Call => far_len(site) as u8,
        Flow::JumpVia => far_len(site) as u8,
        Flow::CallVia => far_len(site) as u8,
        Flow::Return => far_len(site) as u8,
    }
}

/// How many bytes chains have, by the lengths of the sites' code.
pub fn chains_len(chains: &ChainList, lens: &[u8]) -> u64
    requires below { AreBelow (length lens.now) chains.now }
    requires room { parts_len lens.now (parts chains.now) < 2 ^ 32 }
    ensures { result ≡ parts_len lens.now (parts chains.now) }
{
    let mut len = 0;
    for number in 0..chains.len() {
        len += chain_len(&chains.get(number), lens);
    }
    len
}

/// How many bytes a chain has.
fn chain_len(chain: &Chain<'_>, lens: &[u8]) -> u64
    requires below { All (λ k. k < length lens.now) chain.now.links }
    requires room { parts_len lens.now (chain_parts chain.now) < 2 ^ 32 }
    ensures { result ≡ parts_len lens.now (chain_parts chain.now) }
{
    let mut len = 0;
    for link in chain.links() {
        len += u64::from(lens[*link as usize]);
    }
    match chain.next() {
        Some(_) => len + u64::from(JOIN_LEN),
        None => len,
    }
}

/// The entries of all sites, by their indexes, where the chains begin at `first`; 0 for a site that is in no chain.
///
/// # Errors
///
/// `NoMemory`.
pub fn entries(
    alloc: Global,
    chains: &ChainList,
    lens: &[u8],
    first: u32,
) -> Result<Vec<u32>, NoMemory>
    requires below { AreBelow (length lens.now) chains.now }
    requires room { first + parts_len lens.now (parts chains.now) < 2 ^ 32 }
    ensures count { IfOk result (λ found. length found.items ≡ length lens.now) }
    ensures are { IfOk result (λ found. (k : ℕ) →
        slice_index found.items k ≡ entry lens.now first (parts chains.now) k) }
{
    let mut entries = vec![in alloc; 0; lens.len()]?;
    let mut here = first;
    for number in 0..chains.len() {
        here = place_chain(&chains.get(number), lens, here, &mut entries);
    }
    Ok(entries)
}

/// Gives the sites of a chain that begins at `from` their entries, and answers where it ends.
fn place_chain(chain: &Chain<'_>, lens: &[u8], from: u32, entries: &mut [u32]) -> u32
    requires below { All (λ k. k < length lens.now) chain.now.links }
    requires count { length entries.old ≡ length lens.now }
    requires room { from + parts_len lens.now (chain_parts chain.now) < 2 ^ 32 }
    ensures end { result ≡ from + parts_len lens.now (chain_parts chain.now) }
    ensures are { (k : ℕ) → slice_index entries.new k
        ≡ place_or (slice_index entries.old k) (placed lens.now from (chain_parts chain.now)) k }
{
    let mut here = from;
    for link in chain.links() {
        entries[*link as usize] = here;
        here += u32::from(lens[*link as usize]);
    }
    match chain.next() {
        Some(_) => here + JOIN_LEN,
        None => here,
    }
}

/// Each site's address with its entry.
///
/// # Errors
///
/// `NoMemory`.
pub fn pairs(
    alloc: Global,
    _sites: &[Site],
    addresses: &[u32],
    entries: &[u32],
) -> Result<Vec<(u32, u32)>, NoMemory>
    requires addresses { addresses.now ≡ map (λ s. s.at) _sites.now }
    requires entries { length addresses.now ≤ length entries.now }
    ensures { IfOk result (λ pairs. pairs.items
        ≡ pairs_by (λ k. slice_index entries.now k) 0 _sites.now) }
{
    let mut pairs = Vec::with_capacity(alloc, addresses.len())?;
    for (index, address) in addresses.iter().enumerate() {
        pairs.push((*address, entries[index]))?;
    }
    Ok(pairs)
}
