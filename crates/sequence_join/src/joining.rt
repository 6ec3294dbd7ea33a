//! Putting sites into chains.

ghost use Rattle.std.specs.Prelude.{◌≡◌, ℕ, ◌+◌, ◌^◌, ◌<◌, ◌++◌, [], length, drop, IfOk, OnOk, IfSome};
ghost use Rattle.std.specs.List.{AllByRecursion};
ghost use Rattle.superset.specs.Sites.{Ascend, EndsLow};
ghost use Rattle.sequence_join.specs.Chains.{after as after_of, with_links, rest, chains_of, order};
ghost use Rattle.sequence_join.specs.Chains.{EachOnce, IsLinked, AreGreedy};
ghost use Rattle.sequence_join.specs.Walking.{is_taken, chain_at, chain_by, IsSpanOf};

use crate::chain::{ChainList, Span};
use mv_base::NoMemory;
use std::alloc::Global;
use superset::{Site, successor};

/// The sites in chains. In ascending order of address a chain starts at each site not yet in one. It goes on to the
/// successor until that is in a chain, is no site, or the flow doesn't fall through. The sites strictly ascend, and each
/// ends at most at 0xFFFFF000. The work is linear in the number of sites.
///
/// # Errors
///
/// `NoMemory`.
pub fn chains(alloc: Global, sites: &[Site]) -> Result<ChainList, NoMemory>
    requires ascend { Ascend 0 sites.now }
    requires ends { AllByRecursion EndsLow sites.now }
    ensures exact { IfOk result (λ made. made ≡ chains_of sites.now) }
    ensures once { IfOk result (λ made. EachOnce (length sites.now) (order made)) }
    ensures linked { IfOk result (λ made. AllByRecursion (IsLinked sites.now) made) }
    ensures greedy { IfOk result (λ made. AreGreedy sites.now [] made) }
{
    let mut taken = vec![in alloc; false; sites.len()]?;
    let mut links = Vec::with_capacity(alloc, sites.len())?;
    let mut spans = Vec::new(alloc);
    for first in 0..sites.len() {
        if !taken[first] {
            spans.push(put_chain(sites, &mut taken, first, &mut links)?)?;
        }
    }
    Ok(ChainList::new(links, spans))
}

/// Appends the links of the chain that starts at the site of an index, and marks them as taken. The answer says where they
/// stand among all links, and where the chain goes on.
fn put_chain(
    sites: &[Site],
    taken: &mut [bool],
    first: usize,
    links: &mut Vec<u32>,
) -> Result<Span, NoMemory>
    requires ascend { Ascend 0 sites.now }
    requires few { length sites.now < 2 ^ 32 }
    requires marks { length taken.old ≡ length sites.now }
    requires first { first < length sites.now }
    ensures links { OnOk result (links.new.items ≡ links.old.items
        ++ (chain_at (is_taken taken.old) sites.now first).links) }
    ensures span { IfOk result
        (IsSpanOf (length links.old.items) (chain_at (is_taken taken.old) sites.now first)) }
    ensures marked { OnOk result ((k : ℕ) → is_taken taken.new k
        ≡ with_links (is_taken taken.old) (chain_at (is_taken taken.old) sites.now first) k) }
{
    let from = links.len();
    let mut here = first;
    loop {
        links.push(here as u32)?;
        taken[here] = true;
        let next = after(&sites[here]);
        match follower(sites, taken, here, next) {
            Some(index) => here = index,
            None => {
                return Ok(Span {
                    from,
                    len: links.len() - from,
                    next,
                });
            }
        }
    }
}

/// The index of the site at an address, among those behind the site of an index, where it isn't taken.
fn follower(sites: &[Site], taken: &[bool], here: usize, address: Option<u32>) -> Option<usize>
    requires ascend { Ascend 0 sites.now }
    requires marks { length taken.now ≡ length sites.now }
    requires here { here < length sites.now }
    ensures next { rest (is_taken taken.now) address (here + 1) (drop (here + 1) sites.now)
        ≡ chain_by (is_taken taken.now) sites.now address result }
    ensures behind { IfSome result (λ k. (here < k) × (k < length sites.now)) }
{
    let address = address?;
    for index in here + 1..sites.len() {
        let at = sites[index].at;
        if at == address {
            return (!taken[index]).then_some(index);
        }
        if at > address {
            return None;
        }
    }
    None
}

/// The address at which a site's flow goes on by itself, where it does: the successor.
fn after(site: &Site) -> Option<u32>
    ensures { result ≡ after_of site.now }
{
    site.insn.next_kind().falls().then(|| successor(site))
}
