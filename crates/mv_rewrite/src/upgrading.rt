//! The rules that a frame's counters are of: their numbers, and for listed addresses those that the frame lists.

ghost use Rattle.std.specs.Prelude.{◌≡◌, IfOk};
ghost use Rattle.counter_hooks.specs.Rules.{Ascend, IsAscending};
ghost use Rattle.edge_hooks.specs.Rules.{EdgesAscend};
ghost use Rattle.elf32_write.specs.Frame.{counted};
ghost use Rattle.mv_rewrite.specs.Upgrading.{
  listed as listed_in,
  rule_back,
  edge_rule_back,
  of_kind as of_kind_in,
};

use counter_hooks::Rule;
use edge_hooks::EdgeRule;
use elf32_write::Frame;
use mv_base::{Addrs, NoMemory};
use std::alloc::Global;

/// The rule that the counters of all executions in a frame are of. That of listed addresses has the addresses that the
/// frame lists with kind 0, ascending and each once. The error is want of memory.
#[tactic(auto, unfolding(crate::specs::Upgrading::rule_back))]
pub fn frame_rule(alloc: Global, frame: &Frame<'_>) -> Result<Rule, NoMemory>
    ensures is { IfOk result (λ rule. rule ≡ rule_back frame.now) }
    ensures ascends { IfOk result IsAscending }
{
    Ok(match frame.rule() {
        0 => Rule::None,
        1 => Rule::All,
        2 => Rule::Calls,
        3 => Rule::Returns,
        4 => Rule::Branches,
        5 => Rule::System,
        _ => Rule::At(listed(alloc, frame, 0)?),
    })
}

/// The edge rule that the counters of ways in a frame are of. That of listed addresses has the addresses that the frame
/// lists with kind 1, ascending and each once. The error is want of memory.
#[tactic(auto, unfolding(crate::specs::Upgrading::edge_rule_back))]
pub fn frame_edge_rule(alloc: Global, frame: &Frame<'_>) -> Result<EdgeRule, NoMemory>
    ensures is { IfOk result (λ rule. rule ≡ edge_rule_back frame.now) }
    ensures ascends { IfOk result EdgesAscend }
{
    Ok(match frame.edge_rule() {
        0 => EdgeRule::None,
        1 => EdgeRule::All,
        _ => EdgeRule::At(listed(alloc, frame, 1)?),
    })
}

/// The addresses that a frame lists with a kind, ascending and each once.
fn listed(alloc: Global, frame: &Frame<'_>, kind: u8) -> Result<Addrs, NoMemory>
    ensures is { IfOk result (λ list. list ≡ listed_in kind frame.now) }
    ensures ascends { IfOk result Ascend }
{
    let mut addresses = of_kind(alloc, frame, kind)?;
    addresses.sort_unstable();
    addresses.dedup();
    Ok(Addrs::new(addresses))
}

/// The addresses that a frame lists with a kind, in the list's order.
fn of_kind(alloc: Global, frame: &Frame<'_>, kind: u8) -> Result<Vec<u32>, NoMemory>
    ensures { IfOk result (λ list. list.items ≡ of_kind_in kind (counted frame.now)) }
{
    let mut addresses = Vec::new(alloc);
    for index in 0..frame.counter_count() {
        let is_kind = frame.kind_at(index) == kind;
        if is_kind {
            addresses.push(frame.counted_at(index))?;
        }
    }
    Ok(addresses)
}
