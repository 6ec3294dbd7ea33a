//! Edge rules: which branches and loops are counted by the way that they go.

ghost use Rattle.std.specs.Prelude.{◌≡◌, IfOk};
ghost use Rattle.x86_insn.specs.Flow.{flow_of};
ghost use Rattle.counter_hooks.specs.Rules.{is_branch as branches};
ghost use Rattle.edge_hooks.specs.Rules.{edge_picked as is_picked, number_of, EdgesAscend};

use counter_hooks::is_listed;
use mv_base::{Addrs, NoMemory};
use std::alloc::Global;
use superset::Site;
use x86_insn::Flow;

/// Which branches and loops are counted by the way that they go: none, all, or those at listed addresses.
#[derive(Debug, Drop)]
pub enum EdgeRule {
    None,
    All,
    At(Addrs),
}

impl EdgeRule {
    /// The same rule once more. The error is want of memory.
    pub fn copied(&self, alloc: Global) -> Result<EdgeRule, NoMemory>
        ensures { IfOk result (λ rule. rule ≡ self.now) }
    {
        Ok(match self {
            EdgeRule::None => EdgeRule::None,
            EdgeRule::All => EdgeRule::All,
            EdgeRule::At(addresses) => {
                EdgeRule::At(Addrs::new(addresses.as_slice().to_vec(alloc)?))
            }
        })
    }
}

/// The number of an edge rule: 0 for none, 1 for all, 6 for listed addresses, as a rule of sites has them. This project's
/// own.
pub fn edge_number(rule: &EdgeRule) -> u8
    ensures { result ≡ number_of rule.now }
{
    match rule {
        EdgeRule::None => 0,
        EdgeRule::All => 1,
        EdgeRule::At(_) => 6,
    }
}

/// Whether an edge rule picks a site: only a branch on a condition, LOOP and its kin or JECXZ. The addresses of a list
/// strictly ascend.
pub fn edge_picked(rule: &EdgeRule, site: &Site) -> bool
    requires { EdgesAscend rule.now }
    ensures { result ≡ is_picked rule.now site.now }
{
    match rule {
        EdgeRule::None => false,
        EdgeRule::All => is_branch(site),
        EdgeRule::At(addresses) => is_branch(site) && is_listed(addresses, site.at),
    }
}

// Whether an instruction goes one of two ways.
fn is_branch(site: &Site) -> bool
    ensures { result ≡ branches (flow_of site.now.insn) }
{
    matches!(site.insn.next_kind(), Flow::Branch | Flow::Count)
}
