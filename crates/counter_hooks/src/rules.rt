//! Rules: which sites are counted.

ghost use Rattle.std.specs.Prelude.{◌≡◌, ◌==◌, IfOk};
ghost use Rattle.std.specs.List.{list_any};
ghost use Rattle.counter_hooks.specs.Rules.{Ascend, IsAscending, number_of, picked as is_picked};

use mv_base::{Addrs, NoMemory};
use std::alloc::Global;
use superset::Site;
use x86_insn::Flow;

/// Which sites are counted: none, all, those of one kind of flow, or those at listed addresses.
#[derive(Debug, Drop)]
pub enum Rule {
    None,
    All,
    /// Direct calls, and calls through an operand.
    Calls,
    Returns,
    /// Branches on a condition, and LOOP and its kin and JECXZ.
    Branches,
    /// INT 0x80.
    System,
    At(Addrs),
}

impl Rule {
    /// The same rule once more. The error is want of memory.
    pub fn copied(&self, alloc: Global) -> Result<Rule, NoMemory>
        ensures { IfOk result (λ rule. rule ≡ self.now) }
    {
        Ok(match self {
            Rule::None => Rule::None,
            Rule::All => Rule::All,
            Rule::Calls => Rule::Calls,
            Rule::Returns => Rule::Returns,
            Rule::Branches => Rule::Branches,
            Rule::System => Rule::System,
            Rule::At(addresses) => Rule::At(Addrs::new(addresses.as_slice().to_vec(alloc)?)),
        })
    }
}

/// The number of a rule, 0 to 6: none, all, calls, returns, branches, system, listed addresses. This project's own.
pub fn rule_number(rule: &Rule) -> u8
    ensures { result ≡ number_of rule.now }
{
    match rule {
        Rule::None => 0,
        Rule::All => 1,
        Rule::Calls => 2,
        Rule::Returns => 3,
        Rule::Branches => 4,
        Rule::System => 5,
        Rule::At(_) => 6,
    }
}

/// Whether a rule picks a site. The addresses of a list strictly ascend.
pub fn picked(rule: &Rule, site: &Site) -> bool
    requires { IsAscending rule.now }
    ensures { result ≡ is_picked rule.now site.now }
{
    let flow = site.insn.next_kind();
    match rule {
        Rule::None => false,
        Rule::All => true,
        Rule::Calls => matches!(flow, Flow::Call | Flow::CallVia),
        Rule::Returns => matches!(flow, Flow::Return),
        Rule::Branches => matches!(flow, Flow::Branch | Flow::Count),
        Rule::System => matches!(flow, Flow::System),
        Rule::At(addresses) => is_listed(addresses, site.at),
    }
}

/// Whether an address is in a list, whose addresses strictly ascend. By a binary search.
pub fn is_listed(addresses: &Addrs, address: u32) -> bool
    requires { Ascend addresses.now }
    ensures { result ≡ list_any (λ a. a == address) addresses.now }
{
    addresses.as_slice().binary_search(&address).is_ok()
}
