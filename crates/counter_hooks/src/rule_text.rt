//! The text of a rule: `none`, `all`, `calls`, `returns`, `branches`, `system`, or `at:` and addresses.

ghost use Rattle.std.specs.Prelude.{◌≡◌, ◌^◌, ◌<◌, ◌≤◌, length, IfOk, IfSome, is_some, option_map};
ghost use Rattle.counter_hooks.specs.RuleTexts.{addresses_of, first_of, list_text as list_text_of, most_addresses, rule_of, word_rule as word_rule_of};
ghost use Rattle.counter_hooks.specs.Rules.{Ascend, IsAscending};

use crate::rules::Rule;
use mv_base::{Addrs, NoMemory, hex8_value};
use std::alloc::Global;

// How many addresses a rule has at most.
const MOST_ADDRESSES: usize = 1024;

/// Whether a text is the text of a rule. Takes no memory.
pub fn is_rule(text: &str) -> bool
    ensures { result ≡ is_some (rule_of text.now) }
{
    match list_text(text) {
        Some(list) => is_address_list(list),
        None => word_rule(text).is_some(),
    }
}

/// The rule of a text; `None` exactly where it has none. The addresses of a list strictly ascend. The error is want of
/// memory.
pub fn read_rule(alloc: Global, text: &str) -> Result<Option<Rule>, NoMemory>
    ensures is { IfOk result (λ rule. rule ≡ rule_of text.now) }
    ensures ascends { IfOk result (λ rule. IfSome rule IsAscending) }
{
    match list_text(text) {
        Some(list) => Ok(read_address_list(alloc, list)?.map(Rule::At)),
        None => Ok(word_rule(text)),
    }
}

/// The rule that is one word.
fn word_rule(text: &str) -> Option<Rule>
    ensures is { result ≡ word_rule_of text.now }
    ensures ascends { IfSome result IsAscending }
{
    match text {
        "none" => Some(Rule::None),
        "all" => Some(Rule::All),
        "calls" => Some(Rule::Calls),
        "returns" => Some(Rule::Returns),
        "branches" => Some(Rule::Branches),
        "system" => Some(Rule::System),
        _ => None,
    }
}

/// What stands behind `at:`, where a text begins with that.
#[tactic(auto, unfolding(crate::specs::RuleTexts::list_text))]
pub fn list_text(text: &str) -> Option<&[u8]>
    ensures { option_map (λ list. list.now) result ≡ list_text_of text.now }
{
    text.as_bytes().strip_prefix(b"at:".as_slice())
}

/// Whether a text is a list of addresses: 1 to 1,024 of them, each greater than the one before it. Takes no memory.
pub fn is_address_list(text: &[u8]) -> bool
    ensures { result ≡ is_some (addresses_of most_addresses 0 text.now) }
{
    let mut rest = text;
    let mut low = 0;
    for _ in 0..MOST_ADDRESSES {
        let Some((address, behind)) = first(low, rest) else {
            return false;
        };
        let Some((separator, more)) = behind.split_first() else {
            return true;
        };
        if *separator != b',' {
            return false;
        }
        rest = more;
        low = u64::from(address) + 1;
    }
    false
}

/// The addresses of a list; `None` exactly where the text is none. They strictly ascend. The error is want of memory.
pub fn read_address_list(alloc: Global, text: &[u8]) -> Result<Option<Addrs>, NoMemory>
    ensures is { IfOk result (λ list. list ≡ addresses_of most_addresses 0 text.now) }
    ensures ascends { IfOk result (λ list. IfSome list Ascend) }
{
    let mut addresses = Vec::new(alloc);
    let mut rest = text;
    let mut low = 0;
    for _ in 0..MOST_ADDRESSES {
        let Some((address, behind)) = first(low, rest) else {
            return Ok(None);
        };
        addresses.push(address)?;
        let Some((separator, more)) = behind.split_first() else {
            return Ok(Some(Addrs::new(addresses)));
        };
        if *separator != b',' {
            return Ok(None);
        }
        rest = more;
        low = u64::from(address) + 1;
    }
    Ok(None)
}

/// The address with which a text begins, which isn't below `low`, and what stands behind its digits.
#[tactic(auto, unfolding(crate::specs::RuleTexts::first_of))]
fn first(low: u64, text: &[u8]) -> Option<(u32, &[u8])>
    ensures { option_map (λ p. (p.0, p.1.now)) result ≡ first_of low text.now }
{
    let (digits, rest) = text.split_at_checked(8)?;
    let address = hex8_value(digits)?;
    if low <= u64::from(address) {
        Some((address, rest))
    } else {
        None
    }
}
