//! The text of an edge rule: `none`, `all`, or `at:` and addresses.

ghost use Rattle.std.specs.Prelude.{◌≡◌, IfOk, IfSome, is_some};
ghost use Rattle.edge_hooks.specs.RuleTexts.{edge_rule_of, word_rule as word_rule_of};
ghost use Rattle.edge_hooks.specs.Rules.{EdgesAscend};

use crate::rules::EdgeRule;
use counter_hooks::{is_address_list, list_text, read_address_list};
use mv_base::NoMemory;
use std::alloc::Global;

/// Whether a text is the text of an edge rule. Takes no memory.
pub fn is_edge_rule(text: &str) -> bool
    ensures { result ≡ is_some (edge_rule_of text.now) }
{
    match list_text(text) {
        Some(list) => is_address_list(list),
        None => word_rule(text).is_some(),
    }
}

/// The edge rule of a text; `None` exactly where it has none. The addresses of a list strictly ascend. The error is want
/// of memory.
pub fn read_edge_rule(alloc: Global, text: &str) -> Result<Option<EdgeRule>, NoMemory>
    ensures is { IfOk result (λ rule. rule ≡ edge_rule_of text.now) }
    ensures ascends { IfOk result (λ rule. IfSome rule EdgesAscend) }
{
    match list_text(text) {
        Some(list) => Ok(read_address_list(alloc, list)?.map(EdgeRule::At)),
        None => Ok(word_rule(text)),
    }
}

/// The edge rule that is one word.
fn word_rule(text: &str) -> Option<EdgeRule>
    ensures is { result ≡ word_rule_of text.now }
    ensures ascends { IfSome result EdgesAscend }
{
    match text {
        "none" => Some(EdgeRule::None),
        "all" => Some(EdgeRule::All),
        _ => None,
    }
}
