//! The stored question.

ghost use Rattle.std.specs.Prelude.{◌≡◌};
ghost use Rattle.counter_hooks.specs.Rules.{Tells};
ghost use Rattle.edge_hooks.specs.Rules.{edge_picked as is_picked, EdgesAscend};

use crate::rules::EdgeRule;
use counter_hooks::{Question, is_site};
use std::marker::Model;
use superset::Site;

/// An edge rule, and a question that answers by it at every site.
#[derive(Drop)]
pub struct EdgeHooks<G: Question> {
    rule: EdgeRule,
    ask: G,
}

impl<G: Question> Model for EdgeHooks<G> {
    ghost use Rattle.counter_hooks.specs.Rules.{Tells};
    ghost use Rattle.edge_hooks.specs.declared.rules.EdgeRule.{EdgeRule as RuleValue};
    ghost use Rattle.edge_hooks.specs.Rules.{edge_picked as is_picked, EdgesAscend};

    ghost Value = { RuleValue };

    ghost view = { λ h. h.rule };

    ghost invariant = { λ h. EdgesAscend h.rule × Tells (G.answers h.ask) (is_picked h.rule) };
}

impl<G: Question> EdgeHooks<G> {
    /// The hooks of an edge rule and a question that answers by it at every site. The addresses of a list strictly ascend.
    pub fn new(rule: EdgeRule, ask: G) -> EdgeHooks<G>
        requires ascends { EdgesAscend rule }
        requires tells { Tells (G.answers ask) (is_picked rule) }
        ensures { result ≡ rule }
    {
        EdgeHooks { rule, ask }
    }

    /// The answer at a site, the same at each call.
    pub fn asks(&self, site: &Site) -> bool
        ensures { result ≡ is_picked self.now site.now }
    {
        is_site(*site);
        self.ask.ask(site)
    }

    /// The rule by which it answers.
    pub fn rule(&self) -> &EdgeRule
        ensures is { result.now ≡ self.now }
        ensures ascends { EdgesAscend result.now }
    {
        &self.rule
    }
}
