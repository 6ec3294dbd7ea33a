//! The stored question.

ghost use Rattle.std.specs.Prelude.{◌≡◌, Bool};
ghost use Rattle.std.specs.Borrow.{Bor};
ghost use Rattle.superset.specs.declared.site.Site.{Site as SiteValue};
ghost use Rattle.counter_hooks.specs.Rules.{IsAscending, IsSite, Tells, picked};

use crate::rules::Rule;
use std::marker::Model;
use superset::Site;

/// A yes-or-no question about a site. `answers` says of a site which answer comes: where it says so of one, that one
/// comes at each call.
pub trait Question {
    ghost use Rattle.std.specs.Prelude.{◌≡◌, Bool};
    ghost use Rattle.superset.specs.declared.site.Site.{Site as SiteValue};

    ghost answers: { Self → SiteValue → Bool → Type 0 };

    /// The answer at a site.
    fn ask(&self, site: &Site) -> bool
        requires { (answer : Bool) × answers self.now site.now answer }
        ensures { (answer : Bool) → answers self.now site.now answer → result ≡ answer };
}

impl<F: Fn(&Site) -> bool> Question for F {
    ghost answers = { λ f site answer.
        (shown : Bor SiteValue) → shown.now ≡ site →
        F.pre f shown × ((given : Bool) → F.post f shown given → given ≡ answer) };

    fn ask(&self, site: &Site) -> bool {
        self(site)
    }
}

/// A rule, and a question that answers by it at every site.
#[derive(Drop)]
pub struct Hooks<F: Question> {
    rule: Rule,
    ask: F,
}

impl<F: Question> Model for Hooks<F> {
    ghost use Rattle.counter_hooks.specs.declared.rules.Rule.{Rule as RuleValue};
    ghost use Rattle.counter_hooks.specs.Rules.{IsAscending, Tells, picked};

    ghost Value = { RuleValue };

    ghost view = { λ h. h.rule };

    ghost invariant = { λ h. IsAscending h.rule × Tells (F.answers h.ask) (picked h.rule) };
}

impl<F: Question> Hooks<F> {
    /// The hooks of a rule and a question that answers by it at every site. The addresses of a list strictly ascend.
    pub fn new(rule: Rule, ask: F) -> Hooks<F>
        requires ascends { IsAscending rule }
        requires tells { Tells (F.answers ask) (picked rule) }
        ensures { result ≡ rule }
    {
        Hooks { rule, ask }
    }

    /// The answer at a site, the same at each call.
    pub fn asks(&self, site: &Site) -> bool
        ensures { result ≡ picked self.now site.now }
    {
        is_site(*site);
        self.ask.ask(site)
    }

    /// The rule by which it answers.
    pub fn rule(&self) -> &Rule
        ensures is { result.now ≡ self.now }
        ensures ascends { IsAscending result.now }
    {
        &self.rule
    }
}

/// The numbers of a site are values of their fields' types: a site has no others. It stands for no work.
pub fn is_site(site: Site)
    ensures { IsSite site }
{}
