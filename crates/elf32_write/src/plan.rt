//! What an output adds to its input.

ghost use Rattle.std.specs.Prelude.{◌≡◌, ◌↔◌, IsTrue, [], length};

use mv_base::{Bytes, RunPlace};
use std::marker::Model;

/// The places of runs, ascending.
#[derive(Drop)]
pub struct RunPlaces {
    items: Vec<RunPlace>,
}

impl Model for RunPlaces {
    ghost use Rattle.std.specs.Prelude.{List};
    ghost use Rattle.mv_base.specs.declared.range.RunPlace.{RunPlace};

    ghost Value = { List RunPlace };

    ghost view = { λ r. r.items.items };
}

impl RunPlaces {
    /// The places of a vector.
    pub fn new(items: Vec<RunPlace>) -> RunPlaces
        ensures { result ≡ items.items }
    {
        RunPlaces { items }
    }

    /// The places as a slice.
    pub fn as_slice(&self) -> &[RunPlace]
        ensures { result.now ≡ self.now }
    {
        self.items.as_slice()
    }

    /// How many places there are.
    pub fn len(&self) -> usize
        ensures { result ≡ length self.now }
    {
        self.items.len()
    }

    /// Whether there is no place.
    pub fn is_empty(&self) -> bool
        ensures { IsTrue result ↔ (self.now ≡ []) }
    {
        self.items.is_empty()
    }
}

/// The counters of an output: the address of each one's site, and its kind, ascending by address and then by kind.
#[derive(Drop)]
pub struct Pairs {
    items: Vec<(u32, u8)>,
}

impl Model for Pairs {
    ghost use Rattle.std.specs.Prelude.{ℕ, List};

    ghost Value = { List (ℕ × ℕ) };

    ghost view = { λ p. p.items.items };
}

impl Pairs {
    /// The pairs of a vector.
    pub fn new(items: Vec<(u32, u8)>) -> Pairs
        ensures { result ≡ items.items }
    {
        Pairs { items }
    }

    /// The pairs as a slice.
    pub fn as_slice(&self) -> &[(u32, u8)]
        ensures { result.now ≡ self.now }
    {
        self.items.as_slice()
    }

    /// How many pairs there are.
    pub fn len(&self) -> usize
        ensures { result ≡ length self.now }
    {
        self.items.len()
    }

    /// Whether there is no pair.
    pub fn is_empty(&self) -> bool
        ensures { IsTrue result ↔ (self.now ≡ []) }
    {
        self.items.is_empty()
    }
}

/// The added block: where it starts, its code, its table of form 2 without the list of counters, that list, the runs with
/// their directories, where the output starts, and the numbers of the rules that its counters are of.
#[derive(Drop)]
pub struct Plan {
    pub base: u32,
    pub code: Bytes,
    pub table: Bytes,
    pub counted: Pairs,
    pub runs: RunPlaces,
    pub entry: u32,
    pub rule: u8,
    pub edge_rule: u8,
}
