//! Chains: sites whose instructions stand one behind the other, and lists of chains.

ghost use Rattle.std.specs.Prelude.{◌≡◌, ◌↔◌, ◌<◌, IsTrue, [], length, map, Some, slice_get};
ghost use Rattle.std.specs.List.{AllByRecursion};
ghost use Rattle.sequence_join.specs.Spans.{chain_in, IsWithin};

use std::marker::Model;

/// Sites each of which goes on by itself at the next.
#[derive(Drop)]
pub struct Chain<'a> {
    links: &'a [u32],
    next: Option<u32>,
}

impl<'a> Model for Chain<'a> {
    ghost use Rattle.sequence_join.specs.Chains.{Chain};

    ghost Value = { Chain };

    ghost view = { λ c. record { links = c.links.now; next = c.next } };
}

impl<'a> Chain<'a> {
    /// The sites, by their indexes among all sites, from 0 on.
    pub fn links(&self) -> &'a [u32]
        ensures { result.now ≡ self.now.links }
    {
        self.links
    }

    /// The address behind the last site's instruction, where its flow falls through.
    pub fn next(&self) -> Option<u32>
        ensures { result ≡ self.now.next }
    {
        self.next
    }
}

/// Where the links of a chain stand among those of all chains, and the chain's next address.
#[derive(Clone, Copy)]
pub struct Span {
    pub from: usize,
    pub len: usize,
    pub next: Option<u32>,
}

/// Chains, whose links stand in one list.
#[derive(Drop)]
pub struct ChainList {
    links: Vec<u32>,
    spans: Vec<Span>,
}

impl Model for ChainList {
    ghost use Rattle.std.specs.Prelude.{List, length, map};
    ghost use Rattle.std.specs.List.{AllByRecursion};
    ghost use Rattle.sequence_join.specs.Chains.{Chain};
    ghost use Rattle.sequence_join.specs.Spans.{chain_in, IsWithin};

    ghost Value = { List Chain };

    ghost view = { λ c. map (chain_in c.links.items) c.spans.items };

    ghost invariant = { λ c. AllByRecursion (IsWithin (length c.links.items)) c.spans.items };
}

impl ChainList {
    /// The chains whose links stand in a list at these spans.
    pub fn new(links: Vec<u32>, spans: Vec<Span>) -> ChainList
        requires { AllByRecursion (IsWithin (length links.items)) spans.items }
        ensures { result ≡ map (chain_in links.items) spans.items }
    {
        ChainList { links, spans }
    }

    /// How many chains there are.
    pub fn len(&self) -> usize
        ensures { result ≡ length self.now }
    {
        self.spans.len()
    }

    /// Whether there is no chain.
    pub fn is_empty(&self) -> bool
        ensures { IsTrue result ↔ (self.now ≡ []) }
    {
        self.spans.is_empty()
    }

    /// A chain, by its number from 0 on.
    pub fn get(&self, number: usize) -> Chain<'_>
        requires { number < length self.now }
        ensures { Some result ≡ slice_get self.now number }
    {
        let span = self.spans[number];
        Chain {
            links: &self.links[span.from..span.from + span.len],
            next: span.next,
        }
    }
}
