//! Ranges of 32-bit addresses, and the places of runs.

ghost use Rattle.std.specs.Prelude.{◌≡◌, ◌+◌, ◌^◌, ◌≤◌, ◌↔◌, IsTrue};

use std::marker::Model;

/// The addresses from `lo` on, `len` of them, all below 2^32.
#[derive(Clone, Copy)]
pub struct Range {
    lo: u32,
    len: u32,
}

impl Model for Range {
    ghost use Rattle.std.specs.Prelude.{◌+◌, ◌^◌, ◌≤◌};
    ghost use Rattle.mv_base.specs.Span.{Span};

    ghost Value = { Span };

    ghost view = { λ r. record { lo = r.lo; len = r.len } };

    ghost invariant = { λ r. r.lo + r.len ≤ 2 ^ 32 };

    ghost inverse = { λ s. record { lo = s.lo; len = s.len } };
}

impl Range {
    /// The range of `len` addresses from `lo` on.
    pub fn new(lo: u32, len: u32) -> Range
        requires { lo + len ≤ 2 ^ 32 }
        ensures { result ≡ record { lo = lo; len = len } }
    {
        Range { lo, len }
    }

    /// The first address, or where the range is empty the address at which it stands.
    pub fn lo(&self) -> u32
        ensures { result ≡ self.now.lo }
    {
        self.lo
    }

    /// How many addresses there are.
    pub fn len(&self) -> u32
        ensures { result ≡ self.now.len }
    {
        self.len
    }

    /// Whether there is no address.
    pub fn is_empty(&self) -> bool
        ensures { IsTrue result ↔ (self.now.len ≡ 0) }
    {
        self.len == 0
    }

    /// The address after the last one, at most 2^32.
    pub fn end(&self) -> u64
        ensures sum { result ≡ self.now.lo + self.now.len }
        ensures limit { result ≤ 2 ^ 32 }
    {
        u64::from(self.lo) + u64::from(self.len)
    }
}

/// A run of executable addresses of the original, and the address of its directory in the added block.
#[derive(Clone, Copy, Debug, PartialEq, Eq)]
pub struct RunPlace {
    /// The run's first address.
    pub lo: u32,
    /// How many addresses the run has.
    pub len: u32,
    /// The address of the run's directory.
    pub dir: u32,
}
