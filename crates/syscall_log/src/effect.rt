//! What an answer does to memory and descriptors.

ghost use Rattle.std.specs.Prelude.{◌≡◌, ◌+◌, ◌<◌, ◌≤◌, ◌↔◌, IsTrue, [], length};
ghost use Rattle.mv_base.specs.Bytes.{AreBytes};
ghost use Rattle.mv_base.specs.Effects.{IsEffect};
ghost use Rattle.syscall_log.specs.Meaning.{effect_of};

use mv_base::Bytes;
use std::marker::Model;

/// What new cells may be used for, besides reading.
#[derive(Clone, Copy)]
pub enum Mode {
    Read,
    Write,
    Exec,
}

/// A change of memory or of a descriptor. A range has at least one address and ends at most at 0xFFFFF000.
#[derive(Drop)]
pub enum Effect {
    /// Bytes written to mapped cells from `lo` on.
    Write {
        lo: u32,
        bytes: Bytes,
    },
    /// `len` cells made anew from `lo` on: `bytes`, of which there are at most `len`, and then zeros.
    Map {
        lo: u32,
        len: u32,
        mode: Mode,
        bytes: Bytes,
    },
    /// `len` cells taken away from `lo` on.
    Unmap {
        lo: u32,
        len: u32,
    },
    /// The base of the descriptor with this index, from 1 to 8,191, in place of an older one.
    Desc {
        index: u32,
        base: u32,
    },
}

impl Effect {
    /// Whether the range has an address and ends at most at 0xFFFFF000, and has room for the bytes; of a descriptor, whether
    /// its index is from 1 to 8,191.
    pub fn keeps_bounds(&self) -> bool
        ensures { IsTrue result ↔ IsEffect (effect_of self.now) }
    {
        match self {
            Effect::Write { lo, bytes } => in_bounds(*lo, bytes.len() as u64, bytes),
            Effect::Map {
                lo,
                len,
                mode: _,
                bytes,
            } => in_bounds(*lo, u64::from(*len), bytes),
            Effect::Unmap { lo, len } => is_range(*lo, u64::from(*len)),
            Effect::Desc { index, base } => {
                let _value = *base;
                0 < *index && *index <= LAST_INDEX
            }
        }
    }
}

/// The first address that no memory has.
const LIMIT: u64 = 0xFFFF_F000;

/// The highest index of a descriptor.
const LAST_INDEX: u32 = 8_191;

/// Whether `len` addresses from `lo` on are a range, and have room for the bytes.
fn in_bounds(lo: u32, len: u64, bytes: &Bytes) -> bool
    ensures range { IsTrue result
        ↔ ((0 < len) × (lo + len ≤ 0xFFFFF000) × (length bytes.now ≤ len)) }
    ensures bytes { AreBytes bytes.now }
{
    let bytes = bytes.as_slice();
    is_range(lo, len) && bytes.len() as u64 <= len
}

/// Whether `len` addresses from `lo` on are at least one, and end at most at the limit.
fn is_range(lo: u32, len: u64) -> bool
    ensures { IsTrue result ↔ ((0 < len) × (lo + len ≤ 0xFFFFF000)) }
{
    0 < len && len <= LIMIT && u64::from(lo) + len <= LIMIT
}

/// Effects in their order.
#[derive(Drop)]
pub struct Effects {
    items: Vec<Effect>,
}

impl Model for Effects {
    ghost use Rattle.std.specs.Prelude.{List};
    ghost use Rattle.syscall_log.specs.declared.effect.Effect.{Effect};

    ghost Value = { List Effect };

    ghost view = { λ e. e.items.items };
}

impl Effects {
    /// The effects of a vector.
    pub fn new(items: Vec<Effect>) -> Effects
        ensures { result ≡ items.items }
    {
        Effects { items }
    }

    /// The vector of the effects.
    pub fn into_vec(self) -> Vec<Effect>
        ensures { result.items ≡ self }
    {
        self.items
    }

    /// The effects as a slice.
    pub fn as_slice(&self) -> &[Effect]
        ensures { result.now ≡ self.now }
    {
        self.items.as_slice()
    }

    /// How many effects there are.
    pub fn len(&self) -> usize
        ensures { result ≡ length self.now }
    {
        self.items.len()
    }

    /// Whether there is no effect.
    pub fn is_empty(&self) -> bool
        ensures { IsTrue result ↔ (self.now ≡ []) }
    {
        self.items.is_empty()
    }
}
