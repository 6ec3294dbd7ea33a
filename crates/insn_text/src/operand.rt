//! Operands as they are shown.

ghost use Rattle.std.specs.Prelude.{◌≡◌, [], ◌∷◌};

use std::marker::Model;
use x86_insn::{Mem, Reg, Width};

/// An operand that an instruction shows.
#[derive(Clone, Copy)]
pub enum Operand {
    /// A register, as far as the width reaches.
    Register(Width, Reg),
    /// So much memory at an effective address.
    Memory(Width, Mem),
    /// An effective address alone.
    Address(Mem),
    /// An immediate, a count, or where a transfer goes.
    Number(u32),
    /// The segment register GS.
    Gs,
}

/// How many operands an instruction shows at most.
const MOST: usize = 3;

/// At most three operands in their order.
#[derive(Drop)]
pub struct Operands {
    items: [Operand; MOST],
    len: usize,
}

impl Model for Operands {
    ghost use Rattle.std.specs.Prelude.{List, take, ◌≤◌};
    ghost use Rattle.insn_text.specs.declared.operand.Operand.{Operand};

    ghost Value = { List Operand };

    ghost view = { λ o. take o.len o.items };

    ghost invariant = { λ o. o.len ≤ 3 };
}

impl Operands {
    /// No operand.
    pub fn none() -> Operands
        ensures { result ≡ [] }
    {
        Operands {
            items: [Operand::Number(0); MOST],
            len: 0,
        }
    }

    /// One operand.
    pub fn one(only: Operand) -> Operands
        ensures { result ≡ only ∷ [] }
    {
        Operands {
            items: [only; MOST],
            len: 1,
        }
    }

    /// Two operands.
    pub fn two(first: Operand, second: Operand) -> Operands
        ensures { result ≡ first ∷ second ∷ [] }
    {
        Operands {
            items: [first, second, second],
            len: 2,
        }
    }

    /// Three operands.
    pub fn three(first: Operand, second: Operand, third: Operand) -> Operands
        ensures { result ≡ first ∷ second ∷ third ∷ [] }
    {
        Operands {
            items: [first, second, third],
            len: 3,
        }
    }

    /// The operands as a slice.
    pub fn as_slice(&self) -> &[Operand]
        ensures { result.now ≡ self.now }
    {
        &self.items[..self.len]
    }
}
