//! Values and flags of the instructions that compute: each call is one line of the tables of the Intel SDM, volume 2.
//!
//! - `sums`: ADD, ADC, SUB, SBB, CMP, INC, DEC and NEG, AND, OR, XOR and TEST.
//! - `shifts`, `doubles`: shifts and rotates; `rotates` turns a word.
//! - `products`, `quotients`: MUL, IMUL, DIV and IDIV.
//! - `bits`: the bit tests and the bit scans.
//! - `width`: numbers at a width, unsigned and signed.
//!
//! The definitions that the contracts cite stand in x86_insn. No call takes memory.
#![tactic(auto)]

mod bits;
mod doubles;
mod products;
mod quotients;
mod rotates;
mod shifts;
mod sums;
mod width;

pub use bits::{bit, scan};
pub use doubles::double;
pub use products::mul;
pub use quotients::div;
pub use shifts::shift;
pub use sums::{alu, bump, logic_test, negate};
