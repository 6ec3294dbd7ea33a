//! The encoder of the spelling table: the least of an instruction's spellings.
//!
//! `candidates` gives the kinds of row that spell an instruction, at most two, and `slots` the rows of a kind, at most
//! three. `assembling` spells operands by a row, with the least prefixes in ascending order and, by `address`, the least
//! bytes that name the operand. `encoding` takes the least of what these come to. Nothing takes memory.
#![tactic(auto)]

mod address;
mod assembling;
mod candidates;
pub mod encoding;
pub mod laws;
mod slots;
pub mod spelling;

pub use encoding::{encode, encoded};
pub use spelling::Spelling;
