//! The text of an instruction, as a listing shows it: a word in front (a lock or a repeat), the mnemonic, and the operands,
//! the destination first.
//!
//! `names` has the names of registers, conditions and operations, `operands` which operands an instruction shows, `numbers`
//! and `writing` put the text together. Each is a table of its own, so a further instruction is a line in each of them.
#![tactic(auto)]

pub mod names;
mod numbers;
pub mod operand;
mod operands;
pub mod writing;

pub use writing::text;
