//! The decoder of the spelling table: what a list of bytes begins with.
//!
//! `decoding` reads the prefixes; `choice` finds the form of what follows, of those that `opcode_map` has at the opcode;
//! then the operand bytes are read by it once: `form` tests and reads them, `address` has the operand that ModRM names,
//! and `meaning` the instruction. This is the way of nearly all bytes, so its functions are inlined.
//!
//! Where no form is chosen, as where bytes are lacking, all forms at the opcode are tried. Each step then answers a
//! `Reading`: an instruction with its length, how many bytes are lacking, or nothing.
#![tactic(auto)]

mod address;
mod choice;
pub mod decoding;
mod form;
mod meaning;
mod opcode_map;
mod prefixes;
mod reading;

pub use decoding::{Decoded, decode};
