//! Pieces of calls, returns and jumps through an operand: code that does in an added area what such an instruction does at
//! its place, with the old addresses on the stack. Where the target is known only as the program runs, the piece puts it
//! into the private area and goes to the lookup stub.
//!
//! `pieces` has the bytes, `laws` says what a run of each piece does, over all states.
#![tactic(auto)]

pub mod laws;
pub mod pieces;

pub use pieces::{call_piece, call_via_piece, far_len, jump_via_piece, return_piece};
