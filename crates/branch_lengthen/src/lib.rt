//! Pieces of copied instructions and of direct transfers: code that does in an added area what an instruction does at its
//! place.
//!
//! `pieces` has their bytes. `laws` says what a run of each does, over all states: where the instruction completes the
//! piece comes to the state after it, where it stops the piece stops alike, and nothing else shows in between.
#![tactic(auto)]

pub mod laws;
pub mod pieces;

pub use pieces::{branch_piece, copy_piece, count_piece, join_piece, jump_piece, near_len};

#[cfg(test)]
mod tests;
