//! The branch profile's counters: which branches and loops have two, one for each way, and the code that chooses one.
//!
//! `rules` names branches and loops, and `rule_text` reads a rule's text. `hooks` keeps a caller's question 'count the
//! ways here?' beside the fact that it answers by a rule. `piece` has the bytes: the instruction's own condition over a
//! jump to the second of two counters, the counter of those that pass with a short jump behind the piece, and the counter
//! of those that are taken with a near jump to the target. `laws` says what each step of a piece but those of its
//! counters does, over all states.
#![tactic(auto)]

pub mod hooks;
pub mod laws;
pub mod piece;
pub mod rule_text;
pub mod rules;

pub use hooks::EdgeHooks;
pub use piece::{EdgePiece, edge_len, edge_piece};
pub use rule_text::{is_edge_rule, read_edge_rule};
pub use rules::{EdgeRule, edge_number, edge_picked};

#[cfg(test)]
mod tests;
