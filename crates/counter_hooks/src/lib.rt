//! Counters: which sites are counted, and the code that counts an execution.
//!
//! `rules` names sites by what their instructions do or by their addresses, and `rule_text` reads a rule's text. `hooks` keeps a caller's question 'count
//! here?' beside the fact that it answers by a rule, so that it may be asked as often as one likes. `code` has the bytes
//! of a counter, and `laws` says what a run of them does, over all states.
#![tactic(auto)]

pub mod code;
pub mod hooks;
pub mod laws;
pub mod rule_text;
pub mod rules;

pub use code::{counter_len, counter_piece};
pub use hooks::{Hooks, Question, is_site};
pub use rule_text::{is_address_list, is_rule, list_text, read_address_list, read_rule};
pub use rules::{Rule, is_listed, picked, rule_number};

#[cfg(test)]
mod tests;
