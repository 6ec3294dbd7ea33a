//! The lookup stub: the code that takes an old address to its new one while the program runs. Indirect transfers go
//! through it. It works on a private area alone: it neither reads nor writes the program's stack, and comes with the
//! registers and flags with which it was entered.
//!
//! `code` has its bytes, for a table of either form. `laws` says what a run of it does, over all states.
#![tactic(auto)]

pub mod code;
pub mod laws;

pub use code::{MOST_RUNS, stub, stub_byte, stub_len};
