//! Laws of steps and runs that every piece of relocated code rests on. They stand for no work: the functions are empty.
//!
//! The definitions in specs/ say what a state's bounds are, when one memory stands beside another, what it means that
//! a run keeps something, and what it means that a piece meets an instruction; specs/laws/ has what the crates above
//! cite in proofs.
#![tactic(auto)]

pub mod laws;
