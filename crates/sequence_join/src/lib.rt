//! Chains: the sites of a program in lines that follow the flow, so that most instructions need no jump behind them.
//! The method is after Multiverse (Bauman, Lin and Hamlen, NDSS 2018).
//!
//! `chain` has the types of a chain and of a list of chains, whose links stand in one list; `joining` puts all sites into
//! chains. It goes over the sites once, with a mark for each that is in a chain; the next link is looked for from the one before on, so it is found within the length of
//! an instruction.
#![tactic(auto)]

pub mod chain;
pub mod joining;

pub use chain::{Chain, ChainList, Span};
pub use joining::chains;
