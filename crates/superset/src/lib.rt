//! Superset disassembly: the sites of a program, at which an instruction begins at whatever byte of its code. The
//! method is after Multiverse (Bauman, Lin and Hamlen, NDSS 2018), which disassembles from every byte.
//!
//! `site` has the type of a site, `disassembly` finds all of them. `piece` has the type of the code that stands for a
//! site elsewhere, `targets` where a direct transfer goes. What the code is stands in the crates above.
#![tactic(auto)]

pub mod disassembly;
pub mod piece;
pub mod site;
pub mod targets;

pub use disassembly::{site_at, sites};
pub use piece::Piece;
pub use site::Site;
pub use targets::{successor, target};

#[cfg(test)]
mod tests;
