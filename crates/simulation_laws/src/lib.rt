//! What the parts of an output come to as they run, by what stands in its file: the laws on which the simulation of an
//! input by an output rests. They hold for a file of whatever origin.
#![tactic(auto)]

pub mod anchors;
mod counters;
pub mod front;
pub mod piece;
pub mod site_pieces;
mod stub;
#[cfg(test)]
mod tests;

pub use anchors::{Anchors, Ways};
pub use front::{Difference, first_difference};
pub use piece::{piece_at, piece_difference};
pub use site_pieces::{SitePiece, site_piece};
pub use stub::{stub_at, stub_difference};
