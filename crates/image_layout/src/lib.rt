//! The layout of the added block: where it lies, and what is where in it.
//!
//! `room` finds the place. `places` says where each piece stands: the chains stand one behind the other without gaps, so the
//! lengths of pieces and joins alone give every place, and these give the entries. `code` writes the pieces and joins there,
//! and `layout` puts code, table and private area together.
#![tactic(auto)]

mod code;
pub mod layout;
mod places;
pub mod room;

pub use layout::{LayFault, lay, lay_edges, moved};
pub use room::first_fit;

#[cfg(test)]
mod tests;
