//! Rewriting: from a static executable to one whose code is relocated.
//!
//! `rewriting` has the whole: the image, its runs, sites and chains, the plan that `image_layout` makes of them, and the file.
//! `upgrading` has the rules of an output that is there, and `laws` says that an output keeps its input and its rules.
//! What that file is, and that it simulates its input, is proved here from what stands where in it; the laws of runs are
//! those of `simulation_laws`.
#![tactic(auto)]

pub mod laws;
pub mod rewriting;
pub mod upgrading;

pub use rewriting::{FILE_LIMIT, RewriteFault, Rewritten, rewrite, rewrite_edges};
pub use upgrading::{frame_edge_rule, frame_rule};

#[cfg(test)]
mod tests;
