//! The output file: what a rewriter adds to an input, written to a file and read back from it.
//!
//! `plan` has what is added, `file` writes the file of an input and a plan, `frame` reads the frame that the
//! record of a file spells. The definitions in specs/ say the same of the whole file.
#![tactic(auto)]

mod file;
mod frame;
pub mod plan;

pub use file::{added_len, write_image};
pub use frame::{Frame, read_frame};
pub use plan::{Pairs, Plan, RunPlaces};
