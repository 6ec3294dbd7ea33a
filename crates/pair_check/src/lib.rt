//! The pair checker: whether a file is a rewriting of an input, whoever made it.
//!
//! `differs` has the parts of a file in which it can differ. `check` reads both files and looks at the parts in their
//! order: `parts` has where its block lies, its runs and its stub, `file` the bytes of the whole file, `counted` its
//! counters, and `sites` the code of each site. Where nothing differs, the file simulates the input: the
//! proof rests on the law that simulation_laws has for what it looks at, not on how the file was made.
#![tactic(auto)]

pub mod checking;
mod counted;
pub mod differs;
mod file;
pub mod laws;
mod parts;
mod sites;

pub use checking::{CheckFault, check};
pub use differs::{Differs, Part};
