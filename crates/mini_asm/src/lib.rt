//! The assembler: small sources become images, and each line is read by its text.
//!
//! A line is read by making the only instruction that it may be the text of, printing that and comparing. So what takes a
//! line apart may be lenient: `words` takes numbers and words from its front, `operands` the operands, `mnemonic` names
//! the operation, `building` puts them together. `line` compares. That two instructions with spellings have two texts is
//! a law (`laws`), proved on the definitions of the text as they stand.
//!
//! `form` reads a source line by itself, whatever its address: nothing, a label (`names`), bytes, an instruction as it
//! reads where the address behind it is 0, or a direct transfer to a label.
//!
//! `source` reads all lines of a source by their forms, and finds the first that is no line of a source; `labels` has where
//! each label is defined first. `sizes` has how many bytes an instruction takes, and `spots` where each line stands. `judging`
//! finds a loop that goes too far, too much code or none; `writing` has the bytes and the text of each line, `assembling` joins
//! all of it, and `listings` shows what a source assembles to.
#![tactic(auto)]

pub mod assembling;
mod building;
pub mod form;
mod judging;
mod labels;
pub mod laws;
pub mod line;
pub mod listings;
mod mnemonic;
mod names;
mod operands;
mod sizes;
mod source;
mod spots;
mod words;
mod writing;

pub use assembling::{AsmFault, assemble};
pub use form::{Form, read_form};
pub use line::read_line;
pub use listings::{Assembled, Listed, listing};
