//! What a traced program is given from outside: its arguments, and the answers to its system calls and to CPUID; and the
//! text of all.
//!
//! `effect` has what an answer does to memory and descriptors, `answer` the answers, `args` the arguments, `log` all of it with the bounds
//! that a log keeps. The definitions in specs/ say what each value means on a memory of cells, and a log's whole text as a
//! list of items, one a line (`Grammar`); no reader is in them.
//!
//! `read` takes a text line by line. `words` reads numbers and bytes, `items` a line, `phase` says whether its item may
//! come where it stands, and `draft` takes it up. From the header on each phase accepts: what was read so far is a log, so
//! the first line that can't come next is the first that no log has, and nothing is read twice. `write` appends the one
//! text of a log. A line of a new kind is a case in each of `Item`, `item_words`, `item_in`, `Phase::after` and `Draft::add`.
#![tactic(auto)]

pub mod answer;
pub mod args;
mod bounds;
mod draft;
pub mod effect;
pub mod fault;
pub mod item;
mod items;
pub mod laws;
pub mod log;
mod phase;
pub mod read;
mod words;
pub mod write;

pub use answer::{Answer, AnswerList};
pub use args::Args;
pub use effect::{Effect, Effects, Mode};
pub use fault::LogFault;
pub use item::Item;
pub use log::Log;
pub use read::read_log;
pub use write::write_log;
