//! The base of Multiverse: what every other crate stands on.
//!
//! - `status`: the answers of the program and their numbers.
//! - `numbers`, `reading`: little-endian numbers in bytes, and numbers and bytes as text, both ways.
//! - `lists`: byte and address lists that contracts see as lists.
//! - `range`: address ranges and the places of runs.
//! - `store`, `sink`: what the program sees of the outside, as traits. Each says by ghost members what it holds or has
//!   written, where it tells that, and counts its faults. Code that is generic over the trait can't raise a count, so an
//!   answer that blames the outside is tied to a fault that happened.
//! - `mem_store`, `mem_sink`: both in memory. They tell everything, and fail at the calls that they are told to.
//! - `file_store`, `std_sink`: both over the system, a few lines each over `pieces` and `replace`. They tell nothing of
//!   content, since nobody can; that the system does what it is asked is trusted.
#![tactic(auto)]

mod faults;
pub mod file_store;
pub mod lists;
pub mod mem_sink;
pub mod mem_store;
pub mod numbers;
mod pieces;
pub mod range;
pub mod reading;
mod replace;
pub mod sink;
pub mod status;
pub mod std_sink;
pub mod store;
#[cfg(test)]
mod tests;

pub use file_store::FileStore;
pub use lists::{Addrs, Bytes};
pub use mem_sink::MemSink;
pub use mem_store::MemStore;
pub use numbers::{NoMemory, put_decimal, put_hex_pairs, put_hex2, put_hex8, u32_at};
pub use range::{Range, RunPlace};
pub use reading::{behind, digit_value, hex_pairs, hex_value, hex8_value};
pub use sink::{Sink, SinkFault};
pub use status::Status;
pub use std_sink::StdSink;
pub use store::{Got, Store, StoreFault};
