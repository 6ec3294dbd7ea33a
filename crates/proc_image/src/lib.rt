//! The memory of a traced program: a map from addresses to cells, each a byte that may be marked as writable and as
//! executable. Contracts see a `Memory` as this map and name no page.
//!
//! As on i386 the cells stand in pages of 4,096, 1,024 pages in a table, and 1,024 tables in a directory: an access is
//! three indexes. A table or page that isn't there is an empty vector. Making room for a page changes no cell, so what
//! maps a range first makes room for all of it, which may fail, and then fills it, which can't.
//!
//! - `cell`, `page`, `memory`: the pages, and their cells one by one.
//! - `mapping`: ranges of cells that are made, written and taken away; `count`: how many pages hold a mapped byte.
//! - `access`: what instructions ask; `effects`: what answers to system calls do.
//! - `loading`, `stack`: what a program starts with.
#![tactic(auto)]

mod access;
mod bytes;
mod cell;
mod count;
pub mod effects;
mod limits;
pub mod loading;
mod mapping;
pub mod memory;
mod page;
pub mod stack;

pub use effects::EffectFault;
pub use loading::{LoadFault, load};
pub use memory::Memory;
pub use stack::StackFault;
