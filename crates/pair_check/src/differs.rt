//! Where a file differs from what a rewriting of an input can be.

use thiserror::Error;

/// A part in which a file can differ: where its block lies, its runs, the bytes of the whole file, its counters, its
/// lookup stub, the entry of an address, and the code of a site.
#[derive(Clone, Copy, Debug, PartialEq, Eq, Drop)]
pub enum Part {
    Room,
    Runs,
    File,
    Counted,
    Stub,
    Entry,
    Piece,
}

/// A difference: the part, an address or a place in it, what is wanted there and what is found. A byte that isn't there
/// counts as 256.
#[derive(Clone, Copy, Debug, PartialEq, Eq, Drop, Error)]
#[error("{part:?} at {at:08x}: {kept:08x} is wanted, {found:08x} is found")]
pub struct Differs {
    pub part: Part,
    pub at: u32,
    pub kept: u32,
    pub found: u32,
}
