//! Why a machine stops. The kinds of trap follow the Intel SDM, volume 3, chapter 6; the rest is this project's own.

/// Why a trap comes: an access that faults, a division, INT3, UD2, or HLT.
#[derive(Clone, Copy, Debug, PartialEq, Eq)]
pub enum Kind {
    ReadFault,
    WriteFault,
    FetchFault,
    Divide,
    Breakpoint,
    Invalid,
    Protection,
}

/// Why a machine stops: a trap with its address (0 where it has none), bytes that are no instruction, no answer left,
/// an answer that can't be applied, or the end of the program.
#[derive(Clone, Copy)]
pub enum Stop {
    Trap(Kind, u32),
    Outside,
    NoAnswer,
    BadAnswer,
    Gone,
}
