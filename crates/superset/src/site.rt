//! Sites: the addresses at which an instruction lies wholly in executable cells.

use x86_insn::Insn;

/// An instruction at an address, and its length in bytes.
#[derive(Clone, Copy)]
pub struct Site {
    pub at: u32,
    pub len: u8,
    pub insn: Insn,
}
