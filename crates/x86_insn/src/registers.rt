//! What an instruction may change without memory.

use crate::flags::Flags;

/// The eight general registers by their number, the flags, and GS: its selector, and its base where it has one.
#[derive(Clone, Copy)]
pub struct Core {
    pub regs: [u32; 8],
    pub flags: Flags,
    pub gs: u16,
    pub gs_base: Option<u32>,
}
