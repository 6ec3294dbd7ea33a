//! An instruction beside the bytes that spell it.

ghost use Rattle.std.specs.Prelude.{◌≡◌, ◌≤◌, Some, length, take};
ghost use Rattle.x86_insn.specs.Spelling.{decoded};

use x86_insn::Insn;

/// An instruction, and the bytes that spell it, in front of others.
#[derive(Clone, Copy)]
pub struct Spelling {
    bytes: [u8; 15],
    pub len: u8,
    pub insn: Insn,
    ghost long: { length bytes ≡ 15 },
    ghost fits: { len ≤ 15 },
    ghost spells: { decoded (take len bytes) ≡ Some (insn, len) },
}

impl Spelling {
    /// An instruction that the first `len` bytes spell.
    pub fn new(bytes: [u8; 15], len: u8, insn: Insn) -> Spelling
        requires fits { len ≤ 15 }
        requires spells { decoded (take len bytes) ≡ Some (insn, len) }
    {
        Spelling { bytes, len, insn }
    }

    /// The bytes that spell it.
    pub fn bytes(&self) -> &[u8]
        ensures at_most { length result.now ≤ 15 }
        ensures spell { decoded result.now ≡ Some (self.now.insn, self.now.len) }
    {
        &self.bytes[..usize::from(self.len)]
    }
}
