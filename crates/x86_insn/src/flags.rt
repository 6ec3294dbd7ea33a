//! The status flags, the direction flag and ID.

ghost use Rattle.std.specs.Prelude.{◌≡◌, ◌≤◌};
ghost use Rattle.x86_insn.specs.Flags.{bit};

/// CF, PF, AF, ZF, SF, DF, OF and ID (Intel SDM, volume 1, section 3.4.3).
#[derive(Clone, Copy, PartialEq, Eq, Debug)]
pub struct Flags {
    pub cf: bool,
    pub pf: bool,
    pub af: bool,
    pub zf: bool,
    pub sf: bool,
    pub df: bool,
    pub of: bool,
    pub id: bool,
}

impl Flags {
    ghost use Rattle.std.specs.Prelude.{◌≡◌};
    ghost use Rattle.x86_insn.specs.Flags.{flag_image};

    /// The flags as PUSHFD stores them. Bit 1 is always set; bit 9 is too, which is this project's own.
    pub fn image(&self) -> u32
        ensures { result ≡ flag_image self.now }
    {
        bit(self.cf, 0x1)
            + 0x2
            + bit(self.pf, 0x4)
            + bit(self.af, 0x10)
            + bit(self.zf, 0x40)
            + bit(self.sf, 0x80)
            + 0x200
            + bit(self.df, 0x400)
            + bit(self.of, 0x800)
            + bit(self.id, 0x20_0000)
    }
}

// The value where the flag is set, else 0.
fn bit(set: bool, value: u32) -> u32
    ensures is { result ≡ bit set value }
    ensures at_most { result ≤ value }
{
    if set { value } else { 0 }
}
