//! Conditions on the flags. Intel SDM, volume 2, appendix B, table B-10.

ghost use Rattle.std.specs.Prelude.{◌≡◌};
ghost use Rattle.x86_insn.specs.Conditions.{holds};

use x86_insn::{Cond, Flags};

/// Whether a condition holds of the flags.
pub fn holds(cond: Cond, flags: Flags) -> bool
    ensures { result ≡ holds cond flags }
{
    match cond {
        Cond::O => flags.of,
        Cond::No => !flags.of,
        Cond::B => flags.cf,
        Cond::Ae => !flags.cf,
        Cond::E => flags.zf,
        Cond::Ne => !flags.zf,
        Cond::Be => flags.cf || flags.zf,
        Cond::A => !(flags.cf || flags.zf),
        Cond::S => flags.sf,
        Cond::Ns => !flags.sf,
        Cond::P => flags.pf,
        Cond::Np => !flags.pf,
        Cond::L => flags.sf != flags.of,
        Cond::Ge => flags.sf == flags.of,
        Cond::Le => flags.zf || flags.sf != flags.of,
        Cond::G => !(flags.zf || flags.sf != flags.of),
    }
}
