//! Where a site's instruction ends, and where its direct transfer goes.

ghost use Rattle.std.specs.Prelude.{◌≡◌};
ghost use Rattle.superset.specs.Targets.{successor as successor_of, target as target_of};

use crate::site::Site;
use x86_insn::Insn;

/// The address after a site's instruction, modulo 2^32.
pub fn successor(site: &Site) -> u32
    ensures { result ≡ successor_of site.now }
{
    site.at.wrapping_add(u32::from(site.len))
}

/// Where a site's direct transfer goes, modulo 2^32: a jump, a branch, a counted loop or a call. The successor where the
/// instruction is none of these.
pub fn target(site: &Site) -> u32
    ensures { result ≡ target_of site.now }
{
    match site.insn {
        Insn::Jump { rel }
        | Insn::Branch { cond: _, rel }
        | Insn::Loop { kind: _, rel }
        | Insn::Call { rel } => successor(site).wrapping_add(rel),
        _ => successor(site),
    }
}
