//! Rounds of moves to and from GS. Intel SDM, volume 2, MOV; which descriptors there are the answers say.

ghost use Rattle.std.specs.Prelude.{◌≡◌};
ghost use Rattle.x86_insn.specs.Segments.{set_gs, loaded, to_gs_round, from_gs_round};

use crate::descs::Descs;
use crate::operands::{at_width, bytes_of, effective_address, ends, got_rm, set_reg};
use x86_insn::{AccessBytes, Ask, Core, Kind, Rm, Stop, Width};

/// GS gets a selector, with a base or without one.
fn set_gs(selector: u16, base: Option<u32>, core: &Core) -> Core
    ensures { result ≡ set_gs selector base core.now }
{
    Core {
        gs: selector,
        gs_base: base,
        ..*core
    }
}

/// The end of a load of GS. A selector from 0 to 3 names no descriptor; any other has to have the low bits of a user's,
/// and its index a base.
fn loaded(descs: &Descs, selector: u16, core: &Core) -> Ask<bool>
    ensures { result ≡ loaded descs.now.made selector core.now }
{
    if selector < 4 {
        return ends(false, set_gs(selector, None, core));
    }
    if selector % 8 != 3 {
        return Ask::Halts(Stop::Trap(Kind::Protection, 0));
    }
    match descs.base_at(u32::from(selector / 8)) {
        Some(base) => ends(false, set_gs(selector, Some(base), core)),
        None => Ask::Halts(Stop::Trap(Kind::Protection, 0)),
    }
}

/// The selector is the two low bytes of a register, or two bytes of memory.
pub fn to_gs_round(descs: &Descs, src: &Rm, core: &Core, got: &[AccessBytes]) -> Ask<bool>
    ensures { result ≡ to_gs_round descs.now.made src.now core.now got.now }
{
    match got_rm(Width::W, core, src, got) {
        Ok((selector, _rest)) => loaded(descs, selector as u16, core),
        Err((at, len)) => Ask::Reads { at, len },
    }
}

/// Two bytes to memory; to a register the selector at its width.
pub fn from_gs_round(width: Width, dst: &Rm, core: &Core) -> Ask<bool>
    ensures { result ≡ from_gs_round width dst.now core.now }
{
    let selector = u32::from(core.gs);
    match dst {
        Rm::R(reg) => ends(false, set_reg(width, *reg, at_width(width, selector), core)),
        Rm::M(mem) => Ask::Ends {
            core: *core,
            write: Some((effective_address(core, mem), bytes_of(Width::W, selector))),
            end: false,
        },
    }
}
