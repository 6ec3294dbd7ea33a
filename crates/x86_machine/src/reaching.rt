//! Operands that can't be reached: they are relative to GS, and GS has no base.

ghost use Rattle.std.specs.Prelude.{◌≡◌};
ghost use Rattle.x86_insn.specs.Operands.{is_beyond};
ghost use Rattle.x86_insn.specs.Round.{rm_beyond, src_beyond, pop_beyond, stands_beyond};

use x86_insn::{AccessBytes, Core, Insn, Mem, Rm, Src};

#[inline]
fn is_beyond(core: &Core, mem: &Mem) -> bool
    ensures { result ≡ is_beyond core.now mem.now }
{
    mem.gs && core.gs_base.is_none()
}

#[inline]
fn rm_beyond(core: &Core, operand: &Rm) -> bool
    ensures { result ≡ rm_beyond core.now operand.now }
{
    match operand {
        Rm::R(_) => false,
        Rm::M(mem) => is_beyond(core, mem),
    }
}

#[inline]
fn src_beyond(core: &Core, operand: &Src) -> bool
    ensures { result ≡ src_beyond core.now operand.now }
{
    match operand {
        Src::R(_) | Src::Imm(_) => false,
        Src::M(mem) => is_beyond(core, mem),
    }
}

/// POP reads the stack before it accesses its operand.
fn pop_beyond(core: &Core, dst: &Rm, got: &[AccessBytes]) -> bool
    ensures { result ≡ pop_beyond core.now dst.now got.now }
{
    match got.first() {
        Some(_) => rm_beyond(core, dst),
        None => false,
    }
}

/// Whether what an instruction is about to access, after what it has read so far, can't be reached.
pub fn stands_beyond(insn: &Insn, core: &Core, got: &[AccessBytes]) -> bool
    ensures { result ≡ stands_beyond insn.now core.now got.now }
{
    match insn {
        Insn::Alu { dst, src, .. } | Insn::Test { dst, src, .. } | Insn::Mov { dst, src, .. } => {
            rm_beyond(core, dst) || src_beyond(core, src)
        }
        Insn::Push { src } => src_beyond(core, src),
        Insn::Pop { dst } => pop_beyond(core, dst, got),
        Insn::Xchg { dst, .. }
        | Insn::Bump { dst, .. }
        | Insn::Unary { dst, .. }
        | Insn::Shift { dst, .. }
        | Insn::Double { dst, .. }
        | Insn::Bit { dst, .. }
        | Insn::Cmpxchg { dst, .. }
        | Insn::Xadd { dst, .. }
        | Insn::Set { dst, .. }
        | Insn::FromGs { dst, .. } => rm_beyond(core, dst),
        Insn::Movx { src, .. }
        | Insn::Mul { src, .. }
        | Insn::Div { src, .. }
        | Insn::Imul { src, .. }
        | Insn::Scan { src, .. }
        | Insn::Cmov { src, .. }
        | Insn::ToGs { src }
        | Insn::JumpVia { src }
        | Insn::CallVia { src } => rm_beyond(core, src),
        _ => false,
    }
}
