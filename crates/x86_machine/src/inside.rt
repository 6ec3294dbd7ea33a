//! The commonest instructions whose operands are registers and immediates: registers and flags are changed in place. Each
//! equals its line of the table, which has them too; here they take a third of the time.

ghost use Rattle.std.specs.Prelude.{◌≡◌, ◌<◌, ◌||◌, [], true, false, IfSome, Ok};
ghost use Rattle.mv_base.specs.Effects.{Descs};
ghost use Rattle.x86_insn.specs.Arithmetic.{alu_round, test_round, bump_round, shift_round};
ghost use Rattle.x86_insn.specs.Ask.{got_src};
ghost use Rattle.x86_insn.specs.Moves.{mov_round, movx_round, lea_round};
ghost use Rattle.x86_insn.specs.Operands.{set_reg as reg_set};
ghost use Rattle.x86_insn.specs.Round.{rm_beyond, src_beyond, unless_beyond, round, limit, hop};
ghost use Rattle.x86_insn.specs.declared.registers.Core.{Core};
ghost use Rattle.x86_insn.specs.Values.{modulus};
ghost use Rattle.x86_machine.specs.Inside.{IsInside, GoesTo};

use crate::bits::count_of;
use crate::conditions::holds;
use crate::moves::movx_value;
use crate::operands::{address_after, at_width, effective_address, reg_value, regs_with};
use x86_alu::{alu, bump, logic_test, shift};
use x86_insn::{AluOp, Core, Count, Flags, Insn, Mem, Reg, Rm, ShiftOp, Src, Width};

/// A round that needs no memory; `false` where this isn't one of those told here, and then nothing has changed.
#[tactic(auto, unfolding(x86_insn::specs::Round::round, x86_insn::specs::Round::limit))]
pub fn done_inside(insn: &Insn, core: &mut Core) -> bool
    ensures done { (descs : Descs) → IsInside (round insn.now descs core.old []) core.old core.new
        result }
    ensures once { result ≡ true → limit insn.now core.old ≡ 1 }
    ensures gs { core.new.gs ≡ core.old.gs }
    ensures base { core.new.gs_base ≡ core.old.gs_base }
{
    match insn {
        Insn::Alu {
            op,
            width,
            lock: _,
            dst,
            src,
        } => alu_inside(*op, *width, dst, src, core),
        Insn::Test { width, dst, src } => test_inside(*width, dst, src, core),
        Insn::Mov { width, dst, src } => mov_inside(*width, dst, src, core),
        Insn::Lea { width, dst, mem } => lea_inside(*width, *dst, mem, core),
        Insn::Bump {
            up,
            width,
            lock: _,
            dst,
        } => bump_inside(*up, *width, dst, core),
        Insn::Shift {
            op,
            width,
            dst,
            count,
        } => shift_inside(*op, *width, dst, *count, core),
        Insn::Movx {
            signed,
            from,
            to,
            dst,
            src,
        } => movx_inside(*signed, *from, *to, *dst, src, core),
        _ => false,
    }
}

/// The place that JMP and Jcc with a displacement go to under these flags; `None` for any other instruction.
#[tactic(auto, unfolding(x86_insn::specs::Round::hop))]
pub fn goes_to(next: u32, insn: &Insn, flags: Flags) -> Option<u32>
    ensures { (core : Core) → core.flags ≡ flags → GoesTo (hop next insn.now core []) core
        result }
{
    match insn {
        Insn::Jump { rel } => Some(address_after(next, *rel)),
        Insn::Branch { cond, rel } => {
            if holds(*cond, flags) {
                Some(address_after(next, *rel))
            } else {
                Some(next)
            }
        }
        _ => None,
    }
}

/// The value of a register or an immediate.
#[inline]
#[tactic(auto, unfolding(x86_insn::specs::Ask::got_src))]
fn value_inside(width: Width, core: &Core, src: &Src) -> Option<u32>
    ensures is { IfSome result (λ value. got_src width core.now src.now [] ≡ Ok (value, [])) }
    ensures near { IfSome result (λ value. src_beyond core.now src.now ≡ false) }
    ensures fits { IfSome result (λ value. value < modulus width) }
{
    match src {
        Src::R(reg) => Some(reg_value(width, core, *reg)),
        Src::Imm(value) => Some(at_width(width, *value)),
        Src::M(_) => None,
    }
}

/// A register gets a value of a width; the rest of it stays.
#[inline]
fn put_reg(width: Width, reg: Reg, value: u32, core: &mut Core)
    requires { value < modulus width }
    ensures { core.new ≡ reg_set width reg value core.old }
{
    match width {
        Width::D => core.regs[reg.number()] = value,
        Width::B | Width::W => core.regs = regs_with(width, core.regs, reg, value),
    }
}

#[inline]
#[tactic(auto, unfolding(x86_insn::specs::Ask::got_rm))]
fn alu_inside(op: AluOp, width: Width, dst: &Rm, src: &Src, core: &mut Core) -> bool
    ensures is { IsInside (unless_beyond (rm_beyond core.old dst.now || src_beyond core.old src.now)
        (alu_round op width dst.now src.now core.old [])) core.old core.new result }
    ensures gs { core.new.gs ≡ core.old.gs }
    ensures base { core.new.gs_base ≡ core.old.gs_base }
{
    let Rm::R(reg) = dst else {
        return false;
    };
    let Some(b) = value_inside(width, core, src) else {
        return false;
    };
    let a = reg_value(width, core, *reg);
    let (value, flags) = alu(op, width, a, b, core.flags);
    core.flags = flags;
    match op {
        AluOp::Cmp => {}
        _ => put_reg(width, *reg, value, core),
    }
    true
}

#[inline]
#[tactic(auto, unfolding(x86_insn::specs::Ask::got_rm))]
fn test_inside(width: Width, dst: &Rm, src: &Src, core: &mut Core) -> bool
    ensures is { IsInside (unless_beyond (rm_beyond core.old dst.now || src_beyond core.old src.now)
        (test_round width dst.now src.now core.old [])) core.old core.new result }
    ensures gs { core.new.gs ≡ core.old.gs }
    ensures base { core.new.gs_base ≡ core.old.gs_base }
{
    let Rm::R(reg) = dst else {
        return false;
    };
    let Some(b) = value_inside(width, core, src) else {
        return false;
    };
    let a = reg_value(width, core, *reg);
    core.flags = logic_test(width, a, b, core.flags);
    true
}

#[inline]
fn mov_inside(width: Width, dst: &Rm, src: &Src, core: &mut Core) -> bool
    ensures is { IsInside (unless_beyond (rm_beyond core.old dst.now || src_beyond core.old src.now)
        (mov_round width dst.now src.now core.old [])) core.old core.new result }
    ensures gs { core.new.gs ≡ core.old.gs }
    ensures base { core.new.gs_base ≡ core.old.gs_base }
{
    let Rm::R(reg) = dst else {
        return false;
    };
    let Some(value) = value_inside(width, core, src) else {
        return false;
    };
    put_reg(width, *reg, value, core);
    true
}

#[inline]
fn lea_inside(width: Width, dst: Reg, mem: &Mem, core: &mut Core) -> bool
    ensures is { IsInside (lea_round width dst mem.now core.old) core.old core.new result }
    ensures gs { core.new.gs ≡ core.old.gs }
    ensures base { core.new.gs_base ≡ core.old.gs_base }
{
    let value = at_width(width, effective_address(core, mem));
    put_reg(width, dst, value, core);
    true
}

#[inline]
#[tactic(auto, unfolding(x86_insn::specs::Ask::got_rm))]
fn bump_inside(up: bool, width: Width, dst: &Rm, core: &mut Core) -> bool
    ensures is { IsInside (unless_beyond (rm_beyond core.old dst.now)
        (bump_round up width dst.now core.old [])) core.old core.new result }
    ensures gs { core.new.gs ≡ core.old.gs }
    ensures base { core.new.gs_base ≡ core.old.gs_base }
{
    let Rm::R(reg) = dst else {
        return false;
    };
    let a = reg_value(width, core, *reg);
    let (value, flags) = bump(up, width, a, core.flags);
    core.flags = flags;
    put_reg(width, *reg, value, core);
    true
}

#[inline]
#[tactic(auto, unfolding(x86_insn::specs::Ask::got_rm))]
fn shift_inside(op: ShiftOp, width: Width, dst: &Rm, count: Count, core: &mut Core) -> bool
    ensures is { IsInside (unless_beyond (rm_beyond core.old dst.now)
        (shift_round op width dst.now count core.old [])) core.old core.new result }
    ensures gs { core.new.gs ≡ core.old.gs }
    ensures base { core.new.gs_base ≡ core.old.gs_base }
{
    let Rm::R(reg) = dst else {
        return false;
    };
    let count = count_of(count, core);
    if count % 32 == 0 {
        return true;
    }
    let a = reg_value(width, core, *reg);
    let (value, flags) = shift(op, width, a, count, core.flags);
    core.flags = flags;
    put_reg(width, *reg, value, core);
    true
}

#[inline]
#[tactic(auto, unfolding(x86_insn::specs::Ask::got_rm))]
fn movx_inside(signed: bool, from: Width, to: Width, dst: Reg, src: &Rm, core: &mut Core) -> bool
    ensures is { IsInside (unless_beyond (rm_beyond core.old src.now)
        (movx_round signed from to dst src.now core.old [])) core.old core.new result }
    ensures gs { core.new.gs ≡ core.old.gs }
    ensures base { core.new.gs_base ≡ core.old.gs_base }
{
    let Rm::R(reg) = src else {
        return false;
    };
    let value = movx_value(signed, from, to, reg_value(from, core, *reg));
    put_reg(to, dst, value, core);
    true
}
