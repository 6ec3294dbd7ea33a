//! Rounds of moves: data, the stack, and flags. Intel SDM, volume 2.

ghost use Rattle.std.specs.Prelude.{◌≡◌, ◌<◌};
ghost use Rattle.x86_insn.specs.Values.{modulus};
ghost use Rattle.x86_insn.specs.Moves.{mov_round, xchg_round, lea_round, movx_value, movx_round, bswap_round, cmov_round, set_round, narrower, cbw_round, sign_filled, cwd_round, xlat_round};

use crate::conditions::holds;
use crate::operands::{
    accumulator, address_after, at_width, effective_address, ends, ends_in, got_at, got_rm,
    got_src, reg, reg_value, set_reg, sign_extended,
};
use x86_insn::{AccessBytes, Ask, Cond, Core, Mem, Reg, Rm, Src, Width};

pub fn mov_round(width: Width, dst: &Rm, src: &Src, core: &Core, got: &[AccessBytes]) -> Ask<bool>
    ensures { result ≡ mov_round width dst.now src.now core.now got.now }
{
    match got_src(width, core, src, got) {
        Ok((value, _rest)) => ends_in(false, width, dst, value, core, core),
        Err((at, len)) => Ask::Reads { at, len },
    }
}

/// Both operands are read before either is set.
pub fn xchg_round(width: Width, dst: &Rm, other: Reg, core: &Core, got: &[AccessBytes]) -> Ask<bool>
    ensures { result ≡ xchg_round width dst.now other core.now got.now }
{
    match got_rm(width, core, dst, got) {
        Ok((value, _rest)) => {
            let after = set_reg(width, other, value, core);
            ends_in(
                false,
                width,
                dst,
                reg_value(width, core, other),
                core,
                &after,
            )
        }
        Err((at, len)) => Ask::Reads { at, len },
    }
}

/// The address itself; nothing is read.
pub fn lea_round(width: Width, dst: Reg, mem: &Mem, core: &Core) -> Ask<bool>
    ensures { result ≡ lea_round width dst mem.now core.now }
{
    ends(
        false,
        set_reg(
            width,
            dst,
            at_width(width, effective_address(core, mem)),
            core,
        ),
    )
}

pub fn movx_value(signed: bool, from: Width, to: Width, value: u32) -> u32
    requires { value < modulus from }
    ensures is { result ≡ movx_value signed from to value }
    ensures fits { result < modulus to }
{
    if signed {
        sign_extended(from, to, value)
    } else {
        at_width(to, value)
    }
}

pub fn movx_round(
    signed: bool,
    from: Width,
    to: Width,
    dst: Reg,
    src: &Rm,
    core: &Core,
    got: &[AccessBytes],
) -> Ask<bool>
    ensures { result ≡ movx_round signed from to dst src.now core.now got.now }
{
    match got_rm(from, core, src, got) {
        Ok((value, _rest)) => {
            let value = movx_value(signed, from, to, value);
            ends(false, set_reg(to, dst, value, core))
        }
        Err((at, len)) => Ask::Reads { at, len },
    }
}

/// The four bytes of a register in reverse order.
pub fn bswap_round(dst: Reg, core: &Core) -> Ask<bool>
    ensures { result ≡ bswap_round dst core.now }
{
    let value = reg(core, dst).swap_bytes();
    ends(false, set_reg(Width::D, dst, value, core))
}

/// The source is read whether or not the condition holds.
pub fn cmov_round(
    cond: Cond,
    width: Width,
    dst: Reg,
    src: &Rm,
    core: &Core,
    got: &[AccessBytes],
) -> Ask<bool>
    ensures { result ≡ cmov_round cond width dst src.now core.now got.now }
{
    match got_rm(width, core, src, got) {
        Ok((value, _rest)) => {
            if holds(cond, core.flags) {
                ends(false, set_reg(width, dst, value, core))
            } else {
                ends(false, *core)
            }
        }
        Err((at, len)) => Ask::Reads { at, len },
    }
}

pub fn set_round(cond: Cond, dst: &Rm, core: &Core) -> Ask<bool>
    ensures { result ≡ set_round cond dst.now core.now }
{
    let value = if holds(cond, core.flags) { 1 } else { 0 };
    ends_in(false, Width::B, dst, value, core, core)
}

/// The width that CBW and CWDE extend from.
fn narrower(width: Width) -> Width
    ensures { result ≡ narrower width }
{
    match width {
        Width::B | Width::W => Width::B,
        Width::D => Width::W,
    }
}

pub fn cbw_round(width: Width, core: &Core) -> Ask<bool>
    ensures { result ≡ cbw_round width core.now }
{
    let from = narrower(width);
    let value = sign_extended(from, width, accumulator(from, core));
    ends(false, set_reg(width, Reg::Eax, value, core))
}

/// A value of which each bit is the sign of this one.
fn sign_filled(width: Width, value: u32) -> u32
    ensures is { result ≡ sign_filled width value }
    ensures fits { result < modulus width }
{
    match width {
        Width::B => if value < 0x80 { 0 } else { 0xFF },
        Width::W => if value < 0x8000 { 0 } else { 0xFFFF },
        Width::D => if value < 0x8000_0000 { 0 } else { 0xFFFF_FFFF },
    }
}

pub fn cwd_round(width: Width, core: &Core) -> Ask<bool>
    ensures { result ≡ cwd_round width core.now }
{
    let value = sign_filled(width, accumulator(width, core));
    ends(false, set_reg(width, Reg::Edx, value, core))
}

/// The byte at EBX and AL together.
pub fn xlat_round(core: &Core, got: &[AccessBytes]) -> Ask<bool>
    ensures { result ≡ xlat_round core.now got.now }
{
    let at = address_after(reg(core, Reg::Ebx), accumulator(Width::B, core));
    match got_at(at, Width::B, got) {
        Ok((value, _rest)) => ends(false, set_reg(Width::B, Reg::Eax, value, core)),
        Err((at, len)) => Ask::Reads { at, len },
    }
}
