//! Rounds of arithmetic: values and flags, read, computed and written back. Intel SDM, volume 2. A destination in
//! memory that is read and written is read first.

ghost use Rattle.std.specs.Prelude.{◌≡◌, ◌<◌, IfSome};
ghost use Rattle.x86_insn.specs.Values.{modulus};
ghost use Rattle.x86_insn.specs.Arithmetic.{alu_end, alu_with, alu_round, test_with, test_round, bump_round, unary_end, unary_round, xadd_round, cmpxchg_end, cmpxchg_round, set_double, high_half, mul_end, mul_round, div_end, div_round, second_factor, imul_end, imul_round};

use crate::operands::{
    AH, accumulator, at_width, ends, ends_in, got_rm, got_src, reg_value, set_reg, with_flags,
};
use x86_alu::{alu, bump, div, logic_test, mul, negate};
use x86_insn::{AccessBytes, AluOp, Ask, Core, Flags, Kind, Reg, Rm, Src, Stop, UnOp, Width};

/// All but CMP write their value.
fn alu_end(op: AluOp, width: Width, dst: &Rm, a: u32, b: u32, core: &Core) -> Ask<bool>
    requires a_fits { a < modulus width }
    requires b_fits { b < modulus width }
    ensures { result ≡ alu_end op width dst.now a b core.now }
{
    let (value, flags) = alu(op, width, a, b, core.flags);
    let after = with_flags(flags, core);
    match op {
        AluOp::Cmp => ends(false, after),
        _ => ends_in(false, width, dst, value, core, &after),
    }
}

pub fn alu_round(
    op: AluOp,
    width: Width,
    dst: &Rm,
    src: &Src,
    core: &Core,
    got: &[AccessBytes],
) -> Ask<bool>
    ensures { result ≡ alu_round op width dst.now src.now core.now got.now }
{
    match got_rm(width, core, dst, got) {
        Ok((a, rest)) => alu_with(op, width, dst, src, a, core, rest),
        Err((at, len)) => Ask::Reads { at, len },
    }
}

/// The destination's value is `a`; the source is next.
fn alu_with(
    op: AluOp,
    width: Width,
    dst: &Rm,
    src: &Src,
    a: u32,
    core: &Core,
    rest: &[AccessBytes],
) -> Ask<bool>
    requires { a < modulus width }
    ensures { result ≡ alu_with op width dst.now src.now a core.now rest.now }
{
    match got_src(width, core, src, rest) {
        Ok((b, _more)) => alu_end(op, width, dst, a, b, core),
        Err((at, len)) => Ask::Reads { at, len },
    }
}

pub fn test_round(width: Width, dst: &Rm, src: &Src, core: &Core, got: &[AccessBytes]) -> Ask<bool>
    ensures { result ≡ test_round width dst.now src.now core.now got.now }
{
    match got_rm(width, core, dst, got) {
        Ok((a, rest)) => test_with(width, src, a, core, rest),
        Err((at, len)) => Ask::Reads { at, len },
    }
}

/// The destination's value is `a`; the source is next.
fn test_with(width: Width, src: &Src, a: u32, core: &Core, rest: &[AccessBytes]) -> Ask<bool>
    requires { a < modulus width }
    ensures { result ≡ test_with width src.now a core.now rest.now }
{
    match got_src(width, core, src, rest) {
        Ok((b, _more)) => {
            let flags = logic_test(width, a, b, core.flags);
            ends(false, with_flags(flags, core))
        }
        Err((at, len)) => Ask::Reads { at, len },
    }
}

pub fn bump_round(up: bool, width: Width, dst: &Rm, core: &Core, got: &[AccessBytes]) -> Ask<bool>
    ensures { result ≡ bump_round up width dst.now core.now got.now }
{
    match got_rm(width, core, dst, got) {
        Ok((a, _rest)) => {
            let (value, flags) = bump(up, width, a, core.flags);
            ends_in(false, width, dst, value, core, &with_flags(flags, core))
        }
        Err((at, len)) => Ask::Reads { at, len },
    }
}

fn unary_end(op: UnOp, width: Width, dst: &Rm, a: u32, core: &Core) -> Ask<bool>
    requires { a < modulus width }
    ensures { result ≡ unary_end op width dst.now a core.now }
{
    match op {
        UnOp::Not => ends_in(false, width, dst, at_width(width, !a), core, core),
        UnOp::Neg => {
            let (value, flags) = negate(width, a, core.flags);
            ends_in(false, width, dst, value, core, &with_flags(flags, core))
        }
    }
}

pub fn unary_round(op: UnOp, width: Width, dst: &Rm, core: &Core, got: &[AccessBytes]) -> Ask<bool>
    ensures { result ≡ unary_round op width dst.now core.now got.now }
{
    match got_rm(width, core, dst, got) {
        Ok((a, _rest)) => unary_end(op, width, dst, a, core),
        Err((at, len)) => Ask::Reads { at, len },
    }
}

/// The register gets the old value, and then the destination the sum.
pub fn xadd_round(width: Width, dst: &Rm, src: Reg, core: &Core, got: &[AccessBytes]) -> Ask<bool>
    ensures { result ≡ xadd_round width dst.now src core.now got.now }
{
    match got_rm(width, core, dst, got) {
        Ok((a, _rest)) => {
            let b = reg_value(width, core, src);
            let (value, flags) = alu(AluOp::Add, width, a, b, core.flags);
            let after = set_reg(width, src, a, &with_flags(flags, core));
            ends_in(false, width, dst, value, core, &after)
        }
        Err((at, len)) => Ask::Reads { at, len },
    }
}

/// Where the accumulator `a` and the destination's value `b` are equal the destination gets the source, else it gets
/// its own value, and the accumulator that value too.
fn cmpxchg_end(
    width: Width,
    dst: &Rm,
    src: Reg,
    a: u32,
    b: u32,
    core: &Core,
    after: &Core,
) -> Ask<bool>
    requires { b < modulus width }
    ensures { result ≡ cmpxchg_end width dst.now src a b core.now after.now }
{
    if a == b {
        ends_in(false, width, dst, reg_value(width, core, src), core, after)
    } else {
        ends_in(
            false,
            width,
            dst,
            b,
            core,
            &set_reg(width, Reg::Eax, b, after),
        )
    }
}

pub fn cmpxchg_round(
    width: Width,
    dst: &Rm,
    src: Reg,
    core: &Core,
    got: &[AccessBytes],
) -> Ask<bool>
    ensures { result ≡ cmpxchg_round width dst.now src core.now got.now }
{
    match got_rm(width, core, dst, got) {
        Ok((b, _rest)) => {
            let a = accumulator(width, core);
            let flags = alu(AluOp::Cmp, width, a, b, core.flags).1;
            cmpxchg_end(width, dst, src, a, b, core, &with_flags(flags, core))
        }
        Err((at, len)) => Ask::Reads { at, len },
    }
}

/// A double value in AX, in DX and AX, or in EDX and EAX.
fn set_double(width: Width, low: u32, high: u32, core: &Core) -> Core
    requires low_fits { low < modulus width }
    requires high_fits { high < modulus width }
    ensures { result ≡ set_double width low high core.now }
{
    let with_low = set_reg(width, Reg::Eax, low, core);
    match width {
        Width::B => set_reg(Width::B, AH, high, &with_low),
        Width::W | Width::D => set_reg(width, Reg::Edx, high, &with_low),
    }
}

/// The high half of the double value.
fn high_half(width: Width, core: &Core) -> u32
    ensures is { result ≡ high_half width core.now }
    ensures fits { result < modulus width }
{
    match width {
        Width::B => reg_value(Width::B, core, AH),
        Width::W | Width::D => reg_value(width, core, Reg::Edx),
    }
}

fn mul_end(signed: bool, width: Width, a: u32, b: u32, core: &Core) -> Ask<bool>
    requires a_fits { a < modulus width }
    requires b_fits { b < modulus width }
    ensures { result ≡ mul_end signed width a b core.now }
{
    let (low, high, flags) = mul(signed, width, a, b, core.flags);
    ends(
        false,
        set_double(width, low, high, &with_flags(flags, core)),
    )
}

pub fn mul_round(
    signed: bool,
    width: Width,
    src: &Rm,
    core: &Core,
    got: &[AccessBytes],
) -> Ask<bool>
    ensures { result ≡ mul_round signed width src.now core.now got.now }
{
    match got_rm(width, core, src, got) {
        Ok((b, _rest)) => mul_end(signed, width, accumulator(width, core), b, core),
        Err((at, len)) => Ask::Reads { at, len },
    }
}

/// The quotient goes to the low half and the remainder to the high half.
fn div_end(width: Width, answer: Option<(u32, u32, Flags)>, core: &Core) -> Ask<bool>
    requires { IfSome answer (λ d. (d.0 < modulus width) × (d.1 < modulus width)) }
    ensures { result ≡ div_end width answer core.now }
{
    match answer {
        Some((quotient, remainder, flags)) => {
            let after = with_flags(flags, core);
            ends(false, set_double(width, quotient, remainder, &after))
        }
        None => Ask::Halts(Stop::Trap(Kind::Divide, 0)),
    }
}

pub fn div_round(
    signed: bool,
    width: Width,
    src: &Rm,
    core: &Core,
    got: &[AccessBytes],
) -> Ask<bool>
    ensures { result ≡ div_round signed width src.now core.now got.now }
{
    match got_rm(width, core, src, got) {
        Ok((by, _rest)) => {
            let high = high_half(width, core);
            let low = accumulator(width, core);
            div_end(width, div(signed, width, high, low, by, core.flags), core)
        }
        Err((at, len)) => Ask::Reads { at, len },
    }
}

/// The second factor of a signed product into a register.
fn second_factor(width: Width, dst: Reg, immediate: Option<u32>, core: &Core) -> u32
    ensures is { result ≡ second_factor width dst immediate core.now }
    ensures fits { result < modulus width }
{
    match immediate {
        Some(value) => at_width(width, value),
        None => reg_value(width, core, dst),
    }
}

fn imul_end(width: Width, dst: Reg, a: u32, b: u32, core: &Core) -> Ask<bool>
    requires a_fits { a < modulus width }
    requires b_fits { b < modulus width }
    ensures { result ≡ imul_end width dst a b core.now }
{
    let (low, _high, flags) = mul(true, width, a, b, core.flags);
    ends(false, set_reg(width, dst, low, &with_flags(flags, core)))
}

pub fn imul_round(
    width: Width,
    dst: Reg,
    src: &Rm,
    immediate: Option<u32>,
    core: &Core,
    got: &[AccessBytes],
) -> Ask<bool>
    ensures { result ≡ imul_round width dst src.now immediate core.now got.now }
{
    match got_rm(width, core, src, got) {
        Ok((a, _rest)) => {
            let b = second_factor(width, dst, immediate, core);
            imul_end(width, dst, a, b, core)
        }
        Err((at, len)) => Ask::Reads { at, len },
    }
}
