//! Rounds of shifts, bit tests and bit scans. Intel SDM, volume 2.

ghost use Rattle.std.specs.Prelude.{◌≡◌, ◌<◌, IfSome};
ghost use Rattle.x86_insn.specs.Values.{modulus, width_bits};
ghost use Rattle.x86_insn.specs.Arithmetic.{count_of, shift_end, shift_round, double_end, double_round, bit_end, bit_with, bit_round, scan_end, scan_round};

use crate::operands::{ends, ends_in, got_rm, got_src, reg, reg_value, set_reg, with_flags};
use x86_alu::{bit, double, scan, shift};
use x86_insn::{AccessBytes, Ask, BitOp, Core, Count, Reg, Rm, ShiftOp, Src, Width};

pub fn count_of(count: Count, core: &Core) -> u8
    ensures { result ≡ count_of count core.now }
{
    match count {
        Count::Imm(value) => value,
        Count::Cl => reg_value(Width::B, core, Reg::Ecx) as u8,
    }
}

/// A shift by a multiple of 32 changes nothing: a destination in memory is read and not written.
fn shift_end(op: ShiftOp, width: Width, dst: &Rm, a: u32, count: u8, core: &Core) -> Ask<bool>
    requires { a < modulus width }
    ensures { result ≡ shift_end op width dst.now a count core.now }
{
    if count % 32 == 0 {
        return ends(false, *core);
    }
    let (value, flags) = shift(op, width, a, count, core.flags);
    ends_in(false, width, dst, value, core, &with_flags(flags, core))
}

pub fn shift_round(
    op: ShiftOp,
    width: Width,
    dst: &Rm,
    count: Count,
    core: &Core,
    got: &[AccessBytes],
) -> Ask<bool>
    ensures { result ≡ shift_round op width dst.now count core.now got.now }
{
    match got_rm(width, core, dst, got) {
        Ok((a, _rest)) => shift_end(op, width, dst, a, count_of(count, core), core),
        Err((at, len)) => Ask::Reads { at, len },
    }
}

fn double_end(left: bool, dst: &Rm, a: u32, b: u32, count: u8, core: &Core) -> Ask<bool>
    ensures { result ≡ double_end left dst.now a b count core.now }
{
    if count % 32 == 0 {
        return ends(false, *core);
    }
    let (value, flags) = double(left, a, b, count, core.flags);
    let after = with_flags(flags, core);
    ends_in(false, Width::D, dst, value, core, &after)
}

pub fn double_round(
    left: bool,
    dst: &Rm,
    src: Reg,
    count: Count,
    core: &Core,
    got: &[AccessBytes],
) -> Ask<bool>
    ensures { result ≡ double_round left dst.now src count core.now got.now }
{
    match got_rm(Width::D, core, dst, got) {
        Ok((a, _rest)) => double_end(left, dst, a, reg(core, src), count_of(count, core), core),
        Err((at, len)) => Ask::Reads { at, len },
    }
}

/// BT writes nothing.
fn bit_end(op: BitOp, width: Width, dst: &Rm, a: u32, index: u32, core: &Core) -> Ask<bool>
    requires { a < modulus width }
    ensures { result ≡ bit_end op width dst.now a index core.now }
{
    let (value, flags) = bit(op, width, a, index, core.flags);
    let after = with_flags(flags, core);
    match op {
        BitOp::Bt => ends(false, after),
        BitOp::Bts | BitOp::Btr | BitOp::Btc => { ends_in(false, width, dst, value, core, &after) }
    }
}

/// The destination's value is `a`; the index is next.
fn bit_with(
    op: BitOp,
    width: Width,
    dst: &Rm,
    index: &Src,
    a: u32,
    core: &Core,
    rest: &[AccessBytes],
) -> Ask<bool>
    requires { a < modulus width }
    ensures { result ≡ bit_with op width dst.now index.now a core.now rest.now }
{
    match got_src(width, core, index, rest) {
        Ok((place, _more)) => bit_end(op, width, dst, a, place, core),
        Err((at, len)) => Ask::Reads { at, len },
    }
}

pub fn bit_round(
    op: BitOp,
    width: Width,
    dst: &Rm,
    index: &Src,
    core: &Core,
    got: &[AccessBytes],
) -> Ask<bool>
    ensures { result ≡ bit_round op width dst.now index.now core.now got.now }
{
    match got_rm(width, core, dst, got) {
        Ok((a, rest)) => bit_with(op, width, dst, index, a, core, rest),
        Err((at, len)) => Ask::Reads { at, len },
    }
}

/// The destination is kept where the source has no bit set.
fn scan_end(width: Width, dst: Reg, place: Option<u32>, after: &Core) -> Ask<bool>
    requires { IfSome place (λ k. k < width_bits width) }
    ensures { result ≡ scan_end width dst place after.now }
{
    match place {
        Some(place) => ends(false, set_reg(width, dst, place, after)),
        None => ends(false, *after),
    }
}

pub fn scan_round(
    up: bool,
    width: Width,
    dst: Reg,
    src: &Rm,
    core: &Core,
    got: &[AccessBytes],
) -> Ask<bool>
    ensures { result ≡ scan_round up width dst src.now core.now got.now }
{
    match got_rm(width, core, src, got) {
        Ok((a, _rest)) => {
            let (place, flags) = scan(up, width, a, core.flags);
            scan_end(width, dst, place, &with_flags(flags, core))
        }
        Err((at, len)) => Ask::Reads { at, len },
    }
}
