//! ROL, ROR, RCL, RCR, SHL, SHR and SAR.

ghost use Rattle.std.specs.Prelude.{◌≡◌, ◌<◌, ◌≤◌};
ghost use Rattle.x86_insn.specs.declared.insn.ShiftOp.TheVariants.{Shl, Shr, Sar};
ghost use Rattle.x86_insn.specs.Values.{modulus as modulus_of};
ghost use Rattle.x86_insn.specs.Shifts.{shift_value, shift_flags, shifted as shifted_of, shifted_out, overflow_of_one as overflow_of, kept_or_szp as kept_or_szp_of};

use crate::bits::is_set;
use crate::rotates::{rcl, rcr, rol, ror};
use crate::width::{bits, modulus, signed, szp, top, wrapped};
use x86_insn::{Flags, ShiftOp, Width};

/// The value and flags of `op` on `a` by `count`, which is taken modulo 32. By 0 nothing changes.
pub fn shift(op: ShiftOp, w: Width, a: u32, count: u8, f: Flags) -> (u32, Flags)
    requires { a < modulus_of w }
    ensures value { result.0 ≡ shift_value op w a count f }
    ensures flags { result.1 ≡ shift_flags op w a count f }
    ensures fits { result.0 < modulus_of w }
{
    let n = u32::from(count % 32);
    if n == 0 {
        return (a, f);
    }
    let (r, out) = shifted(op, w, a, n, f);
    let overflow = n == 1 && overflow_of_one(op, w, a, r, out, f);
    let flags = Flags {
        cf: out,
        of: overflow,
        ..kept_or_szp(op, w, r, f)
    };
    (r, flags)
}

// By `n` places: the value and CF.
fn shifted(op: ShiftOp, w: Width, a: u32, n: u32, f: Flags) -> (u32, bool)
    requires a_fits { a < modulus_of w }
    requires above_zero { 0 < n }
    requires at_most { n < 32 }
    ensures value { result.0 ≡ shifted_of op w a n f }
    ensures out { result.1 ≡ shifted_out op w a n f }
    ensures fits { result.0 < modulus_of w }
{
    match op {
        ShiftOp::Rol => rol(w, a, n, f),
        ShiftOp::Ror => ror(w, a, n, f),
        ShiftOp::Rcl => rcl(w, a, n, f),
        ShiftOp::Rcr => rcr(w, a, n, f),
        ShiftOp::Shl => shl(w, a, n, f),
        ShiftOp::Shr => shr(w, a, n, f),
        ShiftOp::Sar => sar(w, a, n, f),
    }
}

// SHL by `n` places, above 0: the value and CF.
fn shl(w: Width, a: u32, n: u32, f: Flags) -> (u32, bool)
    requires a_fits { a < modulus_of w }
    requires above_zero { 0 < n }
    requires at_most { n < 32 }
    ensures value { result.0 ≡ shifted_of Shl w a n f }
    ensures out { result.1 ≡ shifted_out Shl w a n f }
    ensures fits { result.0 < modulus_of w }
{
    let r = ((u64::from(a) << n) % modulus(w)) as u32;
    let out = n < bits(w) && is_set(a, bits(w) - n);
    (r, out)
}

// SHR by `n` places, above 0: the value and CF.
fn shr(w: Width, a: u32, n: u32, f: Flags) -> (u32, bool)
    requires a_fits { a < modulus_of w }
    requires above_zero { 0 < n }
    requires at_most { n < 32 }
    ensures value { result.0 ≡ shifted_of Shr w a n f }
    ensures out { result.1 ≡ shifted_out Shr w a n f }
    ensures fits { result.0 < modulus_of w }
{
    let out = n < bits(w) && is_set(a, n - 1);
    (a >> n, out)
}

// SAR by `n` places, above 0: the value and CF.
fn sar(w: Width, a: u32, n: u32, f: Flags) -> (u32, bool)
    requires a_fits { a < modulus_of w }
    requires above_zero { 0 < n }
    requires at_most { n < 32 }
    ensures value { result.0 ≡ shifted_of Sar w a n f }
    ensures out { result.1 ≡ shifted_out Sar w a n f }
    ensures fits { result.0 < modulus_of w }
{
    let z = signed(w, a);
    (wrapped(w, z >> n), (z >> (n - 1)).rem_euclid(2) == 1)
}

// OF after a shift by 1, with the value `r` and the new CF `out`.
fn overflow_of_one(op: ShiftOp, w: Width, a: u32, r: u32, out: bool, f: Flags) -> bool
    requires a_fits { a < modulus_of w }
    requires r_fits { r < modulus_of w }
    requires value { r ≡ shifted_of op w a 1 f }
    requires out { out ≡ shifted_out op w a 1 f }
    ensures { result ≡ overflow_of op w a f }
{
    match op {
        ShiftOp::Rol | ShiftOp::Rcl | ShiftOp::Shl => top(w, r) != out,
        ShiftOp::Ror => top(w, r) != is_set(r, bits(w) - 2),
        ShiftOp::Rcr => top(w, a) != f.cf,
        ShiftOp::Shr => top(w, a),
        ShiftOp::Sar => false,
    }
}

// The flags but CF and OF, by the value `r`: a rotate keeps them.
fn kept_or_szp(op: ShiftOp, w: Width, r: u32, f: Flags) -> Flags
    ensures { result ≡ kept_or_szp_of op w r f }
{
    match op {
        ShiftOp::Rol | ShiftOp::Ror | ShiftOp::Rcl | ShiftOp::Rcr => f,
        ShiftOp::Shl | ShiftOp::Shr | ShiftOp::Sar => Flags {
            af: false,
            ..szp(w, r, f)
        },
    }
}
