//! Words that are turned, and the rotates ROL, ROR, RCL and RCR by more than 0 places.

ghost use Rattle.std.specs.Prelude.{◌≡◌, ◌+◌, ◌≤◌, ◌<◌, ◌^◌};
ghost use Rattle.std.specs.Int.{from_bool};
ghost use Rattle.x86_insn.specs.declared.insn.ShiftOp.TheVariants.{Rol, Ror, Rcl, Rcr};
ghost use Rattle.x86_insn.specs.Values.{modulus as modulus_of, width_bits};
ghost use Rattle.x86_insn.specs.Shifts.{rotated_left, rotated_right, carried_left as carried_left_of, carried_right as carried_right_of, with_carry as with_carry_of, shifted, shifted_out};

use crate::width::{bits, modulus, top};
use x86_insn::{Flags, Width};

/// ROL by `n` places: the value and CF.
pub(crate) fn rol(w: Width, a: u32, n: u32, f: Flags) -> (u32, bool)
    requires { a < modulus_of w }
    ensures value { result.0 ≡ shifted Rol w a n f }
    ensures out { result.1 ≡ shifted_out Rol w a n f }
    ensures fits { result.0 < modulus_of w }
{
    let r = turned_left(bits(w), n % bits(w), u64::from(a)) as u32;
    (r, r % 2 == 1)
}

/// ROR by `n` places: the value and CF.
pub(crate) fn ror(w: Width, a: u32, n: u32, f: Flags) -> (u32, bool)
    requires { a < modulus_of w }
    ensures value { result.0 ≡ shifted Ror w a n f }
    ensures out { result.1 ≡ shifted_out Ror w a n f }
    ensures fits { result.0 < modulus_of w }
{
    let r = turned_right(bits(w), n % bits(w), u64::from(a)) as u32;
    (r, top(w, r))
}

/// RCL by `n` places: the value and CF.
pub(crate) fn rcl(w: Width, a: u32, n: u32, f: Flags) -> (u32, bool)
    requires { a < modulus_of w }
    ensures value { result.0 ≡ shifted Rcl w a n f }
    ensures out { result.1 ≡ shifted_out Rcl w a n f }
    ensures fits { result.0 < modulus_of w }
{
    let size = bits(w) + 1;
    let word = turned_left(size, n % size, with_carry(w, a, f));
    ((word % modulus(w)) as u32, word >= modulus(w))
}

/// RCR by `n` places: the value and CF.
pub(crate) fn rcr(w: Width, a: u32, n: u32, f: Flags) -> (u32, bool)
    requires { a < modulus_of w }
    ensures value { result.0 ≡ shifted Rcr w a n f }
    ensures out { result.1 ≡ shifted_out Rcr w a n f }
    ensures fits { result.0 < modulus_of w }
{
    let size = bits(w) + 1;
    let word = turned_right(size, n % size, with_carry(w, a, f));
    ((word % modulus(w)) as u32, word >= modulus(w))
}

// CF on top of `a`.
fn with_carry(w: Width, a: u32, f: Flags) -> u64
    requires { a < modulus_of w }
    ensures is { result ≡ with_carry_of w a f }
    ensures fits { result < 2 ^ (width_bits w + 1) }
{
    if f.cf {
        modulus(w) + u64::from(a)
    } else {
        u64::from(a)
    }
}

// A word of `size` bits, rotated left by `by` of them.
#[tactic(auto, using(crate::proofs::Turns::turned, crate::proofs::Turns::turned_below))]
fn turned_left(size: u32, by: u32, word: u64) -> u64
    requires size { size ≤ 33 }
    requires by { by ≤ size }
    requires fits { word < 2 ^ size }
    ensures is { result ≡ rotated_left size by word }
    ensures fits { result < 2 ^ size }
{
    let low = size - by;
    ((word % (1 << low)) << by) | (word >> low)
}

// A word of `size` bits, rotated right by `by` of them.
#[tactic(auto, using(crate::proofs::Turns::turned, crate::proofs::Turns::turned_below))]
fn turned_right(size: u32, by: u32, word: u64) -> u64
    requires size { size ≤ 33 }
    requires by { by ≤ size }
    requires fits { word < 2 ^ size }
    ensures is { result ≡ rotated_right size by word }
    ensures fits { result < 2 ^ size }
{
    ((word % (1 << by)) << (size - by)) | (word >> by)
}
