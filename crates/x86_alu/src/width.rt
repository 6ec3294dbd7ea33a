//! Numbers at a width: 2 to the width, the two's complement, and the flags of a result.

ghost use Rattle.std.specs.Prelude.{◌≡◌, ◌+◌, ◌≤◌, ◌<◌, ◌^◌, pos, neg_ℤ, ◌≤ℤ◌, ◌<ℤ◌};
ghost use Rattle.x86_insn.specs.Values.{width_bits, modulus as modulus_of, half as half_of, signed_value, wrapped as wrapped_of, top as top_of, szp as szp_of};

use x86_insn::{Flags, Width};

/// The width in bits.
pub(crate) fn bits(w: Width) -> u32
    ensures is { result ≡ width_bits w }
    ensures at_least { 8 ≤ result }
    ensures at_most { result ≤ 32 }
{
    match w {
        Width::B => 8,
        Width::W => 16,
        Width::D => 32,
    }
}

/// 2 to the width.
pub(crate) fn modulus(w: Width) -> u64
    ensures is { result ≡ modulus_of w }
    ensures at_least { 2 ^ 8 ≤ result }
    ensures at_most { result ≤ 2 ^ 32 }
{
    match w {
        Width::B => 1 << 8,
        Width::W => 1 << 16,
        Width::D => 1 << 32,
    }
}

/// What the top bit of the width is worth.
pub(crate) fn half(w: Width) -> u32
    ensures is { result ≡ half_of w }
    ensures twice { result + result ≡ modulus_of w }
    ensures at_most { result ≤ 2 ^ 31 }
{
    match w {
        Width::B => 1 << 7,
        Width::W => 1 << 15,
        Width::D => 1 << 31,
    }
}

/// The top bit of `r`.
pub(crate) fn top(w: Width, r: u32) -> bool
    ensures { result ≡ top_of w r }
{
    r >= half(w)
}

/// The flags with SF, ZF and PF by the result `r`.
pub(crate) fn szp(w: Width, r: u32, f: Flags) -> Flags
    ensures { result ≡ szp_of w r f }
{
    Flags {
        sf: top(w, r),
        zf: r == 0,
        pf: (r % 256).count_ones() % 2 == 0,
        ..f
    }
}

/// The number that `a` spells in two's complement.
pub(crate) fn signed(w: Width, a: u32) -> i64
    requires { a < modulus_of w }
    ensures is { result ≡ signed_value w a }
    ensures at_least { neg_ℤ (pos (half_of w)) ≤ℤ result }
    ensures below { result <ℤ pos (half_of w) }
{
    let whole = i64::from(a);
    if a < half(w) {
        whole
    } else {
        whole - modulus(w).cast_signed()
    }
}

/// What is left of `z` at the width.
pub(crate) fn wrapped(w: Width, z: i64) -> u32
    ensures is { result ≡ wrapped_of w z }
    ensures fits { result < modulus_of w }
{
    z.rem_euclid(modulus(w).cast_signed()) as u32
}
