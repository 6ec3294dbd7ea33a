//! MUL and IMUL.

ghost use Rattle.std.specs.Prelude.{◌≡◌, ◌<◌, ◌≤◌, ◌^◌, ◌*◌, ◌-◌, pos, ◌≤ℤ◌, ◌*ℤ◌, unsigned_abs, neg_ℤ};
ghost use Rattle.std.specs.Int.{int_rem_euclid};
ghost use Rattle.x86_insn.specs.Values.{modulus as modulus_of, signed_value};
ghost use Rattle.x86_insn.specs.Products.{product as product_of, mul_low, mul_high, mul_flags, exceeds_low};

use crate::width::{half, modulus, signed as signed_of, top};
use x86_insn::{Flags, Width};

/// The low half, the high half and the flags of the product: of IMUL where `signed`, else of MUL.
pub fn mul(signed: bool, w: Width, a: u32, b: u32, f: Flags) -> (u32, u32, Flags)
    requires a_fits { a < modulus_of w }
    requires b_fits { b < modulus_of w }
    ensures low { result.0 ≡ mul_low signed w a b }
    ensures high { result.1 ≡ mul_high signed w a b }
    ensures flags { result.2 ≡ mul_flags signed w a b f }
    ensures low_fits { result.0 < modulus_of w }
    ensures high_fits { result.1 < modulus_of w }
{
    let word = product(signed, w, a, b);
    let low = (word % modulus(w)) as u32;
    let high = (word / modulus(w)) as u32;
    let more = exceeds(signed, w, a, b, high);
    let sign = signed & top(w, low);
    let flags = Flags {
        cf: more,
        of: more,
        sf: sign,
        zf: false,
        af: false,
        pf: false,
        ..f
    };
    (low, high, flags)
}

// The product as a word of two widths.
fn product(signed: bool, w: Width, a: u32, b: u32) -> u64
    requires a_fits { a < modulus_of w }
    requires b_fits { b < modulus_of w }
    ensures is { result ≡ product_of signed w a b }
    ensures fits { result < modulus_of w * modulus_of w }
{
    if signed {
        twice_wrapped(w, signed_product(w, a, b))
    } else {
        u64::from(a) * u64::from(b)
    }
}

// The product of two signed values.
fn signed_product(w: Width, a: u32, b: u32) -> i64
    requires a_fits { a < modulus_of w }
    requires b_fits { b < modulus_of w }
    ensures { result ≡ signed_value w a *ℤ signed_value w b }
{
    signed_of(w, a) * signed_of(w, b)
}

// What is left of `z` in two widths.
fn twice_wrapped(w: Width, z: i64) -> u64
    ensures is { result ≡ unsigned_abs (int_rem_euclid z (pos (modulus_of w * modulus_of w))) }
    ensures fits { result < modulus_of w * modulus_of w }
{
    let word = z.cast_unsigned();
    match w {
        Width::B => word % (1 << 16),
        Width::W => word % (1 << 32),
        Width::D => word,
    }
}

// CF and OF: the product is more than its low half.
fn exceeds(signed: bool, w: Width, a: u32, b: u32, high: u32) -> bool
    requires a_fits { a < modulus_of w }
    requires b_fits { b < modulus_of w }
    requires high { high ≡ mul_high signed w a b }
    ensures { result ≡ exceeds_low signed w a b }
{
    if signed {
        let z = signed_product(w, a, b);
        let limit = i64::from(half(w));
        z < -limit || z >= limit
    } else {
        high != 0
    }
}
