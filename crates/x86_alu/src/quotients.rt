//! DIV and IDIV.

ghost use Rattle.std.specs.Prelude.{◌≡◌, ◌≢◌, ◌<◌, ◌*◌, pos, IfSome, Option};
ghost use Rattle.x86_insn.specs.Values.{modulus as modulus_of, signed_value};
ghost use Rattle.x86_insn.specs.Products.{dividend as dividend_of, signed_dividend as signed_dividend_of, unsigned_division, signed_division, div_of, div_flags};

use crate::width::{half, modulus, signed as signed_of, wrapped};
use x86_insn::{Flags, Width};

/// The quotient, the remainder and the flags of the dividend of halves `high` and `low` divided by `by`: of IDIV where
/// `signed`, else of DIV. `None` exactly where it traps: for a divisor of 0 and a quotient that doesn't fit the width.
pub fn div(
    signed: bool,
    w: Width,
    high: u32,
    low: u32,
    by: u32,
    f: Flags,
) -> Option<(u32, u32, Flags)>
    requires high_fits { high < modulus_of w }
    requires low_fits { low < modulus_of w }
    requires by_fits { by < modulus_of w }
    ensures is { result ≡ div_of signed w high low by f }
    ensures fits { IfSome result (λ r. (r.0 < modulus_of w) × (r.1 < modulus_of w)) }
{
    if by == 0 {
        None
    } else if signed {
        divide_signed(w, signed_dividend(w, high, low), signed_of(w, by), f)
    } else {
        divide_unsigned(w, dividend(w, high, low), by, f)
    }
}

// The flags after a division.
fn cleared(f: Flags) -> Flags
    ensures { result ≡ div_flags f }
{
    Flags {
        cf: false,
        of: false,
        sf: false,
        zf: false,
        af: false,
        pf: false,
        ..f
    }
}

// The dividend's halves as one number.
fn dividend(w: Width, high: u32, low: u32) -> u64
    requires high_fits { high < modulus_of w }
    requires low_fits { low < modulus_of w }
    ensures is { result ≡ dividend_of w high low }
    ensures fits { result < modulus_of w * modulus_of w }
{
    u64::from(high) * modulus(w) + u64::from(low)
}

// The dividend's halves as one signed number.
fn signed_dividend(w: Width, high: u32, low: u32) -> i64
    requires high_fits { high < modulus_of w }
    requires low_fits { low < modulus_of w }
    ensures { result ≡ signed_dividend_of w high low }
{
    let whole = dividend(w, high, low);
    if high < half(w) {
        whole.cast_signed()
    } else {
        match w {
            Width::B => whole.cast_signed() - (1 << 16),
            Width::W => whole.cast_signed() - (1 << 32),
            Width::D => whole.cast_signed(),
        }
    }
}

// Quotient and remainder of whole numbers, where the quotient fits.
fn divide_unsigned(w: Width, n: u64, by: u32, f: Flags) -> Option<(u32, u32, Flags)>
    requires by_fits { by < modulus_of w }
    requires above_zero { 0 < by }
    ensures is { result ≡ unsigned_division w n by f }
    ensures fits { IfSome result (λ r. (r.0 < modulus_of w) × (r.1 < modulus_of w)) }
{
    let divisor = u64::from(by);
    let quotient = n / divisor;
    if quotient >= modulus(w) {
        return None;
    }
    Some((quotient as u32, (n % divisor) as u32, cleared(f)))
}

// The same of signed numbers.
fn divide_signed(w: Width, n: i64, by: i64, f: Flags) -> Option<(u32, u32, Flags)>
    requires not_zero { by ≢ pos 0 }
    ensures is { result ≡ signed_division w n by f }
    ensures fits { IfSome result (λ r. (r.0 < modulus_of w) × (r.1 < modulus_of w)) }
{
    let quotient = n.checked_div(by)?;
    let limit = i64::from(half(w));
    if quotient < -limit || quotient >= limit {
        return None;
    }
    Some((wrapped(w, quotient), wrapped(w, n % by), cleared(f)))
}
