//! BT, BTS, BTR, BTC, BSF and BSR.

ghost use Rattle.std.specs.Prelude.{◌≡◌, ◌<◌, ◌^◌, IfSome};
ghost use Rattle.x86_insn.specs.Values.{modulus as modulus_of, width_bits};
ghost use Rattle.x86_insn.specs.Shifts.{is_set as is_set_of};
ghost use Rattle.x86_insn.specs.Bits.{at_bit as at_bit_of, bit_value, bit_flags, scan_value, scan_flags, IsFirstSet};

use crate::width::bits;
use x86_insn::{BitOp, Flags, Width};

/// The value and flags of `op` on the bit of `a` at `index` modulo the width.
pub fn bit(op: BitOp, w: Width, a: u32, index: u32, f: Flags) -> (u32, Flags)
    requires { a < modulus_of w }
    ensures value { result.0 ≡ bit_value op w a index }
    ensures flags { result.1 ≡ bit_flags w a index f }
    ensures fits { result.0 < modulus_of w }
{
    let place = index % bits(w);
    let r = at_bit(op, w, a, place);
    let flags = Flags {
        cf: is_set(a, place),
        of: false,
        sf: false,
        af: false,
        pf: false,
        ..f
    };
    (r, flags)
}

// Bit `place` of `a` as it is, set, reset or complemented.
#[tactic(auto, using(crate::proofs::Masks::set_bit, crate::proofs::Masks::reset_bit, crate::proofs::Masks::complemented_bit, crate::proofs::Masks::set_bit_below, crate::proofs::Masks::complemented_bit_below))]
fn at_bit(op: BitOp, w: Width, a: u32, place: u32) -> u32
    requires a_fits { a < modulus_of w }
    requires in_width { place < width_bits w }
    ensures is { result ≡ at_bit_of op a place }
    ensures fits { result < modulus_of w }
{
    let mask = 1 << place;
    match op {
        BitOp::Bt => a,
        BitOp::Bts => a | mask,
        BitOp::Btr => a & !mask,
        BitOp::Btc => a ^ mask,
    }
}

// Bit `place` of `a`.
pub(crate) fn is_set(a: u32, place: u32) -> bool
    requires { place < 32 }
    ensures { result ≡ is_set_of place a }
{
    (a >> place) % 2 == 1
}

/// The place of the lowest bit of `a` that is set, or of the highest where not `up`, and the flags of BSF and BSR.
/// `None` exactly where `a` is 0.
#[tactic(auto, using(crate::proofs::Places::lowest, crate::proofs::Places::highest, crate::proofs::Places::lowest_within, crate::proofs::Places::highest_within))]
pub fn scan(up: bool, w: Width, a: u32, f: Flags) -> (Option<u32>, Flags)
    requires { a < modulus_of w }
    ensures value { result.0 ≡ scan_value up a }
    ensures first { IfSome result.0 (λ k. IsFirstSet up a k) }
    ensures flags { result.1 ≡ scan_flags a f }
    ensures fits { IfSome result.0 (λ k. k < width_bits w) }
{
    let place = if a == 0 {
        None
    } else if up {
        Some(a.trailing_zeros())
    } else {
        Some(31 - a.leading_zeros())
    };
    let flags = Flags {
        zf: a == 0,
        cf: false,
        of: false,
        sf: false,
        af: false,
        pf: false,
        ..f
    };
    (place, flags)
}
