//! SHLD and SHRD, at 32 bits.

ghost use Rattle.std.specs.Prelude.{◌≡◌, ◌<◌};
ghost use Rattle.x86_insn.specs.Shifts.{double_value, double_flags, filled as filled_of, filled_out as filled_out_of};

use crate::bits::is_set;
use crate::width::{szp, top};
use x86_insn::{Flags, Width};

/// The value and flags of SHLD, or of SHRD where not `left`: `a` is shifted by `count`, which is taken modulo 32, and
/// filled from `b`. By 0 nothing changes.
pub fn double(left: bool, a: u32, b: u32, count: u8, f: Flags) -> (u32, Flags)
    ensures value { result.0 ≡ double_value left a b count }
    ensures flags { result.1 ≡ double_flags left a b count f }
{
    let n = u32::from(count % 32);
    if n == 0 {
        return (a, f);
    }
    let r = filled(left, a, b, n);
    let turned = top(Width::D, r) != top(Width::D, a);
    let overflow = (n == 1) & turned;
    let flags = Flags {
        cf: filled_out(left, a, n),
        of: overflow,
        af: false,
        ..szp(Width::D, r, f)
    };
    (r, flags)
}

// `a` by `n` places, filled from `b`.
#[tactic(auto, using(crate::proofs::Turns::filled_left, crate::proofs::Turns::filled_right))]
fn filled(left: bool, a: u32, b: u32, n: u32) -> u32
    requires above_zero { 0 < n }
    requires at_most { n < 32 }
    ensures { result ≡ filled_of left a b n }
{
    if left {
        (a << n) | (b >> (32 - n))
    } else {
        (a >> n) | (b << (32 - n))
    }
}

// The last bit of `a` that is shifted out.
fn filled_out(left: bool, a: u32, n: u32) -> bool
    requires above_zero { 0 < n }
    requires at_most { n < 32 }
    ensures { result ≡ filled_out_of left a n }
{
    if left {
        is_set(a, 32 - n)
    } else {
        is_set(a, n - 1)
    }
}
