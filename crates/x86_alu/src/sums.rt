//! ADD, OR, ADC, SBB, AND, SUB, XOR, CMP, TEST, INC, DEC and NEG.

ghost use Rattle.std.specs.Prelude.{◌≡◌, ◌+◌, ◌≤◌, ◌<◌, ◌+ℤ◌, ◌-ℤ◌, pos, not, bit_and};
ghost use Rattle.std.specs.Int.{from_bool};
ghost use Rattle.x86_insn.specs.Values.{modulus as modulus_of, signed_value, in_signed_range, sum_value, sum_flags, difference_value, difference_flags, logic_flags, test_flags, alu_value, alu_flags, bump_value, bump_flags, negate_value, negate_flags};

use crate::width::{modulus, szp, top, wrapped};
use x86_insn::{AluOp, Flags, Width};

/// The value and flags of `op` on `a`, the destination, and `b`. CMP gives `a` as its value.
pub fn alu(op: AluOp, w: Width, a: u32, b: u32, f: Flags) -> (u32, Flags)
    requires a_fits { a < modulus_of w }
    requires b_fits { b < modulus_of w }
    ensures value { result.0 ≡ alu_value op w a b f }
    ensures flags { result.1 ≡ alu_flags op w a b f }
    ensures fits { result.0 < modulus_of w }
{
    match op {
        AluOp::Add => sum(w, a, b, false, f),
        AluOp::Or => logic(w, a | b, f),
        AluOp::Adc => sum(w, a, b, f.cf, f),
        AluOp::Sbb => difference(w, a, b, f.cf, f),
        AluOp::And => logic(w, a & b, f),
        AluOp::Sub => difference(w, a, b, false, f),
        AluOp::Xor => logic(w, a ^ b, f),
        AluOp::Cmp => (a, difference(w, a, b, false, f).1),
    }
}

/// The flags of TEST.
pub fn logic_test(w: Width, a: u32, b: u32, f: Flags) -> Flags
    requires a_fits { a < modulus_of w }
    requires b_fits { b < modulus_of w }
    ensures { result ≡ test_flags w a b f }
{
    logic(w, a & b, f).1
}

/// The value and flags of INC, or of DEC where not `up`. CF is kept.
pub fn bump(up: bool, w: Width, a: u32, f: Flags) -> (u32, Flags)
    requires { a < modulus_of w }
    ensures value { result.0 ≡ bump_value up w a }
    ensures flags { result.1 ≡ bump_flags up w a f }
    ensures fits { result.0 < modulus_of w }
{
    let (r, flags) = if up {
        sum(w, a, 1, false, f)
    } else {
        difference(w, a, 1, false, f)
    };
    (r, Flags { cf: f.cf, ..flags })
}

/// The value and flags of NEG.
pub fn negate(w: Width, a: u32, f: Flags) -> (u32, Flags)
    requires { a < modulus_of w }
    ensures value { result.0 ≡ negate_value w a }
    ensures flags { result.1 ≡ negate_flags w a f }
    ensures fits { result.0 < modulus_of w }
{
    difference(w, 0, a, false, f)
}

// The sum of `a`, `b` and a carry.
fn sum(w: Width, a: u32, b: u32, carry: bool, f: Flags) -> (u32, Flags)
    requires a_fits { a < modulus_of w }
    requires b_fits { b < modulus_of w }
    ensures value { result.0 ≡ sum_value w a b (from_bool carry) }
    ensures flags { result.1 ≡ sum_flags w a b (from_bool carry) f }
    ensures fits { result.0 < modulus_of w }
{
    let c = u32::from(carry);
    let whole = u64::from(a) + u64::from(b) + u64::from(c);
    let r = (whole % modulus(w)) as u32;
    let flags = Flags {
        cf: whole >= modulus(w),
        af: a % 16 + b % 16 + c >= 16,
        of: sum_overflows(w, a, b, carry, r),
        ..szp(w, r, f)
    };
    (r, flags)
}

// OF of a sum: the operands have one sign, and the sum `r` the other.
fn sum_overflows(w: Width, a: u32, b: u32, carry: bool, r: u32) -> bool
    requires a_fits { a < modulus_of w }
    requires b_fits { b < modulus_of w }
    requires sum { r ≡ sum_value w a b (from_bool carry) }
    ensures { result ≡ not (in_signed_range w (signed_value w a +ℤ signed_value w b +ℤ pos
        (from_bool carry))) }
{
    let same = top(w, a) == top(w, b);
    let turned = top(w, r) != top(w, a);
    same & turned
}

// The difference of `a`, `b` and a borrow.
fn difference(w: Width, a: u32, b: u32, borrow: bool, f: Flags) -> (u32, Flags)
    requires a_fits { a < modulus_of w }
    requires b_fits { b < modulus_of w }
    ensures value { result.0 ≡ difference_value w a b (from_bool borrow) }
    ensures flags { result.1 ≡ difference_flags w a b (from_bool borrow) f }
    ensures fits { result.0 < modulus_of w }
{
    let c = u32::from(borrow);
    let r = less(w, a, b, borrow);
    let flags = Flags {
        cf: u64::from(a) < u64::from(b) + u64::from(c),
        af: a % 16 < b % 16 + c,
        of: difference_overflows(w, a, b, borrow, r),
        ..szp(w, r, f)
    };
    (r, flags)
}

// `a` less `b` and a borrow, at the width.
fn less(w: Width, a: u32, b: u32, borrow: bool) -> u32
    ensures is { result ≡ difference_value w a b (from_bool borrow) }
    ensures fits { result < modulus_of w }
{
    wrapped(w, i64::from(a) - i64::from(b) - i64::from(borrow))
}

// OF of a difference: the operands have two signs, and the difference `r` that of `b`.
fn difference_overflows(w: Width, a: u32, b: u32, borrow: bool, r: u32) -> bool
    requires a_fits { a < modulus_of w }
    requires b_fits { b < modulus_of w }
    requires difference { r ≡ difference_value w a b (from_bool borrow) }
    ensures { result ≡ not (in_signed_range w (signed_value w a -ℤ signed_value w b -ℤ pos
        (from_bool borrow))) }
{
    let apart = top(w, a) != top(w, b);
    let turned = top(w, r) != top(w, a);
    apart & turned
}

// The result `r` of AND, OR or XOR.
fn logic(w: Width, r: u32, f: Flags) -> (u32, Flags)
    ensures value { result.0 ≡ r }
    ensures flags { result.1 ≡ logic_flags w r f }
{
    let flags = Flags {
        cf: false,
        of: false,
        af: false,
        ..szp(w, r, f)
    };
    (r, flags)
}
