//! The least bytes that name an operand: ModRM, SIB and displacement. Intel SDM, volume 2, section 2.1.5.

ghost use Rattle.std.specs.Prelude.{◌≡◌, ◌<◌, ◌≤◌, ◌++◌, length, IfSome};
ghost use Rattle.std.specs.Option.{ForSome};
ghost use Rattle.x86_encode.specs.Address.{half_bytes, dword_bytes, modrm, fits_byte, mode_of, displacement_by, based, scale_of, index_bits, indexed, indexed_from, memory_bytes, address_bytes};

use crate::spelling::Spelling;
use x86_insn::{Reg, Rm};

/// A number below 2^16 as two bytes, the least first.
pub fn half_bytes(number: u32) -> Spelling
    ensures is { result ≡ half_bytes number }
    ensures len { length result ≡ 2 }
{
    Spelling::new(&[(number % 0x100) as u8, (number / 0x100 % 0x100) as u8])
}

/// A number as four bytes, the least first.
pub fn dword_bytes(number: u32) -> Spelling
    ensures is { result ≡ dword_bytes number }
    ensures len { length result ≡ 4 }
{
    Spelling::new(&[
        (number % 0x100) as u8,
        (number / 0x100 % 0x100) as u8,
        (number / 0x1_0000 % 0x100) as u8,
        (number / 0x100_0000 % 0x100) as u8,
    ])
}

fn modrm(mode: u8, field: u8, rm: u8) -> u8
    requires mode { mode < 4 }
    requires field { field < 8 }
    requires rm { rm < 8 }
    ensures { result ≡ modrm mode field rm }
{
    64 * mode + 8 * field + rm
}

/// A number is what a byte extended by its sign gives.
fn fits_byte(number: u32) -> bool
    ensures { result ≡ fits_byte number }
{
    let byte = number % 0x100;
    if byte < 0x80 {
        byte == number
    } else {
        byte + 0xFFFF_FF00 == number
    }
}

// The least mod field of a displacement behind a base register: EBP alone has no form without one.
fn mode_of(disp: u32, base: u8) -> u8
    ensures is { result ≡ mode_of disp base }
    ensures at_most { result ≤ 2 }
{
    if disp == 0 && base != 5 {
        0
    } else if fits_byte(disp) {
        1
    } else {
        2
    }
}

fn displacement_by(mode: u8, disp: u32) -> Spelling
    ensures is { result ≡ displacement_by mode disp }
    ensures at_most { length result ≤ 4 }
{
    match mode {
        0 => Spelling::new(&[]),
        1 => Spelling::new(&[(disp % 0x100) as u8]),
        _ => dword_bytes(disp),
    }
}

// ModRM and SIB, and the displacement behind them.
fn displaced(head: &[u8], mode: u8, disp: u32) -> Spelling
    requires { length head.now ≤ 2 }
    ensures is { result ≡ head.now ++ displacement_by mode disp }
    ensures at_most { length result ≤ 6 }
{
    Spelling::new(head).and(&displacement_by(mode, disp))
}

// A base register alone: ESP needs SIB.
fn based(field: u8, base: u8, disp: u32) -> Spelling
    requires field { field < 8 }
    requires base { base < 8 }
    ensures is { result ≡ based field base disp }
    ensures at_most { length result ≤ 6 }
{
    let mode = mode_of(disp, base);
    if base == 4 {
        displaced(&[modrm(mode, field, 4), 0x24], mode, disp)
    } else {
        displaced(&[modrm(mode, field, base)], mode, disp)
    }
}

// The scale of a factor.
fn scale_of(factor: u8) -> Option<u8>
    ensures is { result ≡ scale_of factor }
    ensures at_most { IfSome result (λ s. s ≤ 3) }
{
    match factor {
        1 => Some(0),
        2 => Some(1),
        4 => Some(2),
        8 => Some(3),
        _ => None,
    }
}

// SIB's bits of an index register and its factor; ESP is none.
fn index_bits(index: Reg, factor: u8) -> Option<u8>
    ensures is { result ≡ index_bits index factor }
    ensures at_most { IfSome result (λ b. b ≤ 248) }
{
    let number = index.number() as u8;
    match scale_of(factor) {
        None => None,
        Some(scale) => {
            if number == 4 {
                None
            } else {
                Some(64 * scale + 8 * number)
            }
        }
    }
}

// An index without a base register.
fn indexed(field: u8, bits: Option<u8>, disp: u32) -> Option<Spelling>
    requires field { field < 8 }
    requires bits { ForSome bits (λ b. b ≤ 248) }
    ensures is { result ≡ indexed field bits disp }
    ensures at_most { IfSome result (λ s. length s ≤ 6) }
{
    match bits {
        None => None,
        Some(bits) => Some(displaced(&[modrm(0, field, 4), bits + 5], 2, disp)),
    }
}

// An index and a base register.
fn indexed_from(field: u8, base: u8, bits: Option<u8>, disp: u32) -> Option<Spelling>
    requires field { field < 8 }
    requires base { base < 8 }
    requires bits { ForSome bits (λ b. b ≤ 248) }
    ensures is { result ≡ indexed_from field base bits disp }
    ensures at_most { IfSome result (λ s. length s ≤ 6) }
{
    let mode = mode_of(disp, base);
    match bits {
        None => None,
        Some(bits) => Some(displaced(&[modrm(mode, field, 4), bits + base], mode, disp)),
    }
}

fn memory_bytes(
    field: u8,
    base: Option<Reg>,
    index: Option<(Reg, u8)>,
    disp: u32,
) -> Option<Spelling>
    requires { field < 8 }
    ensures is { result ≡ memory_bytes field base index disp }
    ensures at_most { IfSome result (λ s. length s ≤ 6) }
{
    match (base, index) {
        (None, None) => Some(displaced(&[modrm(0, field, 5)], 2, disp)),
        (None, Some((index, factor))) => indexed(field, index_bits(index, factor), disp),
        (Some(base), None) => Some(based(field, base.number() as u8, disp)),
        (Some(base), Some((index, factor))) => {
            indexed_from(field, base.number() as u8, index_bits(index, factor), disp)
        }
    }
}

/// The least bytes that name an operand, with this in ModRM's reg field; none where a factor isn't 1, 2, 4 or 8, or
/// ESP is the index.
pub fn address_bytes(field: u8, operand: Rm) -> Option<Spelling>
    requires { field < 8 }
    ensures is { result ≡ address_bytes field operand }
    ensures at_most { IfSome result (λ s. length s ≤ 6) }
{
    match operand {
        Rm::R(reg) => Some(Spelling::new(&[modrm(3, field, reg.number() as u8)])),
        Rm::M(mem) => memory_bytes(field, mem.base, mem.index, mem.disp),
    }
}
