//! The operand that a ModRM byte names. Intel SDM, volume 2, section 2.1.5.
//!
//! Each function takes the bytes from ModRM on, and a byte that is missing counts as 0.

ghost use Rattle.std.specs.Prelude.{◌≡◌, ◌≤◌, ◌<◌};
ghost use Rattle.x86_insn.specs.Addressing.{byte_at, dword_at, sign_extended, reg_of, mod_field, reg_field, rm_field, names_memory, has_sib, base_number, has_base, has_index, displacement_place, displacement_length, displacement_bytes, displacement_of, address_length, factor_of, memory_of, rm_of, with_gs};

use x86_insn::{Mem, Reg, Rm};

/// The byte at a place.
pub fn byte_at(bytes: &[u8], place: usize) -> u8
    ensures { result ≡ byte_at bytes.now place }
{
    match bytes.get(place) {
        Some(byte) => *byte,
        None => 0,
    }
}

/// The number that four bytes spell from a place on.
pub fn dword_at(bytes: &[u8], place: usize) -> u32
    requires { place < 16 }
    ensures { result ≡ dword_at bytes.now place }
{
    byte_at(bytes, place) as u32
        + 0x100 * byte_at(bytes, place + 1) as u32
        + 0x1_0000 * byte_at(bytes, place + 2) as u32
        + 0x100_0000 * byte_at(bytes, place + 3) as u32
}

/// A byte extended by its sign.
pub fn sign_extended(byte: u8) -> u32
    ensures { result ≡ sign_extended 32 byte }
{
    if byte < 0x80 {
        byte as u32
    } else {
        byte as u32 + 0xFFFF_FF00
    }
}

/// The register of a number.
pub fn register(number: u8) -> Reg
    ensures { result ≡ reg_of number }
{
    match number {
        0 => Reg::Eax,
        1 => Reg::Ecx,
        2 => Reg::Edx,
        3 => Reg::Ebx,
        4 => Reg::Esp,
        5 => Reg::Ebp,
        6 => Reg::Esi,
        _ => Reg::Edi,
    }
}

fn mod_field(bytes: &[u8]) -> u8
    ensures { result ≡ mod_field bytes.now }
{
    byte_at(bytes, 0) / 64
}

/// ModRM's reg field.
pub fn reg_field(bytes: &[u8]) -> u8
    ensures { result ≡ reg_field bytes.now }
{
    byte_at(bytes, 0) / 8 % 8
}

fn rm_field(bytes: &[u8]) -> u8
    ensures { result ≡ rm_field bytes.now }
{
    byte_at(bytes, 0) % 8
}

/// The operand is memory.
pub fn names_memory(bytes: &[u8]) -> bool
    ensures { result ≡ names_memory bytes.now }
{
    mod_field(bytes) != 3
}

fn has_sib(bytes: &[u8]) -> bool
    ensures { result ≡ has_sib bytes.now }
{
    names_memory(bytes) && rm_field(bytes) == 4
}

// The number of the base register, where there is one.
fn base_number(bytes: &[u8]) -> u8
    ensures { result ≡ base_number bytes.now }
{
    if has_sib(bytes) {
        byte_at(bytes, 1) % 8
    } else {
        rm_field(bytes)
    }
}

fn has_base(bytes: &[u8]) -> bool
    ensures { result ≡ has_base bytes.now }
{
    !(mod_field(bytes) == 0 && base_number(bytes) == 5)
}

fn has_index(bytes: &[u8]) -> bool
    ensures { result ≡ has_index bytes.now }
{
    has_sib(bytes) && byte_at(bytes, 1) / 8 % 8 != 4
}

fn displacement_place(bytes: &[u8]) -> usize
    ensures is { result ≡ displacement_place bytes.now }
    ensures at_most { result ≤ 2 }
{
    if has_sib(bytes) { 2 } else { 1 }
}

// By ModRM's mod field and by whether there is a base register.
fn displacement_bytes(mode: u8, has_base: bool) -> usize
    ensures is { result ≡ displacement_bytes mode has_base }
    ensures at_most { result ≤ 4 }
{
    match mode {
        0 => { if has_base { 0 } else { 4 } }
        1 => 1,
        2 => 4,
        _ => 0,
    }
}

fn displacement_length(bytes: &[u8]) -> usize
    ensures is { result ≡ displacement_length bytes.now }
    ensures at_most { result ≤ 4 }
{
    displacement_bytes(mod_field(bytes), has_base(bytes))
}

/// The length of ModRM, SIB and displacement.
pub fn address_length(bytes: &[u8]) -> usize
    ensures is { result ≡ address_length bytes.now }
    ensures at_most { result ≤ 6 }
{
    displacement_place(bytes) + displacement_length(bytes)
}

// The displacement, by its length.
fn displacement(bytes: &[u8], len: usize) -> u32
    ensures { result ≡ displacement_of bytes.now len }
{
    match len {
        0 => 0,
        1 => sign_extended(byte_at(bytes, displacement_place(bytes))),
        _ => dword_at(bytes, displacement_place(bytes)),
    }
}

// The factor of a scale field.
fn factor(scale: u8) -> u8
    ensures { result ≡ factor_of scale }
{
    match scale {
        0 => 1,
        1 => 2,
        2 => 4,
        _ => 8,
    }
}

// The memory operand, relative to GS or not.
#[inline(always)]
fn memory(bytes: &[u8], gs: bool) -> Mem
    ensures { result ≡ record (memory_of bytes.now) { gs = gs } }
{
    let sib = byte_at(bytes, 1);
    Mem {
        base: if has_base(bytes) {
            Some(register(base_number(bytes)))
        } else {
            None
        },
        index: if has_index(bytes) {
            Some((register(sib / 8 % 8), factor(sib / 64)))
        } else {
            None
        },
        disp: displacement(bytes, displacement_length(bytes)),
        gs,
    }
}

/// The operand: a register, or memory that is relative to GS or not.
#[inline(always)]
pub fn operand(bytes: &[u8], gs: bool) -> Rm
    ensures { result ≡ with_gs gs (rm_of bytes.now) }
{
    if names_memory(bytes) {
        Rm::M(memory(bytes, gs))
    } else {
        Rm::R(register(rm_field(bytes)))
    }
}
