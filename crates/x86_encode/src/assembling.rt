//! The least bytes that spell operands by a row of the spelling table. Intel SDM, volume 2, chapter 2.

ghost use Rattle.std.specs.Prelude.{◌≡◌, ◌<◌, ◌≤◌, ◌++◌, length, IfSome};
ghost use Rattle.x86_insn.specs.Spelling.{lead_bytes, is_opcode};
ghost use Rattle.x86_insn.specs.declared.row.Immediate.TheVariants.{SignedIb};
ghost use Rattle.x86_encode.specs.Assembling.{same_width, is_memory, group_bytes, word_bytes, segment_bytes, prefix_bytes, fits_half, fits_dword, immediate_bytes, opcode_byte, field_of, takes, addressed_bytes, both, operand_bytes, front_bytes, behind, assembled};

use crate::address::{address_bytes, dword_bytes, half_bytes};
use crate::spelling::Spelling;
use x86_insn::row::{Immediate, Lead, Marks, Operands, Row};
use x86_insn::{Reg, Rep, Rm, Width};

fn same_width(left: Width, right: Width) -> bool
    ensures { result ≡ same_width left right }
{
    match left {
        Width::B => matches!(right, Width::B),
        Width::W => matches!(right, Width::W),
        Width::D => matches!(right, Width::D),
    }
}

fn is_memory(operand: Rm) -> bool
    ensures { result ≡ is_memory operand }
{
    matches!(operand, Rm::M(_))
}

// LOCK, REPNE or REP.
fn group_bytes(lock: bool, rep: Rep) -> Spelling
    ensures is { result ≡ group_bytes lock rep }
    ensures at_most { length result ≤ 1 }
{
    if lock {
        return Spelling::new(&[0xF0]);
    }
    match rep {
        Rep::Once => Spelling::new(&[]),
        Rep::F2 => Spelling::new(&[0xF2]),
        Rep::F3 => Spelling::new(&[0xF3]),
    }
}

fn word_bytes(word: bool) -> Spelling
    ensures is { result ≡ word_bytes word }
    ensures at_most { length result ≤ 1 }
{
    if word {
        Spelling::new(&[0x66])
    } else {
        Spelling::new(&[])
    }
}

fn segment_bytes(gs: bool) -> Spelling
    ensures is { result ≡ segment_bytes gs }
    ensures at_most { length result ≤ 1 }
{
    if gs {
        Spelling::new(&[0x65])
    } else {
        Spelling::new(&[])
    }
}

// The prefixes, in ascending order.
fn prefix_bytes(marks: Marks) -> Spelling
    ensures is { result ≡ prefix_bytes marks }
    ensures at_most { length result ≤ 3 }
{
    let segment_and_word = segment_bytes(marks.gs).and(&word_bytes(marks.word));
    segment_and_word.and(&group_bytes(marks.lock, marks.rep))
}

fn lead_bytes(lead: Lead) -> Spelling
    ensures is { result ≡ lead_bytes lead }
    ensures at_most { length result ≤ 2 }
{
    match lead {
        Lead::Bare => Spelling::new(&[]),
        Lead::Escape => Spelling::new(&[0x0F]),
        Lead::Interrupt => Spelling::new(&[0xCD]),
        Lead::Hint => Spelling::new(&[0x0F, 0x1E]),
    }
}

fn fits_half(number: u32) -> Option<Spelling>
    ensures is { result ≡ fits_half number }
    ensures at_most { IfSome result (λ s. length s ≤ 4) }
{
    if number < 0x1_0000 {
        Some(half_bytes(number))
    } else {
        None
    }
}

fn fits_dword(number: u32) -> Option<Spelling>
    ensures is { result ≡ fits_dword number }
    ensures at_most { IfSome result (λ s. length s ≤ 4) }
{
    Some(dword_bytes(number))
}

// A byte that gives the number when it is extended by its sign to the width.
fn signed_byte(width: Width, number: u32) -> Option<Spelling>
    ensures is { result ≡ immediate_bytes SignedIb width number }
    ensures at_most { IfSome result (λ s. length s ≤ 4) }
{
    let byte = number % 0x100;
    let above = match width {
        Width::B => 0,
        Width::W => 0xFF00,
        Width::D => 0xFFFF_FF00,
    };
    let extended = if byte < 0x80 { byte } else { byte + above };
    if extended == number {
        Some(Spelling::new(&[byte as u8]))
    } else {
        None
    }
}

// None where the immediate doesn't fit.
fn immediate_bytes(immediate: Immediate, width: Width, number: u32) -> Option<Spelling>
    ensures is { result ≡ immediate_bytes immediate width number }
    ensures at_most { IfSome result (λ s. length s ≤ 4) }
{
    match (immediate, width) {
        (Immediate::Absent, _) => {
            if number == 0 {
                Some(Spelling::new(&[]))
            } else {
                None
            }
        }
        (Immediate::Ib, _) => {
            if number < 0x100 {
                Some(Spelling::new(&[number as u8]))
            } else {
                None
            }
        }
        (Immediate::SignedIb, _) => signed_byte(width, number),
        (Immediate::Iw, _) | (Immediate::Iz, Width::W) => fits_half(number),
        (Immediate::Id, _) | (Immediate::Iz, _) => fits_dword(number),
    }
}

// The opcode byte of a number, a register's or a condition's.
fn opcode_byte(row: &Row, number: u8) -> u8
    ensures { result ≡ opcode_byte row.now number }
{
    if row.span == 1 {
        row.opcode
    } else {
        ((row.opcode as u32 / 8 * 8 + number as u32) % 0x100) as u8
    }
}

// ModRM's reg field.
fn field_of(digit: Option<u8>, reg: Reg) -> u8
    ensures is { result ≡ field_of digit reg }
    ensures low { result < 8 }
{
    match digit {
        None => reg.number() as u8,
        Some(digit) => digit % 8,
    }
}

fn is_opcode(row: &Row, byte: u8) -> bool
    ensures { result ≡ is_opcode row.now byte }
{
    row.opcode <= byte && (byte as u32) < row.opcode as u32 + row.span as u32
}

// The row takes the operands, their immediate and address aside.
fn takes(row: &Row, operands: &Operands) -> bool
    ensures { result ≡ takes row.now operands.now }
{
    let form = &row.form;
    let marks = operands.marks;
    let memory = is_memory(operands.rm);
    same_width(form.size.width(marks.word), operands.width)
        && form.takes_marks(marks)
        && form.layout.takes(memory)
        && (!(marks.lock || marks.gs) || memory)
        && is_opcode(row, opcode_byte(row, operands.opcode))
}

fn addressed_bytes(has_modrm: bool, field: u8, operand: Rm) -> Option<Spelling>
    requires { field < 8 }
    ensures is { result ≡ addressed_bytes has_modrm field operand }
    ensures at_most { IfSome result (λ s. length s ≤ 6) }
{
    if has_modrm {
        address_bytes(field, operand)
    } else {
        Some(Spelling::new(&[]))
    }
}

// What follows the opcode byte.
fn operand_bytes(row: &Row, operands: &Operands) -> Option<Spelling>
    ensures is { result ≡ operand_bytes row.now operands.now }
    ensures at_most { IfSome result (λ s. length s ≤ 10) }
{
    let form = &row.form;
    let field = field_of(form.digit, operands.reg);
    match addressed_bytes(form.layout.has_modrm(), field, operands.rm) {
        None => None,
        Some(address) => {
            match immediate_bytes(form.immediate, operands.width, operands.immediate) {
                None => None,
                Some(immediate) => Some(address.and(&immediate)),
            }
        }
    }
}

// Prefixes, lead and opcode byte.
fn front_bytes(row: &Row, operands: &Operands) -> Spelling
    ensures is { result ≡ front_bytes row.now operands.now }
    ensures at_most { length result ≤ 6 }
{
    let opcode = Spelling::new(&[opcode_byte(row, operands.opcode)]);
    prefix_bytes(operands.marks).and(&lead_bytes(row.lead).and(&opcode))
}

/// The least bytes that spell the operands by the row; none where it can't spell them.
#[tactic(auto, unfolding(crate::specs::Assembling::assembled))]
pub fn assembled(row: &Row, operands: &Operands) -> Option<Spelling>
    ensures { result ≡ assembled row.now operands.now }
{
    if !takes(row, operands) {
        return None;
    }
    match operand_bytes(row, operands) {
        None => None,
        Some(behind) => Some(front_bytes(row, operands).and(&behind)),
    }
}
