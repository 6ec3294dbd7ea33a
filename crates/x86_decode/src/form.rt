//! What the bytes after the opcode come to by a form of the spelling table. Intel SDM, volume 2, chapter 2.

ghost use Rattle.std.specs.Prelude.{◌≡◌, ◌+◌, ◌≤◌, ◌<◌, IsTrue};
ghost use Rattle.x86_insn.specs.Addressing.{byte_at};
ghost use Rattle.x86_insn.specs.Spelling.{has_modrm, takes_digit, immediate_length, signed_byte, half_number, immediate_of, from_modrm, immediate_place, operand_length, takes_modrm, operands_of};
ghost use Rattle.x86_insn.specs.Scanning.{mod_of, digit_of, seeded, scan_operands};
ghost use Rattle.x86_decode.specs.Candidates.{scan_forms};
ghost use Rattle.x86_decode.specs.Reading.{scan_of, len_of};

use crate::address::{
    address_length, byte_at, dword_at, names_memory, operand, reg_field, register, sign_extended,
};
use crate::meaning::meaning;
use crate::prefixes::asks_memory;
use crate::reading::Reading;
use x86_insn::Width;
use x86_insn::row::{Form, Immediate, Layout, Marks, Operands};

pub fn takes_digit(digit: Option<u8>, field: u8) -> bool
    ensures { result ≡ takes_digit digit field }
{
    match digit {
        None => true,
        Some(wanted) => field == wanted,
    }
}

fn immediate_length(immediate: Immediate, width: Width) -> usize
    ensures is { result ≡ immediate_length immediate width }
    ensures at_most { result ≤ 4 }
{
    match (immediate, width) {
        (Immediate::Absent, _) => 0,
        (Immediate::Ib, _) | (Immediate::SignedIb, _) => 1,
        (Immediate::Iw, _) | (Immediate::Iz, Width::W) => 2,
        (Immediate::Id, _) | (Immediate::Iz, _) => 4,
    }
}

// A byte extended by its sign to a width.
fn signed_byte(width: Width, byte: u8) -> u32
    ensures { result ≡ signed_byte width byte }
{
    match width {
        Width::B => byte as u32,
        Width::W => {
            if byte < 0x80 {
                byte as u32
            } else {
                byte as u32 + 0xFF00
            }
        }
        Width::D => sign_extended(byte),
    }
}

// The number that two bytes spell from a place on.
fn half_number(bytes: &[u8], place: usize) -> u32
    requires { place < 16 }
    ensures { result ≡ half_number bytes.now place }
{
    byte_at(bytes, place) as u32 + 0x100 * byte_at(bytes, place + 1) as u32
}

fn immediate_of(immediate: Immediate, width: Width, bytes: &[u8], place: usize) -> u32
    requires { place < 16 }
    ensures { result ≡ immediate_of immediate width bytes.now place }
{
    match (immediate, width) {
        (Immediate::Absent, _) => 0,
        (Immediate::Ib, _) => byte_at(bytes, place) as u32,
        (Immediate::SignedIb, _) => signed_byte(width, byte_at(bytes, place)),
        (Immediate::Iw, _) | (Immediate::Iz, Width::W) => half_number(bytes, place),
        (Immediate::Id, _) | (Immediate::Iz, _) => dword_at(bytes, place),
    }
}

// The bytes from ModRM on, of operand bytes; none where there is no ModRM byte.
pub fn from_modrm<'a>(form: &Form, bytes: &'a [u8]) -> &'a [u8]
    ensures { result.now ≡ from_modrm form.now bytes.now }
{
    if form.layout.has_modrm() { bytes } else { &[] }
}

// Where the immediate stands.
fn immediate_place(form: &Form, bytes: &[u8]) -> usize
    ensures is { result ≡ immediate_place (has_modrm form.now.layout) bytes.now }
    ensures at_most { result ≤ 6 }
{
    if form.layout.has_modrm() {
        address_length(bytes)
    } else {
        0
    }
}

#[inline(always)]
pub fn operand_length(form: &Form, marks: Marks, bytes: &[u8]) -> usize
    ensures is { result ≡ operand_length form.now marks bytes.now }
    ensures at_most { result ≤ 10 }
{
    immediate_place(form, bytes) + immediate_length(form.immediate, form.size.width(marks.word))
}

// ModRM is one of the form's, and names memory where the prefixes ask for it.
#[inline(always)]
pub fn takes_modrm(form: &Form, marks: Marks, bytes: &[u8]) -> bool
    ensures { result ≡ takes_modrm form.now marks bytes.now }
{
    let modrm = from_modrm(form, bytes);
    takes_digit(form.digit, reg_field(modrm))
        && form.layout.takes(names_memory(modrm))
        && (!asks_memory(marks) || names_memory(modrm))
}

#[inline(always)]
pub fn operands_of(form: &Form, marks: Marks, opcode: u8, bytes: &[u8]) -> Operands
    ensures { result ≡ operands_of form.now marks opcode bytes.now }
{
    let modrm = from_modrm(form, bytes);
    let width = form.size.width(marks.word);
    Operands {
        width,
        marks,
        opcode,
        reg: register(reg_field(modrm)),
        rm: operand(modrm, marks.gs),
        immediate: immediate_of(form.immediate, width, bytes, immediate_place(form, bytes)),
    }
}

// The ModRM byte that a form takes and that fewest bytes follow.
fn seed(form: &Form) -> u8
    ensures { result ≡ mod_of form.now.layout + digit_of form.now.digit }
{
    let mode = match form.layout {
        Layout::NoModrm | Layout::Any | Layout::Memory => 0,
        Layout::Register => 0xC0,
    };
    match form.digit {
        None => mode,
        Some(digit) => mode + 8 * (digit % 8),
    }
}

// What operand bytes come to by a form.
pub fn scan_operands(form: &Form, marks: Marks, opcode: u8, bytes: &[u8]) -> Reading
    ensures is { scan_of result ≡ scan_operands form.now marks opcode bytes.now }
    ensures len { len_of (scan_of result) ≤ 10 }
{
    let seed = [seed(form)];
    let seeded = if bytes.is_empty() { &seed } else { bytes };
    if !form.takes_marks(marks) || !takes_modrm(form, marks, seeded) {
        return Reading::Nothing;
    }
    let len = operand_length(form, marks, seeded);
    if len <= bytes.len() {
        let operands = operands_of(form, marks, opcode, bytes);
        Reading::Found {
            insn: meaning(form.kind, &operands),
            len,
        }
    } else {
        Reading::More { len }
    }
}

/// What operand bytes come to by any of these forms.
pub fn scan_forms(forms: &[Form], marks: Marks, opcode: u8, bytes: &[u8]) -> Reading
    ensures is { scan_of result ≡ scan_forms forms.now marks opcode bytes.now }
    ensures len { len_of (scan_of result) ≤ 10 }
{
    let mut reading = Reading::Nothing;
    for form in forms {
        reading = reading.best(scan_operands(form, marks, opcode, bytes));
    }
    reading
}
