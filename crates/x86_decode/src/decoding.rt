//! Decoding: the instruction that the first bytes of a list spell. Intel SDM, volume 2.

ghost use Rattle.std.specs.Prelude.{◌≡◌, ◌≤◌, ◌<◌, ◌+◌, [], ◌∷◌, length};
ghost use Rattle.x86_insn.specs.Scanning.{later};
ghost use Rattle.x86_insn.specs.Rows.{rows};
ghost use Rattle.x86_decode.specs.Candidates.{rows_behind, forms_at, scan_rest, scan_forms};
ghost use Rattle.x86_decode.specs.Reading.{scan_of, len_of, decided};
ghost use Rattle.x86_decode.specs.Decoding.{IsDecoded};

use crate::choice::{Choice, choose};
use crate::form::{operands_of, scan_forms, scan_operands};
use crate::meaning::meaning;
use crate::opcode_map::{hint, interrupt, one_byte, two_byte};
use crate::prefixes::{asks_memory, marks_of, may_stand_together, prefix_count};
use crate::reading::Reading;
use x86_insn::row::Marks;
use x86_insn::{Insn, Rep};

/// The most bytes that an instruction has.
const LIMIT: usize = 15;

/// What bytes decode to. The three answers are this project's own.
#[derive(Clone, Copy)]
pub enum Decoded {
    /// The first `len` bytes are a spelling of the instruction.
    Insn { insn: Insn, len: u8 },
    /// No front of the bytes is a spelling, and more bytes can make them one.
    Short,
    /// No front of the bytes is a spelling, and no more bytes make them one.
    Unknown,
}

/// The instruction that a front of the bytes spells, with the front's length. It looks at no more than 15 bytes and
/// takes no memory.
#[inline(always)]
pub fn decode(bytes: &[u8]) -> Decoded
    ensures { IsDecoded bytes.now result }
{
    let seen = &bytes[..bytes.len().min(LIMIT)];
    let count = prefix_count(seen);
    let (prefixes, body) = seen.split_at(count);
    if !may_stand_together(prefixes) {
        return Decoded::Unknown;
    }
    let marks = marks_of(prefixes);
    match choose(body, &marks) {
        Choice::By {
            form,
            opcode,
            operands,
            len,
        } if len <= LIMIT - count => Decoded::Insn {
            insn: meaning(form.kind, &operands_of(form, marks, opcode, operands)),
            len: (count + len) as u8,
        },
        Choice::Nowhere => Decoded::Unknown,
        _ => decode_openly(body, marks, count),
    }
}

// The same where nothing is chosen, by all forms, behind `count` bytes of prefixes.
#[cold]
fn decode_openly(body: &[u8], marks: Marks, count: usize) -> Decoded
    requires { count ≤ 15 }
    ensures { result ≡ decided (later count (scan_rest (rows_behind []) marks body.now)) }
{
    match scan_body(body, marks).later(count) {
        Reading::Found { insn, len } if len <= LIMIT => Decoded::Insn {
            insn,
            len: len as u8,
        },
        Reading::More { len } if len <= LIMIT => Decoded::Short,
        _ => Decoded::Unknown,
    }
}

// What the bytes behind the prefixes come to.
fn scan_body(bytes: &[u8], marks: Marks) -> Reading
    ensures is { scan_of result ≡ scan_rest (rows_behind []) marks bytes.now }
    ensures len { len_of (scan_of result) ≤ 13 }
{
    match bytes.split_first() {
        None => lacks_opcode(marks),
        Some((0x0F, rest)) => scan_escaped(rest, marks).later(1),
        Some((0xCD, rest)) => scan_interrupt(rest, marks).later(1),
        Some((opcode, rest)) => scan_one_byte(*opcode, rest, marks).later(1),
    }
}

// What the bytes behind 0F come to.
fn scan_escaped(bytes: &[u8], marks: Marks) -> Reading
    ensures is { scan_of result ≡ scan_rest (rows_behind (0x0F ∷ [])) marks bytes.now }
    ensures len { len_of (scan_of result) ≤ 12 }
{
    match bytes.split_first() {
        None => lacks_escaped(marks),
        Some((0x1E, rest)) => scan_hint(rest, marks).later(1),
        Some((opcode, rest)) => scan_two_byte(*opcode, rest, marks).later(1),
    }
}

// What the bytes behind CD come to.
fn scan_interrupt(bytes: &[u8], marks: Marks) -> Reading
    ensures is { scan_of result ≡ scan_rest (rows_behind (0xCD ∷ [])) marks bytes.now }
    ensures len { len_of (scan_of result) ≤ 11 }
{
    let Some((number, rest)) = bytes.split_first() else {
        return lacks_number(marks);
    };
    match interrupt(*number) {
        Some(form) => scan_operands(&form, marks, *number, rest).later(1),
        None => Reading::Nothing,
    }
}

// What the bytes behind 0F 1E come to.
fn scan_hint(bytes: &[u8], marks: Marks) -> Reading
    ensures is { scan_of result ≡ scan_rest (rows_behind (0x0F ∷ 0x1E ∷ [])) marks bytes.now }
    ensures len { len_of (scan_of result) ≤ 11 }
{
    let Some((opcode, rest)) = bytes.split_first() else {
        return lacks_hint(marks);
    };
    match hint(*opcode) {
        Some(form) => scan_operands(&form, marks, *opcode, rest).later(1),
        None => Reading::Nothing,
    }
}

// What operand bytes come to behind a one-byte opcode.
fn scan_one_byte(opcode: u8, bytes: &[u8], marks: Marks) -> Reading
    ensures is { scan_of result ≡ scan_forms (forms_at opcode (rows_behind [])) marks opcode
        bytes.now }
    ensures len { len_of (scan_of result) ≤ 10 }
{
    scan_forms(one_byte(opcode), marks, opcode, bytes)
}

// What operand bytes come to behind an opcode behind 0F.
fn scan_two_byte(opcode: u8, bytes: &[u8], marks: Marks) -> Reading
    ensures is { scan_of result ≡ scan_forms (forms_at opcode (rows_behind (0x0F ∷ []))) marks
        opcode bytes.now }
    ensures len { len_of (scan_of result) ≤ 10 }
{
    scan_forms(two_byte(opcode), marks, opcode, bytes)
}

// No byte is there behind the prefixes. LOCK and GS ask for an operand byte.
fn lacks_opcode(marks: Marks) -> Reading
    ensures is { scan_of result ≡ scan_rest (rows_behind []) marks [] }
    ensures len { len_of (scan_of result) ≤ 2 }
{
    match (asks_memory(marks), marks.rep) {
        (false, _) => Reading::More { len: 1 },
        (true, Rep::Once) => Reading::More { len: 2 },
        (true, Rep::F3) | (true, Rep::F2) => Reading::Nothing,
    }
}

// No byte is there behind 0F: UD2 takes no prefix that sets anything, and ENDBR32 takes F3.
fn lacks_escaped(marks: Marks) -> Reading
    ensures is { scan_of result ≡ scan_rest (rows_behind (0x0F ∷ [])) marks [] }
    ensures len { len_of (scan_of result) ≤ 2 }
{
    match (marks.rep, asks_memory(marks), marks.word) {
        (Rep::Once, false, false) => Reading::More { len: 1 },
        (Rep::Once, _, _) | (Rep::F3, false, false) => Reading::More { len: 2 },
        (Rep::F3, _, _) | (Rep::F2, _, _) => Reading::Nothing,
    }
}

// No byte is there behind CD.
fn lacks_number(marks: Marks) -> Reading
    ensures is { scan_of result ≡ scan_rest (rows_behind (0xCD ∷ [])) marks [] }
    ensures len { len_of (scan_of result) ≤ 1 }
{
    match (marks.rep, asks_memory(marks), marks.word) {
        (Rep::Once, false, false) => Reading::More { len: 1 },
        _ => Reading::Nothing,
    }
}

// No byte is there behind 0F 1E.
fn lacks_hint(marks: Marks) -> Reading
    ensures is { scan_of result ≡ scan_rest (rows_behind (0x0F ∷ 0x1E ∷ [])) marks [] }
    ensures len { len_of (scan_of result) ≤ 1 }
{
    match (marks.rep, asks_memory(marks), marks.word) {
        (Rep::F3, false, false) => Reading::More { len: 1 },
        _ => Reading::Nothing,
    }
}
