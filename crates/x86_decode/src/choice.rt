//! The form by which bytes begin an instruction, found by the opcode and ModRM's reg field before any operand is read.

ghost use Rattle.std.specs.Prelude.{◌≡◌, ◌≤◌, ◌+◌, [], ◌∷◌};
ghost use Rattle.x86_insn.specs.Scanning.{later, scan_operands};
ghost use Rattle.x86_decode.specs.Candidates.{rows_behind, scan_rest, scan_forms, may_take};
ghost use Rattle.x86_decode.specs.Choice.{IsChoice};
ghost use Rattle.x86_decode.specs.declared.choice.Choice.TheVariants.{Nowhere};

use crate::address::reg_field;
use crate::form::{from_modrm, operand_length, takes_digit, takes_modrm};
use crate::opcode_map::{one_byte, two_byte};
use x86_insn::row::{Form, Marks};

/// What bytes behind prefixes begin.
#[derive(Clone, Copy)]
pub enum Choice<'a> {
    /// An instruction of `len` bytes by a form. Its operand bytes are at the front of `operands`.
    By {
        form: &'static Form,
        opcode: u8,
        operands: &'a [u8],
        len: usize,
    },
    /// No instruction, however many bytes follow.
    Nowhere,
    /// It isn't said.
    Open,
}

/// The form of bytes behind prefixes that set these marks.
#[inline(always)]
pub fn choose<'a>(bytes: &'a [u8], marks: &Marks) -> Choice<'a>
    ensures { IsChoice result marks.now (scan_rest (rows_behind []) marks.now bytes.now) }
{
    match bytes.split_first() {
        None => Choice::Open,
        Some((0x0F, rest)) => choose_escaped(rest, marks),
        Some((0xCD, _)) => Choice::Open,
        Some((opcode, rest)) => choose_among(one_byte(*opcode), *opcode, rest, marks, 1),
    }
}

// The form of the bytes behind 0F.
#[inline(always)]
fn choose_escaped<'a>(bytes: &'a [u8], marks: &Marks) -> Choice<'a>
    ensures { IsChoice result marks.now
        (later 1 (scan_rest (rows_behind (0x0F ∷ [])) marks.now bytes.now)) }
{
    match bytes.split_first() {
        None => Choice::Open,
        Some((0x1E, _)) => Choice::Open,
        Some((opcode, rest)) => choose_among(two_byte(*opcode), *opcode, rest, marks, 2),
    }
}

// The form of operand bytes behind `before` bytes, of these forms.
#[inline(always)]
fn choose_among<'a>(
    forms: &'static [Form],
    opcode: u8,
    bytes: &'a [u8],
    marks: &Marks,
    before: usize,
) -> Choice<'a>
    requires { before ≤ 2 }
    ensures { IsChoice result marks.now
        (later before (scan_forms forms.now marks.now opcode bytes.now)) }
{
    for form in forms {
        if may_take(form, bytes) {
            return choose_or_leave(form, opcode, bytes, marks, before);
        }
    }
    Choice::Nowhere
}

// ModRM's reg field lets the form be the one that is meant; so it does where no byte is there.
fn may_take(form: &Form, bytes: &[u8]) -> bool
    ensures { result ≡ may_take form.now bytes.now }
{
    bytes.is_empty() || takes_digit(form.digit, reg_field(from_modrm(form, bytes)))
}

// This form, where the bytes are an instruction's by it.
#[inline(always)]
fn choose_or_leave<'a>(
    form: &'static Form,
    opcode: u8,
    bytes: &'a [u8],
    marks: &Marks,
    before: usize,
) -> Choice<'a>
    requires { before ≤ 2 }
    ensures by { IsChoice result marks.now
        (later before (scan_operands form.now marks.now opcode bytes.now)) }
    ensures somewhere { result ≡ Nowhere → ⊥ }
{
    if bytes.is_empty() || !form.takes_marks(*marks) || !takes_modrm(form, *marks, bytes) {
        return Choice::Open;
    }
    let len = operand_length(form, *marks, bytes);
    if len <= bytes.len() {
        Choice::By {
            form,
            opcode,
            operands: bytes,
            len: before + len,
        }
    } else {
        Choice::Open
    }
}
