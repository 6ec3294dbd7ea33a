//! The bytes and the text of lines whose places are known.

ghost use Rattle.std.specs.Prelude.{◌≡◌, ◌+◌, ◌++◌, ◌∷◌, codes, length, IfOk, OnOk};
ghost use Rattle.std.specs.List.{flat_map};
ghost use Rattle.mv_base.specs.Bytes.{word};
ghost use Rattle.mv_base.specs.Text.{hex_text};
ghost use Rattle.x86_insn.specs.Meaning.{cond_number};
ghost use Rattle.mini_asm.specs.declared.listings.Listed.{Listed as Entry};
ghost use Rattle.mini_asm.specs.Labels.{place_of};
ghost use Rattle.mini_asm.specs.Spots.{address_in};
ghost use Rattle.mini_asm.specs.Writing.{code_line as code_line_of, line_of as form_line_of, lines_of as lines_of_forms, long as long_of, raw_line as raw_line_of, written};

use crate::building::relative;
use crate::form::Form;
use crate::judging::placed;
use crate::labels::Labels;
use crate::listings::Listed;
use crate::spots::Spot;
use insn_text::text;
use mv_base::{Bytes, NoMemory, put_hex_pairs};
use std::alloc::Global;
use x86_encode::encoded;
use x86_encode::spelling::Spelling;
use x86_insn::{Cond, Insn};

/// A jump with four bytes of displacement.
fn jump(rel: u32) -> Spelling
    ensures { result ≡ 0xE9 ∷ word rel }
{
    let rel = rel.to_le_bytes();
    Spelling::new(&[0xe9, rel[0], rel[1], rel[2], rel[3]])
}

/// A branch with four bytes of displacement.
fn branch(cond: Cond, rel: u32) -> Spelling
    ensures { result ≡ 0x0F ∷ (0x80 + cond_number cond) ∷ word rel }
{
    let rel = rel.to_le_bytes();
    Spelling::new(&[0x0f, 0x80 + cond.number(), rel[0], rel[1], rel[2], rel[3]])
}

/// The bytes of a direct jump or branch.
fn long(insn: Insn) -> Option<Spelling>
    ensures { result ≡ long_of insn }
{
    match insn {
        Insn::Jump { rel } => Some(jump(rel)),
        Insn::Branch { cond, rel } => Some(branch(cond, rel)),
        _ => None,
    }
}

/// The bytes of an instruction.
fn bytes_of(insn: Insn) -> Spelling
    ensures { result ≡ written insn }
{
    if let Some(bytes) = long(insn) {
        return bytes;
    }
    match encoded(&insn) {
        Some(bytes) => bytes,
        None => Spelling::new(&[]),
    }
}

/// An instruction at its place.
fn code_line(alloc: Global, insn: Insn, spot: Spot) -> Result<Listed, NoMemory>
    ensures { IfOk result (λ line. line ≡ code_line_of insn spot) }
{
    let next = spot.at.wrapping_add(spot.size);
    let insn = relative(next, insn);
    let mut shown = Vec::new(alloc);
    text(&insn, next, &mut shown)?;
    Ok(Listed {
        at: spot.at,
        bytes: Bytes::new(bytes_of(insn).as_slice().to_vec(alloc)?),
        text: Bytes::new(shown),
    })
}

/// The text of bytes as they stand.
fn raw_text(alloc: Global, bytes: &[u8]) -> Result<Vec<u8>, NoMemory>
    ensures { IfOk result (λ text. text.items ≡ codes "bytes " ++ hex_text bytes.now) }
{
    let mut text = b"bytes ".as_slice().to_vec(alloc)?;
    put_hex_pairs(bytes, &mut text)?;
    Ok(text)
}

/// Bytes as they stand, at their place.
fn raw_line(alloc: Global, bytes: &[u8], spot: Spot) -> Result<Listed, NoMemory>
    ensures { IfOk result (λ line. line ≡ raw_line_of bytes.now spot) }
{
    Ok(Listed {
        at: spot.at,
        bytes: Bytes::new(bytes.to_vec(alloc)?),
        text: Bytes::new(raw_text(alloc, bytes)?),
    })
}

/// The line of a form at its place, where it has bytes.
fn line_of(
    alloc: Global,
    labels: &Labels<'_>,
    spots: &[Spot],
    form: &Option<Form>,
    spot: Spot,
) -> Result<Option<Listed>, NoMemory>
    ensures { IfOk result (λ line. line ≡ form_line_of (address_in (place_of labels.now)
        spots.now) form.now spot) }
{
    if let Some(Form::Raw(bytes)) = form {
        return Ok(Some(raw_line(alloc, bytes.as_slice(), spot)?));
    }
    match placed(labels, spots, form) {
        Some(insn) => Ok(Some(code_line(alloc, insn, spot)?)),
        None => Ok(None),
    }
}

/// The lines that have bytes.
pub(crate) fn lines_of(
    alloc: Global,
    labels: &Labels<'_>,
    forms: &[Option<Form>],
    spots: &[Spot],
) -> Result<Vec<Listed>, NoMemory>
    requires { length forms.now ≡ length spots.now }
    ensures { IfOk result (λ lines. lines.items ≡ lines_of_forms (address_in (place_of labels.now)
        spots.now) forms.now spots.now) }
{
    let mut lines = Vec::new(alloc);
    for (place, form) in forms.iter().enumerate() {
        if let Some(line) = line_of(alloc, labels, spots, form, spots[place])? {
            lines.push(line)?;
        }
    }
    Ok(lines)
}

/// The bytes of lines, one behind the other.
pub(crate) fn code_of(alloc: Global, lines: &[Listed]) -> Result<Vec<u8>, NoMemory>
    ensures { IfOk result (λ code. code.items ≡ flat_map (λ (l : Entry). l.bytes) lines.now) }
{
    let mut code = Vec::new(alloc);
    for line in lines {
        code.extend_from_slice(line.bytes.as_slice())?;
    }
    Ok(code)
}
