//! One line as an instruction: the only candidate is made, and its text is compared with the line.

ghost use Rattle.std.specs.Prelude.{◌≡◌, ◌↔◌, IfOk, IsTrue};
ghost use Rattle.insn_text.specs.Text.{text_of};
ghost use Rattle.mini_asm.specs.Lines.{HasSpelling, IsJudged, IsJudgment, IsReading, loop_target as loop_target_of};

use crate::building::{candidate, relative};
use insn_text::text;
use mv_base::NoMemory;
use std::alloc::Global;
use x86_encode::encoded;
use x86_insn::Insn;

/// Whether some bytes spell an instruction.
fn has_spelling(insn: &Insn) -> bool
    ensures { IsTrue result ↔ HasSpelling insn.now }
{
    encoded(insn).is_some()
}

/// Where a loop goes.
fn loop_target(insn: &Insn) -> Option<u32>
    ensures { result ≡ loop_target_of insn.now }
{
    match *insn {
        Insn::Loop { kind: _, rel } => Some(rel),
        _ => None,
    }
}

/// Whether an instruction has a spelling, or is a loop, however far it goes.
fn is_judged(insn: &Insn) -> bool
    ensures { IsTrue result ↔ IsJudged insn.now }
{
    match loop_target(insn) {
        Some(to) => to <= u32::MAX,
        None => has_spelling(insn),
    }
}

/// Whether a line is the text of an instruction, where `next` is the address behind it.
fn is_text(alloc: Global, insn: &Insn, next: u32, line: &[u8]) -> Result<bool, NoMemory>
    ensures { IfOk result (λ is. IsTrue is ↔ (text_of insn.now next ≡ line.now)) }
{
    let mut shown = Vec::new(alloc);
    text(insn, next, &mut shown)?;
    Ok(shown.as_slice() == line)
}

/// The instruction with a spelling whose text the line is, where `next` is the address behind it; there is one at most.
///
/// # Errors
///
/// `NoMemory`.
pub fn read_line(alloc: Global, line: &[u8], next: u32) -> Result<Option<Insn>, NoMemory>
    ensures { IfOk result (IsReading line.now next) }
{
    let Some(found) = candidate(line) else {
        return Ok(None);
    };
    let insn = relative(next, found);
    if is_text(alloc, &insn, next, line)? && has_spelling(&insn) {
        Ok(Some(insn))
    } else {
        Ok(None)
    }
}

/// The same of a line whose address is not known: of a direct transfer the number is where it goes, and how far a loop
/// goes isn't judged.
pub(crate) fn judged_line(alloc: Global, line: &[u8]) -> Result<Option<Insn>, NoMemory>
    ensures { IfOk result (IsJudgment line.now) }
{
    let Some(found) = candidate(line) else {
        return Ok(None);
    };
    if is_text(alloc, &found, 0, line)? && is_judged(&found) {
        Ok(Some(found))
    } else {
        Ok(None)
    }
}
