//! A source as a whole.

ghost use Rattle.std.specs.Prelude.{◌≡◌, ◌+◌, ℕ, IfOk, IfErr, None};
ghost use Rattle.elf32_read.specs.Faults.{refusal};
ghost use Rattle.mini_asm.specs.declared.assembling.AsmFault.TheVariants as fault;
ghost use Rattle.mini_asm.specs.Faults.{IsFault};
ghost use Rattle.mini_asm.specs.Reads.{AreGood};
ghost use Rattle.mini_asm.specs.Sources.{IsAssembled};

use crate::judging::misfit;
use crate::labels::labels_of;
use crate::listings::Assembled;
use crate::source::{Forms, bad_line, read_forms};
use crate::spots::spots_of;
use crate::writing::{code_of, lines_of};
use elf32_read::code_image;
use mv_base::NoMemory;
use std::alloc::Global;
use thiserror::Error;

/// Why a source isn't assembled.
#[derive(Clone, Copy, Debug, PartialEq, Eq, Drop, Error)]
pub enum AsmFault {
    /// The line that is at fault, counted from 1.
    #[error("line {0} is at fault")]
    Line(u64),
    #[error("no memory")]
    NoMemory,
}

impl From<NoMemory> for AsmFault {
    ghost use Rattle.std.specs.Prelude.{◌≡◌};
    ghost use Rattle.mini_asm.specs.declared.assembling.AsmFault.TheVariants as fault;

    ghost from_gives = { λ _ e. e ≡ fault.NoMemory };

    fn from(_error: NoMemory) -> AsmFault {
        AsmFault::NoMemory
    }
}

/// The number of the line at a place.
fn number(place: usize) -> Result<u64, AsmFault>
    ensures is { IfOk result (λ n. n ≡ place + 1) }
    ensures fault { IfErr result (λ e. e ≡ fault.NoMemory) }
{
    (place as u64).checked_add(1).ok_or(AsmFault::NoMemory)
}

/// The image that a source assembles to, which has no fault, and its lines that have bytes, with their addresses. The work is
/// linear in the source, but for the labels, which are looked up by their names.
///
/// # Errors
///
/// `Line` with the number of the line that is at fault, where one is; `NoMemory` where memory is wanted.
pub fn assemble(alloc: Global, source: &[u8]) -> Result<Assembled, AsmFault>
    ensures assembled { IfOk result (λ done.
        IsAssembled source.now done.bytes.items done.lines.items) }
    ensures image { IfOk result (λ done. refusal done.bytes.items ≡ None) }
    ensures faultless { IfOk result (λ _. (n : ℕ) → IsFault source.now n → ⊥) }
    ensures fault { IfErr result (λ e. (n : ℕ) → e ≡ fault.Line n → IsFault source.now n) }
{
    let forms = read_forms(alloc, source)?;
    match bad_line(alloc, &forms)? {
        Some(place) => Err(AsmFault::Line(number(place)?)),
        None => assemble_good(alloc, source, &forms),
    }
}

/// The same of a source whose lines are all good.
fn assemble_good(alloc: Global, _source: &[u8], forms: &Forms) -> Result<Assembled, AsmFault>
    requires { AreGood _source.now forms.now.items.items }
    ensures assembled { IfOk result (λ done.
        IsAssembled _source.now done.bytes.items done.lines.items) }
    ensures image { IfOk result (λ done. refusal done.bytes.items ≡ None) }
    ensures faultless { IfOk result (λ _. (n : ℕ) → IsFault _source.now n → ⊥) }
    ensures fault { IfErr result (λ e. (n : ℕ) → e ≡ fault.Line n → IsFault _source.now n) }
{
    let forms = forms.items.as_slice();
    let labels = labels_of(alloc, forms)?;
    let spots = spots_of(alloc, forms)?;
    let spots = spots.as_slice();
    if let Some(place) = misfit(&labels, forms, spots) {
        return Err(AsmFault::Line(number(place)?));
    }
    let lines = lines_of(alloc, &labels, forms, spots)?;
    let code = code_of(alloc, lines.as_slice())?;
    Ok(Assembled {
        bytes: code_image(alloc, code.as_slice())?,
        lines,
    })
}
