//! Where the lines of a source stand, and how many bytes they have.

ghost use Rattle.std.specs.Prelude.{◌≡◌, ◌≤◌, IfOk};
ghost use Rattle.elf32_read.specs.CodeImage.{code_base};
ghost use Rattle.mini_asm.specs.Spots.{AreSpots, IsSizeOf};

use crate::form::Form;
use crate::sizes::size;
use mv_base::NoMemory;
use std::alloc::Global;

/// Where the first line stands.
const BASE: u32 = 0x0804_8054;

/// How many bytes a line has at most.
const MOST: usize = 4096;

/// Where a line stands, modulo 2^32, and how many bytes it has.
#[derive(Clone, Copy, Drop)]
pub(crate) struct Spot {
    pub(crate) at: u32,
    pub(crate) size: u32,
}

/// How many bytes a form has.
fn form_size(form: &Option<Form>) -> u32
    ensures { IsSizeOf form.now result }
{
    match form {
        None | Some(Form::Nothing | Form::Label(_)) => 0,
        Some(Form::Raw(bytes)) => bytes.len().min(MOST) as u32,
        Some(Form::Code(insn) | Form::Aimed(insn, _)) => size(insn) as u32,
    }
}

/// Where forms stand, from the first line on.
pub(crate) fn spots_of(alloc: Global, forms: &[Option<Form>]) -> Result<Vec<Spot>, NoMemory>
    ensures { IfOk result (λ spots. AreSpots code_base forms.now spots.items) }
{
    let mut spots = Vec::new(alloc);
    let mut at = BASE;
    for form in forms {
        let size = form_size(form);
        spots.push(Spot { at, size })?;
        at = at.wrapping_add(size);
    }
    Ok(spots)
}
