//! The lines of a source, by their forms.

ghost use Rattle.std.specs.Prelude.{◌≡◌, ℕ, List, length, if◌then◌else◌, Some, None, IfOk, IfSome, IfNone, IsTrue};
ghost use Rattle.mini_asm.specs.Faults.{is_line};
ghost use Rattle.mini_asm.specs.Reads.{AreForms, IsBadAt, IsNextLine};

use crate::form::{Form, read_form};
use crate::labels::{first_misplaced, labels_of};
use memchr::memchr;
use mv_base::NoMemory;
use std::alloc::Global;

/// The forms of a source's lines, none for what is no line by itself, and whether a line feed ends the last line.
#[derive(Drop)]
pub(crate) struct Forms {
    pub(crate) items: Vec<Option<Form>>,
    pub(crate) whole: bool,
}

/// A text's first line, and what stands behind its line feed.
fn next_line(text: &[u8]) -> Option<(&[u8], &[u8])>
    ensures some { IfSome result (λ p. IsNextLine text.now p.0.now p.1.now) }
    ensures none { IfNone result (IsTrue (is_line text.now)) }
{
    let (line, behind) = text.split_at(memchr(b'\n', text)?);
    Some((line, &behind[1..]))
}

/// The forms of a source's lines.
pub(crate) fn read_forms(alloc: Global, source: &[u8]) -> Result<Forms, NoMemory>
    ensures { IfOk result (λ f. AreForms source.now f.items.items f.whole) }
{
    let mut items = Vec::new(alloc);
    let mut rest = source;
    while !rest.is_empty() {
        let Some((line, behind)) = next_line(rest) else {
            return Ok(Forms {
                items,
                whole: false,
            });
        };
        items.push(read_form(alloc, line)?)?;
        rest = behind;
    }
    Ok(Forms { items, whole: true })
}

/// The place of the first line that is no line of a source.
pub(crate) fn bad_line(alloc: Global, forms: &Forms) -> Result<Option<usize>, NoMemory>
    ensures { IfOk result (λ bad. (source : List ℕ) → AreForms source forms.now.items.items
        forms.now.whole → IsBadAt source forms.now.items.items bad) }
{
    let labels = labels_of(alloc, forms.items.as_slice())?;
    match first_misplaced(&labels, forms.items.as_slice()) {
        Some(place) => Ok(Some(place)),
        None => Ok(unfinished(forms)),
    }
}

/// The place of what no line feed ends.
fn unfinished(forms: &Forms) -> Option<usize>
    ensures { result ≡ (if forms.now.whole then None else Some (length forms.now.items.items)) }
{
    if forms.whole {
        None
    } else {
        Some(forms.items.len())
    }
}
