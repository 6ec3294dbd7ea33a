//! What is at fault in a source whose lines are all good: a loop that goes too far, too much code or none.

ghost use Rattle.std.specs.Prelude.{◌≡◌, ◌≤◌, ◌+◌, ◌<◌, ℕ, List, length, take, IfOk, IfErr};
ghost use Rattle.mini_asm.specs.Faults.{most_code};
ghost use Rattle.mini_asm.specs.Labels.{place_of};
ghost use Rattle.mini_asm.specs.Spots.{FirstFar, FirstMisfit, IsFull, address_in, is_far as is_far_of, is_long as is_long_of, placed as placed_of, placed_form as placed_form_of, total, with_target as with_target_of};

use crate::form::Form;
use crate::labels::Labels;
use crate::spots::Spot;
use x86_insn::Insn;

/// How many bytes of code there are at most.
const MOST_CODE: u32 = 1_048_576;

/// The address of a label.
fn address(labels: &Labels<'_>, spots: &[Spot], name: &[u8]) -> u32
    ensures { result ≡ address_in (place_of labels.now) spots.now name.now }
{
    match labels.place(name) {
        Some(place) => match spots.get(place) {
            Some(spot) => spot.at,
            None => 0,
        },
        None => 0,
    }
}

/// A direct transfer with this number.
fn with_target(to: u32, insn: Insn) -> Insn
    ensures { result ≡ with_target_of to insn }
{
    match insn {
        Insn::Jump { .. } => Insn::Jump { rel: to },
        Insn::Branch { cond, .. } => Insn::Branch { cond, rel: to },
        Insn::Loop { kind, .. } => Insn::Loop { kind, rel: to },
        Insn::Call { .. } => Insn::Call { rel: to },
        _ => insn,
    }
}

/// The instruction of a form, as it reads where the address behind it is 0.
fn placed_form(labels: &Labels<'_>, spots: &[Spot], form: &Form) -> Option<Insn>
    ensures { result ≡ placed_form_of (address_in (place_of labels.now) spots.now) form.now }
{
    match form {
        Form::Code(insn) => Some(*insn),
        Form::Aimed(insn, name) => {
            Some(with_target(address(labels, spots, name.as_slice()), *insn))
        }
        Form::Nothing | Form::Label(_) | Form::Raw(_) => None,
    }
}

/// The same of a line.
pub(crate) fn placed(labels: &Labels<'_>, spots: &[Spot], form: &Option<Form>) -> Option<Insn>
    ensures { result ≡ placed_of (address_in (place_of labels.now) spots.now) form.now }
{
    match form {
        Some(form) => placed_form(labels, spots, form),
        None => None,
    }
}

/// Whether an instruction is a loop that goes too far from its end.
fn is_long(insn: Insn, next: u32) -> bool
    ensures { result ≡ is_long_of insn next }
{
    match insn {
        Insn::Loop { kind: _, rel: to } => {
            let far = to.wrapping_sub(next);
            128 <= far && far < 0xffff_ff80
        }
        _ => false,
    }
}

/// Whether a line is a loop that goes too far from its end.
fn is_far(labels: &Labels<'_>, spots: &[Spot], form: &Option<Form>, spot: Spot) -> bool
    ensures { result ≡ is_far_of (address_in (place_of labels.now) spots.now) form.now spot }
{
    match placed(labels, spots, form) {
        Some(insn) => is_long(insn, spot.at.wrapping_add(spot.size)),
        None => false,
    }
}

/// The place of the first loop that goes too far.
fn far_loop(labels: &Labels<'_>, forms: &[Option<Form>], spots: &[Spot]) -> Option<usize>
    requires { length forms.now ≡ length spots.now }
    ensures { FirstFar (address_in (place_of labels.now) spots.now) forms.now spots.now result }
{
    for (place, form) in forms.iter().enumerate() {
        if is_far(labels, spots, form, spots[place]) {
            return Some(place);
        }
    }
    None
}

/// How many bytes there are, or the place of the first line that ends past the most bytes of code.
fn used(spots: &[Spot]) -> Result<u32, usize>
    ensures some { IfOk result (λ all. (all ≡ total spots.now) × (all ≤ most_code)) }
    ensures none { IfErr result (IsFull spots.now) }
{
    let mut all = 0;
    for (place, spot) in spots.iter().enumerate() {
        if spot.size > MOST_CODE - all {
            return Err(place);
        }
        all += spot.size;
    }
    Ok(all)
}

/// The place of the line that is at fault.
pub(crate) fn misfit(labels: &Labels<'_>, forms: &[Option<Form>], spots: &[Spot]) -> Option<usize>
    requires { length forms.now ≡ length spots.now }
    ensures { FirstMisfit (address_in (place_of labels.now) spots.now) forms.now spots.now result }
{
    if let Some(place) = far_loop(labels, forms, spots) {
        return Some(place);
    }
    match used(spots) {
        Err(place) => Some(place),
        Ok(0) => Some(forms.len()),
        Ok(_) => None,
    }
}
