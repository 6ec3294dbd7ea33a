//! The labels of a source.

ghost use Rattle.std.specs.Prelude.{◌≡◌, ℕ, List, IfOk, OnOk, Some, None, option_copied};
ghost use Rattle.std.specs.Str.{bytes_eq};
ghost use Rattle.std.specs.Map.{update};
ghost use Rattle.mini_asm.specs.Labels.{FirstNotStanding, StandsAt, first_place, noted, place_of, stands};

use crate::form::Form;
use mv_base::NoMemory;
use std::alloc::Global;
use std::collections::BTreeMap;

/// For each label the place of the first line that defines it.
#[derive(Drop)]
pub(crate) struct Labels<'a> {
    places: BTreeMap<&'a [u8], usize>,
}

impl<'a> Labels<'a> {
    /// No labels.
    fn new(alloc: Global) -> Labels<'a>
        ensures { (q : List ℕ) → place_of result q ≡ None }
    {
        Labels {
            places: BTreeMap::new(alloc),
        }
    }

    /// The place of the line that defines a label.
    pub(crate) fn place(&self, name: &[u8]) -> Option<usize>
        ensures { result ≡ place_of self.now name.now }
    {
        self.places.get(name).copied()
    }

    /// Puts a label at a place.
    fn put(&mut self, name: &'a [u8], place: usize) -> Result<(), NoMemory>
        ensures { OnOk result ((q : List ℕ) → place_of self.new q ≡ update bytes_eq (place_of
            self.old) name.now (Some place) q) }
    {
        self.places.insert(name, place)?;
        Ok(())
    }

    /// Puts the label of a form at a place, unless it has one.
    fn note(&mut self, form: &'a Option<Form>, place: usize) -> Result<(), NoMemory>
        ensures { OnOk result ((q : List ℕ) → place_of self.new q ≡ noted (place_of self.old q)
            form.now place q) }
    {
        let Some(Form::Label(name)) = form else {
            return Ok(());
        };
        if self.place(name.as_slice()).is_some() {
            return Ok(());
        }
        self.put(name.as_slice(), place)
    }
}

/// The labels that forms define.
pub(crate) fn labels_of(alloc: Global, forms: &[Option<Form>]) -> Result<Labels<'_>, NoMemory>
    ensures { IfOk result (λ l. (q : List ℕ) → place_of l q ≡ first_place 0 forms.now q) }
{
    let mut labels = Labels::new(alloc);
    for (place, form) in forms.iter().enumerate() {
        labels.note(form, place)?;
    }
    Ok(labels)
}

/// Whether a form may stand at a place.
fn may_stand(labels: &Labels<'_>, form: &Option<Form>, place: usize) -> bool
    ensures { result ≡ stands (place_of labels.now) form.now place }
{
    match form {
        None => false,
        Some(Form::Label(name)) => match labels.place(name.as_slice()) {
            Some(first) => first == place,
            None => false,
        },
        Some(Form::Aimed(_, name)) => labels.place(name.as_slice()).is_some(),
        Some(Form::Nothing | Form::Raw(_) | Form::Code(_)) => true,
    }
}

/// The first form that may not stand at its place.
pub(crate) fn first_misplaced(labels: &Labels<'_>, forms: &[Option<Form>]) -> Option<usize>
    ensures { FirstNotStanding (place_of labels.now) forms.now result }
{
    for (place, form) in forms.iter().enumerate() {
        if !may_stand(labels, form, place) {
            return Some(place);
        }
    }
    None
}
