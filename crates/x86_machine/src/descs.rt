//! The descriptors that GS may be loaded from.

ghost use Rattle.std.specs.Prelude.{◌≡◌, ◌==◌, position};
ghost use Rattle.mv_base.specs.Effects.{base_at};

use mv_base::NoMemory;
use std::alloc::Global;
use std::marker::Model;

/// Descriptors: an index from 1 to 8,191 and a base each, no index twice. Contracts see these pairs, and how many more
/// indexes have room.
#[derive(Drop)]
pub struct Descs {
    items: Vec<(u32, u32)>,
}

impl Model for Descs {
    ghost use Rattle.std.specs.Prelude.{◌-◌};
    ghost use Rattle.std.specs.Vec.{vec_len, vec_capacity};
    ghost use Rattle.x86_machine.specs.Descriptors.{Descriptors};

    ghost Value = { Descriptors };

    ghost view = { λ d. record { made = d.items.items; spare = vec_capacity d.items - vec_len d.items } };
}

impl Descs {
    ghost use Rattle.std.specs.Prelude.{◌≡◌, ◌+◌, ◌<◌, ◌≤◌, [], IfOk, length};
    ghost use Rattle.mv_base.specs.Effects.{base_at, with_base};

    /// No descriptor, with room for so many.
    pub fn with_room(alloc: Global, room: usize) -> Result<Descs, NoMemory>
        ensures made { IfOk result (λ d. d.made ≡ []) }
        ensures spare { IfOk result (λ d. room ≤ d.spare) }
    {
        Ok(Descs {
            items: Vec::with_capacity(alloc, room)?,
        })
    }

    /// The base of an index, where it has one.
    pub fn base_at(&self, index: u32) -> Option<u32>
        ensures { result ≡ base_at self.now.made index }
    {
        base_in(self.items.as_slice(), index)
    }

    /// Gives an index a base, in place of an older one. A new index takes room for one.
    pub fn set(&mut self, index: u32, base: u32)
        requires { 0 < self.old.spare }
        ensures made { self.new.made ≡ with_base self.old.made index base }
        ensures spare { self.new.spare + length self.new.made ≡ self.old.spare +
            length self.old.made }
        ensures least { self.old.spare ≤ self.new.spare + 1 }
    {
        match place_of(self.items.as_slice(), index) {
            Some(place) => self.items[place] = (index, base),
            None => self.items.push_reserved((index, base)),
        }
    }

    /// The pairs of index and base as a slice.
    pub fn as_slice(&self) -> &[(u32, u32)]
        ensures { result.now ≡ self.now.made }
    {
        self.items.as_slice()
    }
}

/// The place of an index.
fn place_of(descs: &[(u32, u32)], index: u32) -> Option<usize>
    ensures { result ≡ position (λ d. d.0 == index) descs.now }
{
    descs.iter().position(|desc| desc.0 == index)
}

/// The base of an index, where it has one.
fn base_in(descs: &[(u32, u32)], index: u32) -> Option<u32>
    ensures { result ≡ base_at descs.now index }
{
    match place_of(descs, index) {
        Some(place) => Some(descs[place].1),
        None => None,
    }
}
