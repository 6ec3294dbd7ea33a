//! A decoder that remembers. What it gives is true of any memory: it compares the bytes that spelled an instruction with
//! those that can be executed now, so that nothing has to be forgotten where memory changes.

ghost use Rattle.std.specs.Prelude.{◌≡◌, IfSome};
ghost use Rattle.x86_insn.specs.Step.{fetch as fetch_of, Found};
ghost use Rattle.proc_image.specs.Paged.{cells};

use crate::spelling::Spelling;
use mv_base::NoMemory;
use proc_image::Memory;
use std::alloc::Global;

/// How many instructions are remembered.
const PLACES: u32 = 4096;

/// Instructions that were decoded, each at the place that its address has modulo 4,096.
#[derive(Drop)]
pub struct InsnCache {
    places: Vec<Option<Spelling>>,
}

impl InsnCache {
    /// A decoder that remembers nothing yet.
    pub fn new(alloc: Global) -> Result<InsnCache, NoMemory> {
        let mut places = Vec::new(alloc);
        places.resize(PLACES as usize, None)?;
        Ok(InsnCache { places })
    }

    /// The instruction at an address, where it is remembered and its bytes stand there.
    #[inline]
    pub fn standing(&self, memory: &Memory, at: u32) -> Option<&Spelling>
        ensures { IfSome result (λ s. fetch_of (cells memory.now) at ≡ Found s.now.insn
            s.now.len) }
    {
        match self.places.get((at % PLACES) as usize) {
            Some(Some(spelling)) => {
                if memory.is_code(at, spelling.bytes()) {
                    Some(spelling)
                } else {
                    None
                }
            }
            _ => None,
        }
    }

    /// Remembers an instruction for an address, in the place of another.
    pub fn keep(&mut self, at: u32, spelling: Spelling) {
        if let Some(place) = self.places.get_mut((at % PLACES) as usize) {
            *place = Some(spelling);
        }
    }
}
