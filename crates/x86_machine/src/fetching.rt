//! Fetching: the instruction that stands at an address.

ghost use Rattle.std.specs.Prelude.{◌≡◌};
ghost use Rattle.x86_insn.specs.Step.{fetch as fetch_of};
ghost use Rattle.proc_image.specs.Paged.{cells};
ghost use Rattle.x86_machine.specs.Machines.{fetched_as};

use crate::cache::InsnCache;
use crate::spelling::Spelling;
use proc_image::Memory;
use x86_decode::{Decoded, decode};
use x86_insn::Insn;

/// What stands at an address: no executable cell, an instruction that lies wholly in executable cells, or neither.
#[derive(Clone, Copy)]
pub enum Fetched {
    Absent,
    Found { insn: Insn, len: u8 },
    Unknown,
}

/// What stands at an address. An instruction is remembered.
pub fn fetch(memory: &Memory, at: u32, cache: &mut InsnCache) -> Fetched
    ensures { fetch_of (cells memory.now) at ≡ fetched_as result }
{
    let mut bytes = [0; 15];
    let len = memory.exec_bytes(at, &mut bytes);
    if len == 0 {
        return Fetched::Absent;
    }
    match decode(&bytes[..len]) {
        Decoded::Insn { insn, len } => {
            cache.keep(at, Spelling::new(bytes, len, insn));
            Fetched::Found { insn, len }
        }
        Decoded::Short => Fetched::Unknown,
        Decoded::Unknown => Fetched::Unknown,
    }
}
