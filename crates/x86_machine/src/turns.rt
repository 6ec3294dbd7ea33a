//! What the asks of an instruction come to: reads, at most one write, and an end or a stop.

ghost use Rattle.std.specs.Prelude.{◌≡◌, [], ◌∷◌};
ghost use Rattle.x86_insn.specs.Step.{asks, written};
ghost use Rattle.x86_insn.specs.Step.{turn as turn_of};
ghost use Rattle.proc_image.specs.Access.{IsWritten};
ghost use Rattle.proc_image.specs.Paged.{cells};
ghost use Rattle.x86_machine.specs.TurnResults.{IsRead, turned, KeptWhereHalted};

use crate::descs::Descs;
use crate::round::{hop, round};
use proc_image::Memory;
use x86_insn::{AccessBytes, AccessLen, Ask, Core, Insn, Kind, Stop};

/// Who asks: what it asks by the core and by the byte lists that it has read so far.
pub trait Asks<E: Drop> {
    ghost use Rattle.std.specs.Prelude.{◌≡◌, ℕ, List};
    ghost use Rattle.x86_insn.specs.declared.ask.Ask.{Ask};
    ghost use Rattle.x86_insn.specs.declared.registers.Core.{Core};

    ghost asked: { Self → Core → List (List ℕ) → Ask E };

    fn ask(&self, core: &Core, got: &[AccessBytes]) -> Ask<E>
        ensures { result ≡ asked self.now core.now got.now };
}

/// An instruction of flow Plain or Trap asks for its next round, by the descriptors.
#[derive(Clone, Copy)]
pub struct Rounds<'a> {
    pub insn: &'a Insn,
    pub descs: &'a Descs,
}

impl<'a> Asks<bool> for Rounds<'a> {
    ghost use Rattle.x86_insn.specs.Round.{round};

    ghost asked = { λ a. round a.insn.now a.descs.now.made };

    fn ask(&self, core: &Core, got: &[AccessBytes]) -> Ask<bool> {
        round(self.insn, self.descs, core, got)
    }
}

/// A control transfer asks; `next` is the address after it.
#[derive(Clone, Copy)]
pub struct Transfer<'a> {
    pub next: u32,
    pub insn: &'a Insn,
}

impl<'a> Asks<u32> for Transfer<'a> {
    ghost use Rattle.x86_insn.specs.Round.{hop};

    ghost asked = { λ a. hop a.next a.insn.now };

    fn ask(&self, core: &Core, got: &[AccessBytes]) -> Ask<u32> {
        hop(self.next, self.insn, core, got)
    }
}

/// The bytes at a place.
fn read(memory: &Memory, at: u32, len: AccessLen) -> Result<AccessBytes, Stop>
    ensures { IsRead (cells memory.now) at len result }
{
    let mut room = [0; 32];
    let bytes = &mut room[..len.get()];
    match memory.read_bytes(at, bytes) {
        Ok(()) => Ok(AccessBytes::new(bytes)),
        Err(fault) => Err(Stop::Trap(Kind::ReadFault, fault)),
    }
}

/// What the asks come to: the core and memory of the end, with what is said besides.
///
/// # Errors
///
/// The stop. Core and memory are as before.
#[tactic(auto, unfolding(x86_insn::specs::Step::asks))]
pub fn take_turn<E: Drop, A: Asks<E>>(
    memory: &mut Memory,
    core: &mut Core,
    asker: &A,
) -> Result<E, Stop>
    ensures is { turn_of (cells memory.old) (A.Asks.asked asker.now core.old) ≡ turned result
        core.new (cells memory.new) }
    ensures kept { KeptWhereHalted result core.old (cells memory.old) core.new
        (cells memory.new) }
{
    match asker.ask(core, &[]) {
        Ask::Reads { at, len } => match read(memory, at, len) {
            Ok(bytes) => after_one(memory, core, asker, bytes),
            Err(stop) => Err(stop),
        },
        Ask::Halts(stop) => Err(stop),
        Ask::Ends {
            core: after,
            write,
            end,
        } => ended(memory, core, after, write, end),
    }
}

/// The same after a read of one byte list.
#[tactic(auto, unfolding(x86_insn::specs::Step::asks))]
fn after_one<E: Drop, A: Asks<E>>(
    memory: &mut Memory,
    core: &mut Core,
    asker: &A,
    first: AccessBytes,
) -> Result<E, Stop>
    ensures is { asks 1 (cells memory.old) (A.Asks.asked asker.now core.old) (first ∷ []) ≡ turned
        result core.new (cells memory.new) }
    ensures kept { KeptWhereHalted result core.old (cells memory.old) core.new
        (cells memory.new) }
{
    let got = [first];
    match asker.ask(core, &got) {
        Ask::Reads { at, len } => match read(memory, at, len) {
            Ok(bytes) => {
                let [first] = got;
                after_two(memory, core, asker, first, bytes)
            }
            Err(stop) => Err(stop),
        },
        Ask::Halts(stop) => Err(stop),
        Ask::Ends {
            core: after,
            write,
            end,
        } => ended(memory, core, after, write, end),
    }
}

/// The same after a read of two byte lists.
#[tactic(auto, unfolding(x86_insn::specs::Step::asks))]
fn after_two<E: Drop, A: Asks<E>>(
    memory: &mut Memory,
    core: &mut Core,
    asker: &A,
    first: AccessBytes,
    second: AccessBytes,
) -> Result<E, Stop>
    ensures is { asks 0 (cells memory.old) (A.Asks.asked asker.now core.old)
        (first ∷ second ∷ []) ≡ turned result core.new (cells memory.new) }
    ensures kept { KeptWhereHalted result core.old (cells memory.old) core.new
        (cells memory.new) }
{
    match asker.ask(core, &[first, second]) {
        Ask::Reads { at, len } => match read(memory, at, len) {
            Ok(_) => Err(Stop::Outside),
            Err(stop) => Err(stop),
        },
        Ask::Halts(stop) => Err(stop),
        Ask::Ends {
            core: after,
            write,
            end,
        } => ended(memory, core, after, write, end),
    }
}

/// An end: its write is made, unless it faults, and its core is taken.
fn ended<E: Drop>(
    memory: &mut Memory,
    core: &mut Core,
    after: Core,
    write: Option<(u32, AccessBytes)>,
    end: E,
) -> Result<E, Stop>
    ensures is { written (cells memory.old) after write end ≡ turned result core.new
        (cells memory.new) }
    ensures kept { KeptWhereHalted result core.old (cells memory.old) core.new
        (cells memory.new) }
{
    if let Some((at, bytes)) = write
        && let Err(fault) = memory.write_bytes(at, bytes.as_slice())
    {
        return Err(Stop::Trap(Kind::WriteFault, fault));
    }
    *core = after;
    Ok(end)
}
