//! The rounds of an instruction: one, or one for each iteration of a repeated string instruction.

ghost use Rattle.std.specs.Prelude.{◌≡◌};
ghost use Rattle.x86_insn.specs.Round.{limit as limit_of};
ghost use Rattle.x86_insn.specs.Step.{rounds};
ghost use Rattle.proc_image.specs.Paged.{cells};
ghost use Rattle.x86_machine.specs.TurnResults.{ran};

use crate::descs::Descs;
use crate::round::limit;
use crate::turns::{Rounds, take_turn};
use proc_image::Memory;
use x86_insn::{Core, Insn, Stop};

/// All rounds of an instruction of flow Plain or Trap: core and memory at the end.
///
/// # Errors
///
/// The stop, with core and memory as the rounds before it left them.
pub fn run_rounds(
    insn: &Insn,
    descs: &Descs,
    core: &mut Core,
    memory: &mut Memory,
) -> Result<(), Stop>
    ensures { rounds (limit_of insn.now core.old) insn.now descs.now.made core.old
        (cells memory.old) ≡ ran result core.new (cells memory.new) }
{
    let mut left = limit(insn, core);
    while left > 0 {
        match take_turn(memory, core, &Rounds { insn, descs }) {
            Ok(again) => {
                if !again {
                    return Ok(());
                }
            }
            Err(stop) => return Err(stop),
        }
        left -= 1;
    }
    Ok(())
}
