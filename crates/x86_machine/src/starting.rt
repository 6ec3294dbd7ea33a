//! The first state of a machine.

ghost use Rattle.std.specs.Prelude.{◌≡◌, IfSome, map, count_by};
ghost use Rattle.mv_base.specs.Effects.{is_descriptor, effects_in, descriptors_in};
ghost use Rattle.elf32_read.specs.Reading.{IsImage};
ghost use Rattle.syscall_log.specs.Meaning.{effect_of, answer_of, answers_of};
ghost use Rattle.x86_machine.specs.Starting.{IsStarted};

use crate::cache::InsnCache;
use crate::call::CallList;
use crate::descs::Descs;
use crate::machine::Machine;
use elf32_read::Image;
use mv_base::NoMemory;
use proc_image::{LoadFault, StackFault, load};
use std::alloc::Global;
use syscall_log::{Answer, Effect, Log};
use x86_insn::{Flags, Reg};

/// Why a machine isn't started.
#[derive(Clone, Copy, Debug, PartialEq, Eq)]
pub enum StartFault {
    /// 4,096 times the number of pages that hold a mapped byte, and the stack's 1,048,576.
    TooLarge(u64),
    /// An address of the stack is the image's.
    StackTaken,
    NoMemory,
}

impl From<NoMemory> for StartFault {
    ghost use Rattle.std.specs.Prelude.{◌≡◌};
    ghost use Rattle.x86_machine.specs.declared.starting.StartFault.TheVariants.{NoMemory as WantsMemory};

    ghost from_gives = { λ _ e. e ≡ WantsMemory };

    fn from(_error: NoMemory) -> StartFault {
        StartFault::NoMemory
    }
}

/// No flag.
const NO_FLAGS: Flags = Flags {
    cf: false,
    pf: false,
    af: false,
    zf: false,
    sf: false,
    df: false,
    of: false,
    id: false,
};

impl Machine {
    /// A machine at the entry of an image, which was read from these bytes, with the arguments of a log on its stack. All
    /// registers but ESP, all flags and GS are 0, GS has no base, and there is no descriptor. There is room for as many calls
    /// as the log has answers, and for as many descriptors as they give.
    ///
    /// # Errors
    ///
    /// `TooLarge`, exactly where the image's pages and those of the stack have more than 67,108,864 bytes; else
    /// `StackTaken`, exactly where an address of the stack is mapped; `NoMemory`.
    pub fn start(
        alloc: Global,
        image: &Image,
        bytes: &[u8],
        log: &Log,
    ) -> Result<Machine, StartFault>
        requires { IsImage bytes.now image.now }
        ensures { IsStarted bytes.now log.now result }
    {
        let mut memory = match load(alloc, image, bytes) {
            Ok(memory) => memory,
            Err(LoadFault::TooLarge(size)) => return Err(StartFault::TooLarge(size)),
            Err(LoadFault::NoMemory) => return Err(StartFault::NoMemory),
        };
        let esp = match memory.start_stack(log) {
            Ok(esp) => esp,
            Err(StackFault::Taken) => return Err(StartFault::StackTaken),
            Err(StackFault::NoMemory) => return Err(StartFault::NoMemory),
        };
        let calls = CallList::with_room(alloc, log.answers.len())?;
        let Some(room) = descriptors_in(log.answers.as_slice()) else {
            return Err(StartFault::NoMemory);
        };
        let descs = Descs::with_room(alloc, room)?;
        Ok(Machine {
            regs: [0, 0, 0, 0, esp, 0, 0, 0],
            eip: image.entry,
            flags: NO_FLAGS,
            gs: 0,
            gs_base: None,
            memory,
            descs,
            calls,
            cache: InsnCache::new(alloc)?,
        })
    }
}

/// How many descriptors these answers give; `None` where that is no `usize`.
fn descriptors_in(answers: &[Answer]) -> Option<usize>
    ensures { IfSome result (λ n. n ≡ descriptors_in (answers_of answers.now)) }
{
    let mut count: usize = 0;
    for answer in answers {
        match count.checked_add(descriptors_of(answer)) {
            Some(sum) => count = sum,
            None => return None,
        }
    }
    Some(count)
}

/// How many descriptors an answer gives.
fn descriptors_of(answer: &Answer) -> usize
    ensures { result ≡ count_by is_descriptor (effects_in (answer_of answer.now)) }
{
    match answer {
        Answer::Ret { effects, .. } => count_descriptors(effects.as_slice()),
        Answer::Gone | Answer::Cpuid { .. } => 0,
    }
}

/// How many of these effects are descriptors.
fn count_descriptors(effects: &[Effect]) -> usize
    ensures { result ≡ count_by is_descriptor (map effect_of effects.now) }
{
    effects
        .iter()
        .filter(|effect| is_descriptor(effect))
        .count()
}

/// Whether an effect is a descriptor.
fn is_descriptor(effect: &Effect) -> bool
    ensures { result ≡ is_descriptor (effect_of effect.now) }
{
    matches!(effect, Effect::Desc { .. })
}
