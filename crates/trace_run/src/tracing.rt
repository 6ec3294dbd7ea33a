//! Running a file.

ghost use Rattle.std.specs.Prelude.{◌≡◌, ◌≤◌, IfOk, List, length};
ghost use Rattle.mv_base.specs.Effects.{Answer, descriptors_in};
ghost use Rattle.elf32_read.specs.Reading.{IsImage};
ghost use Rattle.elf32_write.specs.Frame.{frame};
ghost use Rattle.syscall_log.specs.Meaning.{answers_of};
ghost use Rattle.x86_machine.specs.Stepping.{state_of};
ghost use Rattle.trace_run.specs.Outcomes.{ended_by as end_by};
ghost use Rattle.trace_run.specs.Reports.{IsRun, IsTrace, Shows, ShowsNoRun};

use crate::counting::counts;
use crate::report::{Counts, End, Report};
use elf32_read::Image;
use mv_base::NoMemory;
use std::alloc::Global;
use syscall_log::Log;
use thiserror::Error;
use x86_machine::{Answers, CallList, Machine, Outcome, StartFault};

/// Why a file isn't traced.
#[derive(Clone, Copy, Debug, PartialEq, Eq, Error)]
pub enum TraceFault {
    /// The pages with a mapped byte would have so many bytes, which are more than 67,108,864.
    #[error("too many mapped bytes: {0}")]
    TooLarge(u64),
    #[error("no memory")]
    NoMemory,
}

impl From<NoMemory> for TraceFault {
    ghost use Rattle.std.specs.Prelude.{◌≡◌};
    ghost use Rattle.trace_run.specs.declared.tracing.TraceFault.TheVariants.{NoMemory as WantsMemory};

    ghost from_gives = { λ _ e. e ≡ WantsMemory };

    fn from(_error: NoMemory) -> TraceFault {
        TraceFault::NoMemory
    }
}

/// The image of flags that are all clear: bits 1 and 9 are always set.
const CLEAR_FLAGS: u32 = 0x202;

/// Runs a file from its entry, with the arguments and the answers of a log, for as many steps as asked or until it stops,
/// and reports that, with the counters of the file's frame, where it has one. `image` is what was read from `bytes`. At
/// most `steps` steps are completed, and one more is tried only where fewer are.
///
/// # Errors
///
/// `TooLarge`, exactly where the pages of the file and the stack have more than 67,108,864 bytes, or where a step that
/// is tried comes to a map that isn't refused and would leave pages of more bytes mapped; `NoMemory`.
pub fn trace(
    alloc: Global,
    bytes: &[u8],
    image: &Image,
    log: &Log,
    steps: u64,
) -> Result<Report, TraceFault>
    requires { IsImage bytes.now image.now }
    ensures { IsTrace bytes.now log.now steps result }
{
    match Machine::start(alloc, image, bytes, log) {
        Ok(machine) => run(alloc, bytes, machine, log, steps),
        Err(StartFault::TooLarge(size)) => Err(TraceFault::TooLarge(size)),
        Err(StartFault::StackTaken) => Ok(no_run(alloc)?),
        Err(StartFault::NoMemory) => Err(TraceFault::NoMemory),
    }
}

/// Runs a machine that was started on this file and log.
fn run(
    alloc: Global,
    file: &[u8],
    mut machine: Machine,
    log: &Log,
    steps: u64,
) -> Result<Report, TraceFault>
    requires room { length log.now.answers ≤ machine.calls.spare }
    requires descs { descriptors_in (answers_of log.now.answers) ≤ machine.descs.spare }
    ensures { IsRun (frame file.now) (state_of machine (answers_of log.now.answers)) steps
        result }
{
    let mut answers = Answers { log, next: 0 };
    for done in 0..steps {
        let outcome = machine.step(&mut answers);
        if let Some(end) = ended_by(outcome)? {
            return Ok(report_of(alloc, file, machine, end, done)?);
        }
    }
    Ok(report_of(alloc, file, machine, End::Steps, steps)?)
}

/// By what a run ends with this outcome of a step; `None` where it goes on.
fn ended_by(outcome: Outcome) -> Result<Option<End>, TraceFault>
    ensures { result ≡ end_by outcome }
{
    match outcome {
        Outcome::Next => Ok(None),
        Outcome::Trap(kind, at) => Ok(Some(End::Trap(kind, at))),
        Outcome::Outside => Ok(Some(End::Outside)),
        Outcome::NoAnswer => Ok(Some(End::NoAnswer)),
        Outcome::BadAnswer => Ok(Some(End::BadAnswer)),
        Outcome::Gone => Ok(Some(End::Gone)),
        Outcome::TooLarge(size) => Err(TraceFault::TooLarge(size)),
        Outcome::NoMemory => Err(TraceFault::NoMemory),
    }
}

/// The report of a machine that ran this file, has completed so many steps and ended so.
fn report_of(
    alloc: Global,
    file: &[u8],
    machine: Machine,
    end: End,
    steps: u64,
) -> Result<Report, NoMemory>
    ensures { IfOk result (λ report. (answers : List Answer) →
        Shows (frame file.now) report (state_of machine answers) end steps) }
{
    let counts = counts(alloc, file, &machine.memory)?;
    let Machine {
        regs,
        flags,
        calls,
        ..
    } = machine;
    Ok(Report {
        calls,
        counts,
        regs,
        flags: flags.image(),
        end,
        steps,
    })
}

/// The report where nothing ran.
fn no_run(alloc: Global) -> Result<Report, NoMemory>
    ensures { IfOk result ShowsNoRun }
{
    Ok(Report {
        calls: CallList::with_room(alloc, 0)?,
        counts: Counts::new(Vec::new(alloc)),
        regs: [0; 8],
        flags: CLEAR_FLAGS,
        end: End::NoStack,
        steps: 0,
    })
}
