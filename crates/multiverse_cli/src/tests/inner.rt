//! An output one step at a time: each of its states shows what its input shows before a step or after it.

ghost use Rattle.std.specs.Prelude.{◌≡◌, ◌≤◌, ◌+◌, length};
ghost use Rattle.x86_machine.specs.Stepping.{HasRoom};
ghost use Rattle.x86_machine.specs.declared.machine.Outcome.TheVariants.{Next};

use super::files::file_of;
use super::{NONE, answer};
use elf32_read::read_image;
use mv_base::Status;
use std::alloc::Global;
use std::process::Abort;
use std::test::Fail;
use syscall_log::{AnswerList, Args, Log};
use x86_insn::Width;
use x86_machine::{Answers, Kind, Machine, Outcome};

/// `mov al,127`, `add al,1`, `stc`, `std`, `push 0x08048062`, `ret 8`, `hlt`: the return goes to `hlt`.
const CODE: &[u8] = b"\xb0\x7f\x04\x01\xf9\xfd\x68\x62\x80\x04\x08\xc2\x08\0\xf4";

/// How many steps it completes.
const STEPS: u32 = 6;

/// How many its output completes: a copy of each of the first five, three of the return's piece and 28 of the stub.
const OUTPUT_STEPS: u32 = 36;

/// The code, and the stack from 64 bytes below its first place on: the first address of each, and how many bytes.
const SHOWN: [(u32, u32); 2] = [(0x0804_8050, 24), (0xbfff_efa0, 0x60)];

/// A machine on its way, with the answers of its log and the outcome of its last step: it has room for a call for each answer
/// that is left, and until it stops for their descriptors.
#[derive(Drop)]
struct Walk<'a> {
    machine: Machine,
    answers: Answers<'a>,
    last: Outcome,
    ghost next: { answers.next ≤ length answers.log.now.answers },
    ghost room: { length answers.log.now.answers ≤ machine.calls.spare + answers.next },
    ghost descs: { last ≡ Next → HasRoom machine answers.log.now answers.next },
}

impl<'a> Walk<'a> {
    /// From the entry of a file that is a program.
    fn start(alloc: Global, file: &[u8], log: &'a Log) -> Result<Walk<'a>, Fail> {
        let image = read_image(alloc, file).ok().ok_or("an image")?;
        let machine = Machine::start(alloc, &image, file, log)?;
        let answers = Answers { log, next: 0 };
        let last = Outcome::Next;
        Ok(Walk {
            machine,
            answers,
            last,
        })
    }

    /// One step; a machine that has stopped makes no other.
    fn step(&mut self) -> Outcome {
        if matches!(self.last, Outcome::Next) {
            self.last = self.machine.step(&mut self.answers);
        }
        self.last
    }

    /// What it shows at an address: the byte there, or none, and whether it can be written.
    fn shown_at(&self, at: u32) -> (Option<u32>, bool) {
        let memory = &self.machine.memory;
        let byte = memory.read(at, Width::B).ok();
        (byte, memory.write_fault(at, 1).is_none())
    }

    /// Whether it shows what another shows.
    fn is_like(&self, other: &Walk) -> bool {
        SHOWN.iter().all(|(first, len)| {
            (0..*len).all(|offset| {
                let at = first.wrapping_add(offset);
                self.shown_at(at) == other.shown_at(at)
            })
        })
    }
}

/// Steps an input that has completed so many steps until it shows what its output shows, or all are completed, and says how
/// many are.
fn follow(rt: &impl Abort, input: &mut Walk, output: &Walk, steps: u32) -> u32 {
    for done in steps..STEPS {
        if input.is_like(output) {
            return done;
        }
        assert_eq!(rt; input.step(), Outcome::Next);
    }
    STEPS
}

/// The rewritten form of an image.
fn rewritten(alloc: Global, image: &[u8]) -> Result<Vec<u8>, Fail> {
    let answer = answer(alloc, "rewrite a b", &[("a", image)], NONE)?;
    if answer.status == Status::Done {
        Ok(Vec::from_slice(alloc, answer.written.as_slice())?)
    } else {
        Ok(Vec::new(alloc))
    }
}

/// A log without arguments and answers.
fn empty_log(alloc: Global) -> Result<Log, Fail> {
    let args = Args::new(Vec::new(alloc));
    let answers = AnswerList::new(Vec::new(alloc));
    Ok(Log::new(args, answers).ok_or("a log")?)
}

#[test]
fn each_state_of_a_return_shows_what_its_input_shows(rt: HostRuntime) -> Result<(), Fail> {
    let alloc = rt.alloc();
    let image = file_of(alloc, CODE)?;
    let file = rewritten(alloc, &image)?;
    let log = empty_log(alloc)?;
    let mut input = Walk::start(alloc, image.as_slice(), &log)?;
    let mut output = Walk::start(alloc, &file, &log)?;
    let mut steps = 0;
    for _ in 0..OUTPUT_STEPS {
        assert_eq!(rt; output.step(), Outcome::Next);
        steps = follow(&rt, &mut input, &output, steps);
        assert!(rt; input.is_like(&output), "after {} steps", steps);
    }
    // the push is the last that shows
    assert_eq!(rt; steps, 5);
    for _ in steps..STEPS {
        assert_eq!(rt; input.step(), Outcome::Next);
    }
    let stop = Outcome::Trap(Kind::Protection, 0);
    assert_eq!(rt; input.step(), stop);
    assert_eq!(rt; output.step(), stop);
    assert!(rt; input.is_like(&output));
    assert_eq!(rt; input.machine.regs, output.machine.regs);
    Ok(())
}
