//! The user machine: a memory, eight registers, flags, GS, descriptors, and the calls made.

ghost use Rattle.std.specs.Prelude.{◌≡◌, ◌+◌, ◌-◌, ◌≤◌, [], ℕ, List, length, slice_set, true};
ghost use Rattle.mv_base.specs.Effects.{Answer as AnswerOf};
ghost use Rattle.x86_insn.specs.declared.insn.Flow.TheVariants.{Plain};
ghost use Rattle.x86_insn.specs.Flow.{flow_of};
ghost use Rattle.x86_insn.specs.Round.{limit, hop};
ghost use Rattle.x86_insn.specs.Step.{Found, fetch as fetch_of, call_of, rounds, turn, after_rounds, after_hop, system, identified, is_cpuid};
ghost use Rattle.x86_insn.specs.TakenUp.{first_effects};
ghost use Rattle.proc_image.specs.Paged.{cells};
ghost use Rattle.x86_machine.specs.Stepping.{answers_from, core_of, state_of, outcome_of, refused_as, ComesTo, IsStep, KeepsRoom, HasRoom};
ghost use Rattle.x86_machine.specs.declared.machine.Outcome.TheVariants.{Next};

use crate::cache::InsnCache;
use crate::call::{Call, CallList};
use crate::descs::Descs;
use crate::fetching::{Fetched, fetch};
use crate::inside::{done_inside, goes_to};
use crate::running::run_rounds;
use crate::system::apply_all;
use crate::turns::{Transfer, take_turn};
use proc_image::{EffectFault, Memory};
use syscall_log::{Answer, Log};
use x86_insn::{Core, Flags, Flow, Insn, Kind, Reg, Stop};

/// What a step gives. All but `Next` stop the machine: a trap with its address (0 where it has none), bytes that are no
/// instruction, no answer left, an answer that can't be applied, the end of the program, more mapped pages than are
/// allowed (with their bytes), or want of memory.
#[derive(Clone, Copy, Debug, PartialEq, Eq)]
pub enum Outcome {
    Next,
    Trap(Kind, u32),
    Outside,
    NoAnswer,
    BadAnswer,
    Gone,
    TooLarge(u64),
    NoMemory,
}

/// The answers of a log, and how many of them are used.
#[derive(Clone, Copy)]
pub struct Answers<'a> {
    pub log: &'a Log,
    pub next: usize,
}

/// A user machine with one thread. `gs` is GS's selector, `gs_base` its base, where it has one, and `descs` the descriptors
/// that it may be loaded from.
#[derive(Drop)]
pub struct Machine {
    pub regs: [u32; 8],
    pub eip: u32,
    pub flags: Flags,
    pub gs: u16,
    pub gs_base: Option<u32>,
    pub memory: Memory,
    pub descs: Descs,
    pub calls: CallList,
    pub(crate) cache: InsnCache,
}

impl Machine {
    /// One whole instruction. All but `Next` leave the machine as it was, but for the completed iterations of a repeated
    /// string instruction, effects before one that isn't applied, and the call and the answer of `Gone`.
    ///
    /// It takes memory only where an effect maps. `TooLarge` comes where a map would leave more than 16,384 pages with a
    /// mapped byte, with their bytes.
    ///
    /// There has to be room for a call of each answer that is left and for their descriptors, and after `Next` there is.
    pub fn step(&mut self, answers: &mut Answers) -> Outcome
        requires next { answers.old.next ≤ length answers.old.log.now.answers }
        requires room { length answers.old.log.now.answers ≤ self.old.calls.spare +
            answers.old.next }
        requires descs { HasRoom self.old answers.old.log.now answers.old.next }
        ensures is { IsStep (state_of self.old (answers_from answers.old.log.now
            answers.old.next)) result (state_of self.new (answers_from answers.new.log.now
            answers.new.next)) }
        ensures log { answers.new.log.now ≡ answers.old.log.now }
        ensures next { answers.new.next ≤ length answers.new.log.now.answers }
        ensures room { length answers.new.log.now.answers ≤ self.new.calls.spare +
            answers.new.next }
        ensures descs { result ≡ Next → HasRoom self.new answers.new.log.now answers.new.next }
        ensures spare { KeepsRoom self.old self.new }
    {
        match self.cache.standing(&self.memory, self.eip) {
            Some(spelling) => {
                let insn = spelling.insn;
                let len = spelling.len;
                self.execute(&insn, len, answers)
            }
            None => self.step_anew(answers),
        }
    }

    /// The same, where no instruction is remembered that stands there.
    fn step_anew(&mut self, answers: &mut Answers) -> Outcome
        requires next { answers.old.next ≤ length answers.old.log.now.answers }
        requires room { length answers.old.log.now.answers ≤ self.old.calls.spare +
            answers.old.next }
        requires descs { HasRoom self.old answers.old.log.now answers.old.next }
        ensures is { IsStep (state_of self.old (answers_from answers.old.log.now
            answers.old.next)) result (state_of self.new (answers_from answers.new.log.now
            answers.new.next)) }
        ensures log { answers.new.log.now ≡ answers.old.log.now }
        ensures next { answers.new.next ≤ length answers.new.log.now.answers }
        ensures room { length answers.new.log.now.answers ≤ self.new.calls.spare +
            answers.new.next }
        ensures descs { result ≡ Next → HasRoom self.new answers.new.log.now answers.new.next }
        ensures spare { KeepsRoom self.old self.new }
    {
        match fetch(&self.memory, self.eip, &mut self.cache) {
            Fetched::Absent => Outcome::Trap(Kind::FetchFault, self.eip),
            Fetched::Unknown => Outcome::Outside,
            Fetched::Found { insn, len } => self.execute(&insn, len, answers),
        }
    }

    /// The step by the instruction that stands there, with its length.
    fn execute(&mut self, insn: &Insn, len: u8, answers: &mut Answers) -> Outcome
        requires found { fetch_of (cells self.old.memory) self.old.eip ≡ Found insn.now len }
        requires next { answers.old.next ≤ length answers.old.log.now.answers }
        requires room { length answers.old.log.now.answers ≤ self.old.calls.spare +
            answers.old.next }
        requires descs { HasRoom self.old answers.old.log.now answers.old.next }
        ensures is { IsStep (state_of self.old (answers_from answers.old.log.now
            answers.old.next)) result (state_of self.new (answers_from answers.new.log.now
            answers.new.next)) }
        ensures log { answers.new.log.now ≡ answers.old.log.now }
        ensures next { answers.new.next ≤ length answers.new.log.now.answers }
        ensures room { length answers.new.log.now.answers ≤ self.new.calls.spare +
            answers.new.next }
        ensures descs { result ≡ Next → HasRoom self.new answers.new.log.now answers.new.next }
        ensures spare { KeepsRoom self.old self.new }
    {
        let next = self.eip.wrapping_add(u32::from(len));
        if is_cpuid(insn) {
            return self.identify(next, answers);
        }
        match insn.next_kind() {
            Flow::Plain | Flow::Trap => self.run(insn, next),
            Flow::System => self.call_system(next, answers),
            Flow::Jump
            | Flow::Branch
            | Flow::Count
            | Flow::Call
            | Flow::JumpVia
            | Flow::CallVia
            | Flow::Return => self.transfer(insn, next),
        }
    }

    /// The registers, the flags and GS.
    fn core(&self) -> Core
        ensures { result ≡ core_of self.now }
    {
        let regs = self.regs;
        Core {
            regs,
            flags: self.flags,
            gs: self.gs,
            gs_base: self.gs_base,
        }
    }

    /// Sets the registers, the flags and GS.
    fn set_core(&mut self, core: Core)
        ensures { self.new ≡ record self.old {
          regs = core.regs;
          flags = core.flags;
          gs = core.gs;
          gs_base = core.gs_base;
        } }
    {
        let regs = core.regs;
        self.regs = regs;
        self.flags = core.flags;
        self.gs = core.gs;
        self.gs_base = core.gs_base;
    }

    /// The same where GS is as it was.
    fn set_inside(&mut self, core: Core)
        requires gs { core.gs ≡ self.old.gs }
        requires base { core.gs_base ≡ self.old.gs_base }
        ensures { self.new ≡ record self.old {
          regs = core.regs;
          flags = core.flags;
          gs = core.gs;
          gs_base = core.gs_base;
        } }
    {
        let regs = core.regs;
        self.regs = regs;
        self.flags = core.flags;
    }

    /// An instruction of flow Plain but CPUID, or of flow Trap; `next` is the address after it.
    fn run(&mut self, insn: &Insn, next: u32) -> Outcome
        ensures is { (answers : List AnswerOf) → ComesTo []
            (after_rounds (state_of self.old answers) next
            (rounds (limit insn.now (core_of self.old)) insn.now self.old.descs.made
            (core_of self.old) (cells self.old.memory))) (state_of self.old answers) result
            (state_of self.new answers) }
        ensures calls { self.new.calls ≡ self.old.calls }
        ensures descs { self.new.descs ≡ self.old.descs }
    {
        let mut core = self.core();
        if done_inside(insn, &mut core) {
            self.set_inside(core);
            self.eip = next;
            return Outcome::Next;
        }
        let ran = run_rounds(insn, &self.descs, &mut core, &mut self.memory);
        self.set_core(core);
        match ran {
            Ok(()) => {
                self.eip = next;
                Outcome::Next
            }
            Err(stop) => outcome_of(stop),
        }
    }

    /// A control transfer; `next` is the address after it.
    fn transfer(&mut self, insn: &Insn, next: u32) -> Outcome
        ensures is { (answers : List AnswerOf) → ComesTo []
            (after_hop (state_of self.old answers) (turn (cells self.old.memory)
            (hop next insn.now (core_of self.old)))) (state_of self.old answers) result
            (state_of self.new answers) }
        ensures calls { self.new.calls ≡ self.old.calls }
        ensures descs { self.new.descs ≡ self.old.descs }
    {
        match goes_to(next, insn, self.flags) {
            Some(to) => {
                self.eip = to;
                Outcome::Next
            }
            None => self.transfer_apart(insn, next),
        }
    }

    /// The same for any transfer.
    fn transfer_apart(&mut self, insn: &Insn, next: u32) -> Outcome
        ensures is { (answers : List AnswerOf) → ComesTo []
            (after_hop (state_of self.old answers) (turn (cells self.old.memory)
            (hop next insn.now (core_of self.old)))) (state_of self.old answers) result
            (state_of self.new answers) }
        ensures calls { self.new.calls ≡ self.old.calls }
        ensures descs { self.new.descs ≡ self.old.descs }
    {
        let mut core = self.core();
        match take_turn(&mut self.memory, &mut core, &Transfer { next, insn }) {
            Ok(to) => {
                self.set_core(core);
                self.eip = to;
                Outcome::Next
            }
            Err(stop) => outcome_of(stop),
        }
    }

    /// A system call takes the next answer; `next` is the address after the instruction.
    fn call_system(&mut self, next: u32, answers: &mut Answers) -> Outcome
        requires next { answers.old.next ≤ length answers.old.log.now.answers }
        requires room { length answers.old.log.now.answers ≤ self.old.calls.spare +
            answers.old.next }
        requires descs { HasRoom self.old answers.old.log.now answers.old.next }
        ensures is { ComesTo (first_effects (answers_from answers.old.log.now answers.old.next))
            (system (state_of self.old (answers_from answers.old.log.now answers.old.next)) next
            (answers_from answers.old.log.now answers.old.next))
            (state_of self.old (answers_from answers.old.log.now answers.old.next)) result
            (state_of self.new (answers_from answers.new.log.now answers.new.next)) }
        ensures log { answers.new.log.now ≡ answers.old.log.now }
        ensures next { answers.new.next ≤ length answers.new.log.now.answers }
        ensures room { length answers.new.log.now.answers ≤ self.new.calls.spare +
            answers.new.next }
        ensures descs { result ≡ Next → HasRoom self.new answers.new.log.now answers.new.next }
        ensures spare { KeepsRoom self.old self.new }
    {
        let log = answers.log;
        match log.answers.as_slice().get(answers.next) {
            Some(Answer::Ret { eax, effects }) => {
                match apply_all(&mut self.memory, &mut self.descs, effects.as_slice()) {
                    Ok(()) => {
                        let call = self.call();
                        self.calls.push(call);
                        self.regs[Reg::Eax.number()] = *eax;
                        self.eip = next;
                        answers.next += 1;
                        Outcome::Next
                    }
                    Err(fault) => refused(fault),
                }
            }
            Some(Answer::Gone) => {
                let call = self.call();
                self.calls.push(call);
                answers.next += 1;
                Outcome::Gone
            }
            Some(Answer::Cpuid { .. }) => Outcome::BadAnswer,
            None => Outcome::NoAnswer,
        }
    }

    /// CPUID takes the next answer and makes no call; `next` is the address after the instruction.
    fn identify(&mut self, next: u32, answers: &mut Answers) -> Outcome
        requires next { answers.old.next ≤ length answers.old.log.now.answers }
        requires room { length answers.old.log.now.answers ≤ self.old.calls.spare +
            answers.old.next }
        requires descs { HasRoom self.old answers.old.log.now answers.old.next }
        ensures is { ComesTo []
            (identified (state_of self.old (answers_from answers.old.log.now answers.old.next)) next
            (answers_from answers.old.log.now answers.old.next))
            (state_of self.old (answers_from answers.old.log.now answers.old.next)) result
            (state_of self.new (answers_from answers.new.log.now answers.new.next)) }
        ensures log { answers.new.log.now ≡ answers.old.log.now }
        ensures next { answers.new.next ≤ length answers.new.log.now.answers }
        ensures room { length answers.new.log.now.answers ≤ self.new.calls.spare +
            answers.new.next }
        ensures descs { HasRoom self.new answers.new.log.now answers.new.next }
        ensures spare { KeepsRoom self.old self.new }
    {
        let log = answers.log;
        match log.answers.as_slice().get(answers.next) {
            Some(Answer::Cpuid { eax, ebx, ecx, edx }) => {
                self.regs = with_words(self.regs, *eax, *ebx, *ecx, *edx);
                self.eip = next;
                answers.next += 1;
                Outcome::Next
            }
            Some(Answer::Ret { .. }) => Outcome::BadAnswer,
            Some(Answer::Gone) => Outcome::BadAnswer,
            None => Outcome::NoAnswer,
        }
    }

    /// The call that the registers make.
    fn call(&self) -> Call
        ensures { result.words ≡ call_of (core_of self.now) }
    {
        let regs = &self.regs;
        Call {
            words: [
                regs[0], regs[3], regs[1], regs[2], regs[6], regs[7], regs[5],
            ],
        }
    }
}

/// The registers with EAX, EBX, ECX and EDX set.
fn with_words(regs: [u32; 8], eax: u32, ebx: u32, ecx: u32, edx: u32) -> [u32; 8]
    ensures { result ≡ slice_set (slice_set (slice_set (slice_set regs 0 eax) 3 ebx) 1 ecx) 2
        edx }
{
    let mut regs = regs;
    regs[0] = eax;
    regs[3] = ebx;
    regs[1] = ecx;
    regs[2] = edx;
    regs
}

/// Whether an instruction is CPUID.
fn is_cpuid(insn: &Insn) -> bool
    ensures is { result ≡ is_cpuid insn.now }
    ensures plain { result ≡ true → flow_of insn.now ≡ Plain }
{
    matches!(insn, Insn::Cpuid)
}

/// The outcome of a stop.
fn outcome_of(stop: Stop) -> Outcome
    ensures { result ≡ outcome_of stop }
{
    match stop {
        Stop::Trap(kind, at) => Outcome::Trap(kind, at),
        Stop::Outside => Outcome::Outside,
        Stop::NoAnswer => Outcome::NoAnswer,
        Stop::BadAnswer => Outcome::BadAnswer,
        Stop::Gone => Outcome::Gone,
    }
}

/// The outcome of an effect that isn't applied.
fn refused(fault: EffectFault) -> Outcome
    ensures { result ≡ refused_as fault }
{
    match fault {
        EffectFault::Executable => Outcome::Outside,
        EffectFault::NotMapped(_) | EffectFault::NotWritable(_) => Outcome::BadAnswer,
        EffectFault::TooLarge(size) => Outcome::TooLarge(size),
        EffectFault::NoMemory => Outcome::NoMemory,
    }
}
