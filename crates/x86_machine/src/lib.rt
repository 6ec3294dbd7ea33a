//! The user machine: memory, eight registers, flags and GS, and one whole instruction a step.
//!
//! An instruction is told apart from memory: `round` is the table of what each asks of it, by the registers and flags
//! and by what it has read so far. The lines of the table stand in `moves`, `stack`, `arithmetic`, `bits`, `strings`,
//! `segments` and `transfers`, over `operands` and `conditions`; each equals its line of the definition in x86_insn.
//! `reaching` tells operands that can't be reached.
//!
//! `turns` asks, reads and writes for any of them, `running` repeats that for the iterations of a string instruction,
//! `inside` has the commonest instructions that reach no memory, with registers and flags changed in place.
//!
//! `system` applies the effects of an answer. `fetching` finds the instruction, and `cache` remembers it beside its
//! `spelling`. `machine` has the machine and its step, `starting` its first state, `call` the system calls that it made,
//! `descs` the descriptors.
#![tactic(auto)]

mod arithmetic;
mod bits;
mod cache;
pub mod call;
mod conditions;
pub mod descs;
mod fetching;
mod inside;
pub mod machine;
mod moves;
mod operands;
mod reaching;
mod round;
mod running;
mod segments;
mod spelling;
mod stack;
pub mod starting;
mod strings;
mod system;
mod transfers;
mod turns;

pub use call::{Call, CallList};
pub use descs::Descs;
pub use machine::{Answers, Machine, Outcome};
pub use starting::StartFault;
pub use x86_insn::Kind;
