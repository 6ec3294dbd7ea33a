//! The instructions of 32-bit user code that the project knows, and what a step of a machine is.
//!
//! `insn` has the types, `flags` the status flags, `row` the columns of the
//! spelling table, `laws` what holds of the whole table. The definitions in specs/ say which byte lists spell
//! which instruction, what an instruction asks of registers and memory, and what a run is.
#![tactic(auto)]

pub mod ask;
pub mod flags;
pub mod insn;
pub mod laws;
pub mod registers;
pub mod row;
pub mod stop;

pub use ask::{ACCESS_LEN, AccessBytes, AccessLen, Ask};
pub use flags::Flags;
pub use insn::{
    AluOp, BitOp, Cond, Count, FlagOp, Flow, Insn, LoopKind, Mem, Reg, Rep, Rm, ShiftOp, Src,
    StrOp, UnOp, Width,
};
pub use registers::Core;
pub use stop::{Kind, Stop};
