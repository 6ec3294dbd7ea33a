//! The report of a run.

use std::marker::Model;
use x86_machine::{CallList, Kind};

/// By what a run ended.
#[derive(Clone, Copy, Debug, PartialEq, Eq)]
pub enum End {
    /// As many steps as asked were completed.
    Steps,
    /// A trap of this kind, with the address of the access or fetch that faults, else 0.
    Trap(Kind, u32),
    /// Bytes that are no instruction, an image of flags that can't be kept, or an effect that touches code.
    Outside,
    /// The log had no answer left for a system call.
    NoAnswer,
    /// The log's answer has an effect on addresses that aren't mapped, or can't be written.
    BadAnswer,
    /// The program ended.
    Gone,
    /// Nothing ran, since an address of the stack is the file's.
    NoStack,
}

/// How often sites were executed: each with its address and the counter's kind, 0 for all executions, 1 for those of a branch
/// or a loop that jumped, 2 for those that didn't.
#[derive(Drop)]
pub struct Counts {
    items: Vec<(u32, u8, u64)>,
}

impl Model for Counts {
    ghost use Rattle.std.specs.Prelude.{ℕ, List};

    ghost Value = { List (ℕ × ℕ × ℕ) };

    ghost view = { λ c. c.items.items };
}

impl Counts {
    ghost use Rattle.std.specs.Prelude.{◌≡◌};

    /// The counts of a vector.
    pub fn new(items: Vec<(u32, u8, u64)>) -> Counts
        ensures { result ≡ items.items }
    {
        Counts { items }
    }

    /// The counts as a slice.
    pub fn as_slice(&self) -> &[(u32, u8, u64)]
        ensures { result.now ≡ self.now }
    {
        self.items.as_slice()
    }
}

/// A run: the system calls that it made, the oldest first; the counters of the file's frame that are mapped and not 0, in
/// the order of its list; where it ended, the eight registers by their number and the
/// flags as PUSHFD stores them; by what it ended, and how many steps it completed.
#[derive(Drop)]
pub struct Report {
    pub calls: CallList,
    pub counts: Counts,
    pub regs: [u32; 8],
    pub flags: u32,
    pub end: End,
    pub steps: u64,
}
