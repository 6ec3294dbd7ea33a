//! The stack of a new process.

ghost use Rattle.std.specs.Prelude.{◌≡◌, ◌+◌, ◌*◌, ◌∷◌, ◌^◌, ◌≤◌, length};
ghost use Rattle.mv_base.specs.Bytes.{words};
ghost use Rattle.mv_base.specs.Memory.{put};
ghost use Rattle.proc_image.specs.Paged.{cells};
ghost use Rattle.proc_image.specs.Stack.{IsStarted, argument_bytes, pointers, stack_taken};

use crate::limits::{PAGE_SIZE, STACK_BYTES, STACK_END, STACK_START};
use crate::memory::Memory;
use mv_base::{Bytes, NoMemory};
use syscall_log::Log;

/// Why a stack isn't made.
#[derive(Clone, Copy, Debug, PartialEq, Eq)]
pub enum StackFault {
    /// One of its addresses is mapped.
    Taken,
    NoMemory,
}

impl From<NoMemory> for StackFault {
    ghost use Rattle.std.specs.Prelude.{◌≡◌};
    ghost use Rattle.proc_image.specs.declared.stack.StackFault.TheVariants.{NoMemory as WantsMemory};

    ghost from_gives = { λ _ e. e ≡ WantsMemory };

    fn from(_error: NoMemory) -> StackFault {
        StackFault::NoMemory
    }
}

impl Memory {
    /// Maps and fills the stack from 0xBFEFF000 up to 0xBFFFF000, and gives the stack pointer. There stand, as words, the
    /// number of the log's arguments, pointers to them and four zeros.
    ///
    /// # Errors
    ///
    /// `Taken`, exactly where one of its addresses is mapped; `NoMemory`. Then no cell has changed.
    pub fn start_stack(&mut self, log: &Log) -> Result<u32, StackFault>
        ensures { IsStarted (cells self.old) log.now.args (cells self.new) result }
    {
        if self.is_stack_taken() {
            return Err(StackFault::Taken);
        }
        self.map(STACK_START, STACK_BYTES, &[], true, false)?;
        let args = log.args.as_slice();
        let start = STACK_END - arguments_len(args);
        let pointer = (start - 4 * (args.len() as u32 + 5)) / 16 * 16;
        self.put_arguments(start, args);
        self.put_words(pointer, start, args);
        Ok(pointer)
    }

    /// Whether one of the stack's addresses is mapped.
    fn is_stack_taken(&self) -> bool
        ensures { result ≡ stack_taken (cells self.now) }
    {
        for page in STACK_START / PAGE_SIZE..STACK_END / PAGE_SIZE {
            if self.holds_mapped(page) {
                return true;
            }
        }
        false
    }

    /// Writes arguments, each with an ending zero, up to the end of the stack.
    fn put_arguments(&mut self, start: u32, args: &[Bytes])
        requires { start + length (argument_bytes args.now) ≡ 0xBFFFF000 }
        ensures { cells self.new ≡ put (cells self.old) start (argument_bytes args.now) }
    {
        let mut at = start;
        for arg in args {
            self.put_bytes(at, arg.as_slice());
            at += arg.len() as u32;
            self.put_byte(at, 0);
            at += 1;
        }
    }

    /// Writes at the stack pointer the number of arguments that stand from `start` on, and pointers to them.
    fn put_words(&mut self, pointer: u32, start: u32, args: &[Bytes])
        requires few { length args.now ≤ 1024 }
        requires low { pointer ≤ 0xBFFFF000 }
        requires end { start + length (argument_bytes args.now) ≡ 0xBFFFF000 }
        ensures { cells self.new ≡ put (cells self.old) pointer
            (words (length args.now ∷ pointers start args.now)) }
    {
        self.put_dword(pointer, args.len() as u32);
        let mut place = pointer + 4;
        let mut at = start;
        for arg in args {
            self.put_dword(place, at);
            place += 4;
            at += arg.len() as u32 + 1;
        }
    }
}

/// How many bytes arguments have, with one ending zero each.
fn arguments_len(args: &[Bytes]) -> u32
    requires { length (argument_bytes args.now) ≤ 65536 }
    ensures { result ≡ length (argument_bytes args.now) }
{
    let mut len = 0;
    for arg in args {
        len += arg.len() as u32 + 1;
    }
    len
}
