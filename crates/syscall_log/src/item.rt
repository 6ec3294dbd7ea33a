//! What a line of a log's text says.

use crate::effect::Effect;
use mv_base::Bytes;

/// A line of a log.
#[derive(Drop)]
pub enum Item {
    /// `log 1`, which every log begins with.
    Header,
    /// An argument.
    Arg(Bytes),
    /// An answer, by its value for EAX.
    Ret(u32),
    /// An effect of the answer before it, which has a value for EAX.
    Change(Effect),
    /// The answer that ends the program.
    Gone,
    /// An answer to CPUID.
    Cpuid {
        eax: u32,
        ebx: u32,
        ecx: u32,
        edx: u32,
    },
}
