//! Why a text is not read as a log.

ghost use Rattle.std.specs.Prelude.{◌≡◌};
ghost use Rattle.syscall_log.specs.declared.fault.LogFault.TheVariants as fault;

use mv_base::NoMemory;
use std::alloc::AllocFailed;
use thiserror::Error;

/// Why a text is not read as a log. This project's own.
#[derive(Clone, Copy, Debug, PartialEq, Eq, Drop, Error)]
pub enum LogFault {
    /// The first line that no log has in its place, counted from 1.
    #[error("line {0} is no line of a log")]
    Line(u64),
    #[error("no memory")]
    NoMemory,
}

impl From<NoMemory> for LogFault {
    ghost from_gives = { λ _ f. f ≡ fault.NoMemory };

    fn from(_error: NoMemory) -> LogFault {
        LogFault::NoMemory
    }
}

/// Why a line is not read: it is no line that a log may have there, or memory ran out.
#[derive(Clone, Copy, Drop)]
pub(crate) enum LineFault {
    Unknown,
    NoMemory,
}

impl LineFault {
    ghost use Rattle.syscall_log.specs.Reads.{fault_at};

    /// The fault of a text in which the line with this number has it.
    pub(crate) fn at(self, line: u64) -> LogFault
        ensures { result ≡ fault_at line self }
    {
        match self {
            LineFault::Unknown => LogFault::Line(line),
            LineFault::NoMemory => LogFault::NoMemory,
        }
    }
}

impl From<NoMemory> for LineFault {
    ghost use Rattle.syscall_log.specs.declared.fault.LineFault.TheVariants as line_fault;

    ghost from_gives = { λ _ f. f ≡ line_fault.NoMemory };

    fn from(_error: NoMemory) -> LineFault {
        LineFault::NoMemory
    }
}

impl<T: Drop> From<AllocFailed<T>> for LineFault {
    ghost use Rattle.syscall_log.specs.declared.fault.LineFault.TheVariants as line_fault;

    ghost from_gives = { λ _ f. f ≡ line_fault.NoMemory };

    fn from(_error: AllocFailed<T>) -> LineFault {
        LineFault::NoMemory
    }
}
