//! Why a command stops before anything is printed.

use crate::refusal::{Defect, Refusal};
use elf32_read::{ImageFault, ReadImage};
use mini_asm::AsmFault;
use mv_base::NoMemory;
use mv_rewrite::RewriteFault;
use pair_check::CheckFault;
use std::alloc::AllocFailed;
use syscall_log::LogFault;
use trace_run::TraceFault;

/// Why nothing comes of the files that a command reads: they lack something, or memory ran out.
#[derive(Clone, Copy, Drop)]
pub enum Objection {
    /// The files lack something.
    Lacking(Defect),
    /// Memory ran out.
    NoMemory,
}

impl From<NoMemory> for Objection {
    ghost use Rattle.std.specs.Prelude.{◌≡◌};
    ghost use Rattle.multiverse_cli.specs.declared.failure.Objection.TheVariants as objection;

    ghost from_gives = { λ _ f. f ≡ objection.NoMemory };

    fn from(_error: NoMemory) -> Self {
        Objection::NoMemory
    }
}

impl From<ReadImage> for Objection {
    ghost use Rattle.std.specs.Prelude.{◌≡◌};
    ghost use Rattle.multiverse_cli.specs.Failures.{unread_image};

    ghost from_gives = { λ fault f. f ≡ unread_image fault };

    fn from(fault: ReadImage) -> Self {
        match fault {
            ReadImage::Bad(fault) => Objection::Lacking(Defect::BadImage(fault)),
            ReadImage::NoMemory => Objection::NoMemory,
        }
    }
}

impl From<ImageFault> for Objection {
    ghost use Rattle.std.specs.Prelude.{◌≡◌};
    ghost use Rattle.multiverse_cli.specs.Failures.{not_admitted};

    ghost from_gives = { λ fault f. f ≡ not_admitted fault };

    fn from(fault: ImageFault) -> Self {
        Objection::Lacking(Defect::BadImage(fault))
    }
}

impl From<LogFault> for Objection {
    ghost use Rattle.std.specs.Prelude.{◌≡◌};
    ghost use Rattle.multiverse_cli.specs.Failures.{unread_log};

    ghost from_gives = { λ fault f. f ≡ unread_log fault };

    fn from(fault: LogFault) -> Self {
        match fault {
            LogFault::Line(line) => Objection::Lacking(Defect::BadLog(line)),
            LogFault::NoMemory => Objection::NoMemory,
        }
    }
}

impl From<TraceFault> for Objection {
    ghost use Rattle.std.specs.Prelude.{◌≡◌};
    ghost use Rattle.multiverse_cli.specs.Failures.{untraced};

    ghost from_gives = { λ fault f. f ≡ untraced fault };

    fn from(fault: TraceFault) -> Self {
        match fault {
            TraceFault::TooLarge(size) => Objection::Lacking(Defect::TooLarge(size)),
            TraceFault::NoMemory => Objection::NoMemory,
        }
    }
}

impl From<RewriteFault> for Objection {
    ghost use Rattle.std.specs.Prelude.{◌≡◌};
    ghost use Rattle.multiverse_cli.specs.Failures.{not_rewritten};

    ghost from_gives = { λ fault f. f ≡ not_rewritten fault };

    fn from(fault: RewriteFault) -> Self {
        match fault {
            RewriteFault::Image(fault) => Objection::Lacking(Defect::BadImage(fault)),
            RewriteFault::NoRoom(size) => Objection::Lacking(Defect::NoRoom(size)),
            RewriteFault::NoMemory => Objection::NoMemory,
        }
    }
}

impl From<AsmFault> for Objection {
    ghost use Rattle.std.specs.Prelude.{◌≡◌};
    ghost use Rattle.multiverse_cli.specs.Failures.{not_assembled};

    ghost from_gives = { λ fault f. f ≡ not_assembled fault };

    fn from(fault: AsmFault) -> Self {
        match fault {
            AsmFault::Line(line) => Objection::Lacking(Defect::BadSource(line)),
            AsmFault::NoMemory => Objection::NoMemory,
        }
    }
}

impl From<CheckFault> for Objection {
    ghost use Rattle.std.specs.Prelude.{◌≡◌};
    ghost use Rattle.multiverse_cli.specs.Failures.{not_alike};

    ghost from_gives = { λ fault f. f ≡ not_alike fault };

    fn from(fault: CheckFault) -> Self {
        match fault {
            CheckFault::Image(fault) => Objection::Lacking(Defect::BadImage(fault)),
            CheckFault::NoFrame => Objection::Lacking(Defect::NoFrame),
            CheckFault::Differs(found) => Objection::Lacking(Defect::Differs(found)),
            CheckFault::NoMemory => Objection::NoMemory,
        }
    }
}

/// Why a command stops before anything is printed: for a reason that has a message, or for want of memory.
#[derive(Clone, Copy, Drop)]
pub enum Failure<'a> {
    /// The command is refused.
    Refused(Refusal<'a>),
    /// Memory ran out.
    NoMemory,
}

impl From<NoMemory> for Failure<'_> {
    ghost use Rattle.std.specs.Prelude.{◌≡◌};
    ghost use Rattle.multiverse_cli.specs.declared.failure.Failure.TheVariants as failure;

    ghost from_gives = { λ _ f. f ≡ failure.NoMemory };

    fn from(_error: NoMemory) -> Self {
        Failure::NoMemory
    }
}

impl<T: Drop> From<AllocFailed<T>> for Failure<'_> {
    ghost use Rattle.std.specs.Prelude.{◌≡◌};
    ghost use Rattle.multiverse_cli.specs.declared.failure.Failure.TheVariants as failure;

    ghost from_gives = { λ _ f. f ≡ failure.NoMemory };

    fn from(_error: AllocFailed<T>) -> Self {
        Failure::NoMemory
    }
}

impl From<Objection> for Failure<'_> {
    ghost use Rattle.std.specs.Prelude.{◌≡◌};
    ghost use Rattle.multiverse_cli.specs.Failures.{failure_of};

    ghost from_gives = { λ objection f. f ≡ failure_of objection };

    fn from(objection: Objection) -> Self {
        match objection {
            Objection::Lacking(defect) => Failure::Refused(Refusal::Lacking(defect)),
            Objection::NoMemory => Failure::NoMemory,
        }
    }
}
