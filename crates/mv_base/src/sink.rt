//! Where the program prints.

ghost use Rattle.std.specs.Prelude.{◌≡◌, ◌≤◌, ℕ, Bool, List, IsTrue};
ghost use Rattle.mv_base.specs.Faults.{SinkCounts, last_count};
ghost use Rattle.mv_base.specs.Printing.{Prints};
ghost use Rattle.mv_base.specs.declared.sink.SinkFault.TheVariants.{NoMemory};

use std::alloc::{AllocError, AllocFailed};
use thiserror::Error;

/// Why a call of a sink did not do its work.
#[derive(Clone, Copy, Debug, PartialEq, Eq, Error)]
pub enum SinkFault {
    /// The sink could not write, which its count shows.
    #[error("the sink failed")]
    Failed,
    /// Memory ran out.
    #[error("no memory")]
    NoMemory,
}

impl From<AllocError> for SinkFault {
    ghost from_gives = { λ _ fault. fault ≡ NoMemory };

    fn from(_error: AllocError) -> SinkFault {
        SinkFault::NoMemory
    }
}

impl<T: Drop> From<AllocFailed<T>> for SinkFault {
    ghost from_gives = { λ _ fault. fault ≡ NoMemory };

    fn from(_error: AllocFailed<T>) -> SinkFault {
        SinkFault::NoMemory
    }
}

/// What takes printed bytes, and can fail.
///
/// Proofs see whether the sink tells what was written, the bytes that were written, and a count of faults that never
/// falls and stands still at 2^64 - 1. What was written is spoken of only where the sink tells.
pub trait Sink {
    ghost tells: { Self → Bool };

    ghost written: { Self → List ℕ };

    ghost faults: { Self → ℕ };

    /// Appends `bytes` to what was written.
    ///
    /// After `Failed` or `NoMemory` the first few of the bytes, or none, are appended.
    fn put(&mut self, bytes: &[u8]) -> Result<(), SinkFault>
        ensures prints { IsTrue (tells self.old) → Prints result bytes.now (written self.old)
            (written self.new) }
        ensures counts { SinkCounts result (faults self.old) (faults self.new) }
        ensures never_falls { faults self.old ≤ faults self.new }
        ensures to_last { faults self.old ≤ last_count → faults self.new ≤ last_count }
        ensures tells_same { tells self.new ≡ tells self.old };
}
