//! Files, as the program sees them: names that hold bytes.

ghost use Rattle.std.specs.Prelude.{◌≡◌, ◌≢◌, ◌≤◌, ℕ, Bool, List, [], Option, IsTrue};
ghost use Rattle.mv_base.specs.Faults.{StoreCounts, last_count};
ghost use Rattle.mv_base.specs.Holding.{Gets, KeepsLimit, Puts};
ghost use Rattle.mv_base.specs.declared.store.StoreFault.TheVariants.{Failed, NoMemory};

use crate::numbers;
use std::alloc::{AllocError, AllocFailed};
use std::io;
use thiserror::Error;

/// What `get` found.
#[derive(Clone, Copy, Debug, PartialEq, Eq)]
pub enum Got {
    /// All bytes of the name were taken.
    Whole,
    /// The name holds more bytes than the limit.
    TooLong,
}

/// Why a call of a store did not do its work.
#[derive(Clone, Copy, Debug, PartialEq, Eq, Error)]
pub enum StoreFault {
    /// The store could not read or write, which its count shows.
    #[error("the store failed")]
    Failed,
    /// Memory ran out.
    #[error("no memory")]
    NoMemory,
}

impl From<numbers::NoMemory> for StoreFault {
    ghost from_gives = { λ _ fault. fault ≡ NoMemory };

    fn from(_error: numbers::NoMemory) -> StoreFault {
        StoreFault::NoMemory
    }
}

impl From<io::Error> for StoreFault {
    ghost from_gives = { λ _ fault. fault ≡ Failed };

    fn from(_error: io::Error) -> StoreFault {
        StoreFault::Failed
    }
}

impl From<AllocError> for StoreFault {
    ghost from_gives = { λ _ fault. fault ≡ NoMemory };

    fn from(_error: AllocError) -> StoreFault {
        StoreFault::NoMemory
    }
}

impl<T: Drop> From<AllocFailed<T>> for StoreFault {
    ghost from_gives = { λ _ fault. fault ≡ NoMemory };

    fn from(_error: AllocFailed<T>) -> StoreFault {
        StoreFault::NoMemory
    }
}

/// Names that hold bytes, and calls that can fail.
///
/// Proofs see whether the store tells what it holds, what each name holds, the two counts of faults, and the name
/// in the last call that answered `Failed`, which is empty before the first. A count never falls and stands still at
/// 2^64 - 1. What a store holds is spoken of only where it tells.
pub trait Store {
    ghost tells: { Self → Bool };

    ghost holds: { Self → List ℕ → Option (List ℕ) };

    ghost read_faults: { Self → ℕ };

    ghost write_faults: { Self → ℕ };

    ghost failed: { Self → List ℕ };

    /// Takes what `name` holds, at most `limit` bytes, to the end of the empty `to`.
    ///
    /// `TooLong` says that there are more bytes than `limit`. A name that isn't held gives `Failed` or `NoMemory`. After an
    /// answer that isn't `Whole` nothing is said of `to`.
    fn get(&mut self, name: &str, limit: usize, to: &mut Vec<u8>) -> Result<Got, StoreFault>
        requires { to.old.items ≡ [] }
        ensures gets { IsTrue (tells self.old) → Gets result (holds self.old name.now) limit
            to.new.items }
        ensures at_most_limit { KeepsLimit result limit to.new.items }
        ensures holds_same { holds self.new ≡ holds self.old }

        ensures counts { StoreCounts result (read_faults self.old) (read_faults self.new)
            name.now (failed self.old) (failed self.new) }
        ensures never_falls { read_faults self.old ≤ read_faults self.new }
        ensures to_last { read_faults self.old ≤ last_count → read_faults self.new ≤ last_count }
        ensures write_faults_same { write_faults self.new ≡ write_faults self.old }
        ensures tells_same { tells self.new ≡ tells self.old };

    /// Makes `name` hold `bytes`.
    ///
    /// After `Failed` or `NoMemory` the name holds what it held, or the first few of the new bytes.
    fn put(&mut self, name: &str, bytes: &[u8]) -> Result<(), StoreFault>
        ensures puts { IsTrue (tells self.old) → Puts result (holds self.old name.now)
            (holds self.new name.now) bytes.now }
        ensures others_same { (other : List ℕ) → other ≢ name.now → holds self.new other ≡ holds
            self.old other }

        ensures counts { StoreCounts result (write_faults self.old) (write_faults self.new)
            name.now (failed self.old) (failed self.new) }
        ensures never_falls { write_faults self.old ≤ write_faults self.new }
        ensures to_last { write_faults self.old ≤ last_count → write_faults self.new ≤ last_count }
        ensures read_faults_same { read_faults self.new ≡ read_faults self.old }
        ensures tells_same { tells self.new ≡ tells self.old };
}
