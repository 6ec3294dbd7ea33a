//! A sink in memory, which fails at the calls that it is told to.

ghost use Rattle.std.specs.Prelude.{◌≡◌, ◌≤◌, ℕ, Contains, IfOk, [], true};
ghost use Rattle.mv_base.specs.Faults.{SinkCounts, SinkFailsWhere, last_count, next_call};
ghost use Rattle.mv_base.specs.MemSinkState.{failing_puts, fault_count, put_count, written_bytes};
ghost use Rattle.mv_base.specs.Printing.{Prints};

use crate::numbers::NoMemory;
use crate::sink::{Sink, SinkFault};
use std::alloc::Global;

/// A sink that keeps what is written, and tells it. It numbers the calls of `put` from 1, and fails at those whose
/// number it was given. The number stands still at 2^64 - 1.
#[derive(Debug, Drop)]
pub struct MemSink {
    written: Vec<u8>,
    fail_puts: Vec<u64>,
    puts: u64,
    faults: u64,
}

impl MemSink {
    /// A sink with nothing written, whose calls of `put` with the numbers `fail_puts` are to fail.
    pub fn new(alloc: Global, fail_puts: Vec<u64>) -> Result<MemSink, NoMemory>
        ensures written { IfOk result (λ s. written_bytes s ≡ []) }
        ensures failing { IfOk result (λ s. failing_puts s ≡ fail_puts.items) }
        ensures counts { IfOk result (λ s. (put_count s ≡ 0) × (fault_count s ≡ 0)) }
    {
        Ok(MemSink {
            written: Vec::new(alloc),
            fail_puts,
            puts: 0,
            faults: 0,
        })
    }

    /// What is written.
    pub fn bytes(&self) -> &[u8]
        ensures { result.now ≡ written_bytes self.now }
    {
        self.written.as_slice()
    }
}

impl Sink for MemSink {
    ghost tells = { λ _. true };

    ghost written = { written_bytes };

    ghost faults = { fault_count };

    fn put(&mut self, bytes: &[u8]) -> Result<(), SinkFault>
        ensures prints { Prints result bytes.now (written_bytes self.old) (written_bytes self.new) }
        ensures counts { SinkCounts result (fault_count self.old) (fault_count self.new) }
        ensures never_falls { fault_count self.old ≤ fault_count self.new }
        ensures to_last { fault_count self.old ≤ last_count → fault_count self.new ≤ last_count }

        // Failed comes exactly at the calls with the numbers that were given, want of memory aside.
        ensures fails { SinkFailsWhere result (Contains (failing_puts self.old)
            (next_call (put_count self.old))) }
        ensures numbered { put_count self.new ≡ next_call (put_count self.old) }
        ensures failing_same { failing_puts self.new ≡ failing_puts self.old }
    {
        self.puts = self.puts.saturating_add(1);
        if self.fail_puts.contains(&self.puts) {
            self.faults = self.faults.saturating_add(1);
            return Err(SinkFault::Failed);
        }
        self.written.extend_from_slice(bytes)?;
        Ok(())
    }
}
