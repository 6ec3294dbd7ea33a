//! Standard output as a sink: the trusted edge.

ghost use Rattle.std.specs.Prelude.{◌≡◌, [], false};

use crate::pieces::write_pieces;
use crate::sink::{Sink, SinkFault};
use std::io;

/// What `Print` prints to, in the program standard output. Nobody can say what a terminal or a pipe took, so this sink
/// tells nothing of it; its count is exact.
#[derive(Drop)]
pub struct StdSink<'a, P: Print> {
    output: &'a P,
    faults: u64,
}

impl<'a, P: Print> StdSink<'a, P> {
    /// The output that `output` prints to. No call has failed yet.
    pub fn new(output: &'a P) -> StdSink<'a, P>
        ensures { ⟦<StdSink<'a, P> as Sink>⟧.faults result ≡ 0 }
    {
        StdSink { output, faults: 0 }
    }
}

impl<'a, P: Print> Sink for StdSink<'a, P> {
    ghost tells = { λ _. false };

    ghost written = { λ _. [] };

    ghost faults = { λ s. s.faults };

    fn put(&mut self, bytes: &[u8]) -> Result<(), SinkFault> {
        match write_pieces(&mut io::writer(self.output), bytes) {
            Ok(()) => Ok(()),
            Err(_) => {
                self.faults = self.faults.saturating_add(1);
                Err(SinkFault::Failed)
            }
        }
    }
}
