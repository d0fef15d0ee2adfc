//! A sink that counts what a report tells of branches.
ghost use Rattle.std.specs.Prelude.{◌≡◌};

use ap_io::{Failed, Sink};
use ap_remarks::Tally;

/// A sink, with the sums over the report's lines of totals that were written to it.
#[derive(Drop)]
pub struct Counting<K> {
    sink: K,
    tally: Tally,
}

impl<K: Sink> Counting<K> {
    /// A sink to which nothing was written yet. It takes no memory.
    pub fn new(sink: K) -> Self {
        Counting {
            sink,
            tally: Tally::new(),
        }
    }

    /// The sums over what was written.
    pub fn tally(&self) -> Tally {
        self.tally
    }
}

impl<K: Sink> Sink for Counting<K> {
    ghost held = { λ s. K.held s.sink };

    ghost faults = { λ s. K.faults s.sink };

    fn write(&mut self, piece: &[u8]) -> Result<usize, Failed> {
        let count = self.sink.write(piece)?;
        self.tally.add(&piece[..count]);
        Ok(count)
    }

    fn faults(&self) -> u64 {
        self.sink.faults()
    }
}
