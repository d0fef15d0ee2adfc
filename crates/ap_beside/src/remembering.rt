//! A source that remembers what was read.
ghost use Rattle.std.specs.Prelude.{◌≡◌};

use ap_io::{Failed, Source};
use std::alloc::Global;

/// A source, with a copy of all that was read from it, where one is wanted. Where memory is wanting for the copy, there is
/// none.
#[derive(Drop)]
pub struct Remembering<S> {
    source: S,
    kept: Vec<u8>,
    is_whole: bool,
}

impl<S: Source> Remembering<S> {
    /// A source of which nothing was read yet. It takes no memory.
    pub fn new(alloc: Global, source: S) -> Self {
        Remembering {
            source,
            kept: Vec::new(alloc),
            is_whole: true,
        }
    }

    /// The same, with no copy.
    pub fn without_copy(alloc: Global, source: S) -> Self {
        Remembering {
            source,
            kept: Vec::new(alloc),
            is_whole: false,
        }
    }

    /// All that was read, where a copy was wanted and there was memory for it.
    pub fn read_so_far(&self) -> Option<&[u8]> {
        if self.is_whole {
            Some(self.kept.as_slice())
        } else {
            None
        }
    }
}

impl<S: Source> Source for Remembering<S> {
    ghost left = { λ s. S.left s.source };

    ghost faults = { λ s. S.faults s.source };

    fn read(&mut self, buf: &mut [u8]) -> Result<usize, Failed> {
        let count = self.source.read(buf)?;
        if self.is_whole && self.kept.extend_from_slice(&buf[..count]).is_err() {
            self.is_whole = false;
        }
        Ok(count)
    }

    fn faults(&self) -> u64 {
        self.source.faults()
    }
}
