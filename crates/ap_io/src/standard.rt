// Any reader and writer of std, with a count of their errors.
ghost use Rattle.std.specs.Prelude.{◌≡◌, ◌<◌, ◌≤◌, length, IfOk, OnErr};
ghost use Rattle.std.specs.Io.{ReadsAtMost};
ghost use Rattle.std.specs.Io.KnownBytes.{ReadConsumes, WriteAppends};
ghost use Rattle.ap_io.specs.Causes.{HasCause, next};

use crate::counts::one_more;
use crate::{Failed, Sink, Source};
use std::io::{Read, Write};
use std::marker::Model;

/// A reader of std as a source. It counts each error of the reader, and tells the bytes that are left
/// where the reader tells them. Standard input tells none.
#[derive(Drop)]
pub struct StdSource<R> {
    reader: R,
    failures: u64,
}

impl<R> Model for StdSource<R> {
    ghost use Rattle.ap_io.specs.Standard.{Counted};

    ghost Value = { Counted R };

    ghost view = { λ s. record { stream = s.reader; faults = s.failures } };
}

impl<R: Read> StdSource<R> {
    /// A source that reads from this reader and has counted no failure. It takes no memory.
    pub fn new(reader: R) -> Self
        ensures { result ≡ record { stream = reader; faults = 0 } }
    {
        StdSource {
            reader,
            failures: 0,
        }
    }
}

impl<R: Read> Source for StdSource<R> {
    ghost left = { λ s. R.remaining s.stream };

    ghost faults = { λ s. s.faults };

    /// Reads once from the reader. An error of the reader is counted once.
    fn read(&mut self, buf: &mut [u8]) -> Result<usize, Failed>
        requires { 0 < length buf.old }
        ensures bound { ReadsAtMost result buf.new }
        ensures bytes { ReadConsumes (R.remaining self.old.stream) (R.remaining self.new.stream)
            result buf.new }
        ensures cause { HasCause self.old.faults self.new.faults result }
        ensures once { OnErr result (self.new.faults ≡ next self.old.faults) }
    {
        match self.reader.read(buf) {
            Ok(count) => Ok(count),
            Err(_) => {
                self.failures = one_more(self.failures);
                Err(Failed)
            }
        }
    }

    fn faults(&self) -> u64 {
        self.failures
    }
}

/// A writer of std as a sink. It counts each error of the writer, and each write of no bytes, which
/// it takes for an error. It tells the bytes that it holds where the writer tells them. Standard
/// output tells none.
#[derive(Drop)]
pub struct StdSink<W> {
    writer: W,
    failures: u64,
}

impl<W> Model for StdSink<W> {
    ghost use Rattle.ap_io.specs.Standard.{Counted};

    ghost Value = { Counted W };

    ghost view = { λ s. record { stream = s.writer; faults = s.failures } };
}

impl<W: Write> StdSink<W> {
    /// A sink that writes to this writer and has counted no failure. It takes no memory.
    pub fn new(writer: W) -> Self
        ensures { result ≡ record { stream = writer; faults = 0 } }
    {
        StdSink {
            writer,
            failures: 0,
        }
    }
}

impl<W: Write> Sink for StdSink<W> {
    ghost held = { λ s. W.contents s.stream };

    ghost faults = { λ s. s.faults };

    /// Writes once to the writer. An error of the writer, and a write of no bytes, is counted once.
    fn write(&mut self, piece: &[u8]) -> Result<usize, Failed>
        requires { 0 < length piece.now }
        ensures bound { IfOk result (λ n. (0 < n) × (n ≤ length piece.now)) }
        ensures bytes { WriteAppends (W.contents self.old.stream) (W.contents self.new.stream)
            result piece.now }
        ensures cause { HasCause self.old.faults self.new.faults result }
        ensures once { OnErr result (self.new.faults ≡ next self.old.faults) }
    {
        match self.writer.write(piece) {
            Ok(count) if count > 0 => Ok(count),
            _ => {
                self.failures = one_more(self.failures);
                Err(Failed)
            }
        }
    }

    fn faults(&self) -> u64 {
        self.failures
    }
}
