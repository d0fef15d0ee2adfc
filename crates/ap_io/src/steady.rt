// A source and a sink that never fail.
ghost use Rattle.std.specs.Prelude.{◌≡◌, ◌<◌, ◌≤◌, None, Some, Ok, IfOk, min, length};
ghost use Rattle.std.specs.Io.{ReadsAtMost};
ghost use Rattle.std.specs.Io.KnownBytes.{ReadConsumes, WriteAppends};
ghost use Rattle.ap_io.specs.Causes.{HasCause};

use crate::front::copy_front;
use crate::{Failed, Sink, Source};
use std::marker::Model;

/// A source of bytes in memory that never fails: its count of failures is 0 for good. Contracts see
/// it as the bytes that are left.
#[derive(Drop)]
pub struct SteadySource {
    bytes: Vec<u8>,
    at: usize,
}

impl Model for SteadySource {
    ghost use Rattle.std.specs.Prelude.{ℕ, List, ◌≤◌, length, drop};

    ghost Value = { List ℕ };

    ghost view = { λ s. drop s.at s.bytes.items };

    ghost invariant = { λ s. s.at ≤ length s.bytes.items };
}

impl SteadySource {
    /// A source of these bytes. It takes no memory.
    pub fn new(bytes: Vec<u8>) -> Self
        ensures { result ≡ bytes.items }
    {
        SteadySource { bytes, at: 0 }
    }
}

impl Source for SteadySource {
    ghost left = { λ s. Some s };

    ghost faults = { λ _. 0 };

    /// Reads as many bytes as are left and fit into `buf`.
    fn read(&mut self, buf: &mut [u8]) -> Result<usize, Failed>
        requires { 0 < length buf.old }
        ensures bound { ReadsAtMost result buf.new }
        ensures bytes { ReadConsumes (Some self.old) (Some self.new) result buf.new }
        ensures cause { HasCause 0 0 result }
        ensures count { result ≡ Ok (min (length self.old) (length buf.old)) }
    {
        let count = copy_front(&self.bytes[self.at..], buf);
        self.at += count;
        Ok(count)
    }

    fn faults(&self) -> u64 {
        0
    }
}

/// A sink that takes each piece whole, keeps none of it, tells no bytes and never fails: its count of
/// failures is 0 for good.
#[derive(Clone, Copy)]
pub struct SteadySink;

impl SteadySink {
    /// It takes no memory.
    pub fn new() -> Self
        ensures { ⟦<SteadySink as Sink>⟧.faults result ≡ 0 }
    {
        SteadySink
    }
}

impl Sink for SteadySink {
    ghost held = { λ _. None };

    ghost faults = { λ _. 0 };

    /// Takes the piece whole and keeps none of it.
    fn write(&mut self, piece: &[u8]) -> Result<usize, Failed>
        requires { 0 < length piece.now }
        ensures bound { IfOk result (λ n. (0 < n) × (n ≤ length piece.now)) }
        ensures bytes { WriteAppends None None result piece.now }
        ensures cause { HasCause 0 0 result }
        ensures whole { result ≡ Ok (length piece.now) }
    {
        Ok(piece.len())
    }

    fn faults(&self) -> u64 {
        0
    }
}
