// A source and a sink in memory, which fail at the calls that they are told.
ghost use Rattle.std.specs.Prelude.{◌≡◌, ◌≤◌, ◌<◌, ◌↔◌, ◌⊎◌, ◌-◌, ◌++◌, [], Some, min, take, drop, length, IsErr, OnErr, IfOk, Contains};
ghost use Rattle.std.specs.Io.{ReadsAtMost};
ghost use Rattle.std.specs.Io.KnownBytes.{ReadConsumes, WriteAppends};
ghost use Rattle.ap_io.specs.Causes.{HasCause, next};

use crate::counts::one_more;
use crate::front::copy_front;
use crate::{Failed, Sink, Source};
use ap_defs::memory::Memory;
use std::alloc::Global;
use std::marker::Model;

/// A source of bytes in memory. Its calls of `read` have the numbers 1, 2 and so on, up to the
/// greatest `u64`, which all later calls share. Exactly the calls whose numbers it is told fail.
#[derive(Drop)]
pub struct MemSource {
    bytes: Vec<u8>,
    at: usize,
    calls: u64,
    failures: u64,
    fails: Vec<u64>,
}

impl Model for MemSource {
    ghost use Rattle.std.specs.Prelude.{◌≤◌, length, drop};
    ghost use Rattle.ap_io.specs.Memory.{Reading};

    ghost Value = { Reading };

    ghost view = { λ s. record { left = drop s.at s.bytes.items; calls = s.calls; faults = s.failures; fails = s.fails.items } };

    ghost invariant = { λ s. s.at ≤ length s.bytes.items };
}

impl MemSource {
    /// A source of these bytes. The calls of `read` whose numbers stand in `fails` fail. It takes no
    /// memory.
    pub fn new(bytes: Vec<u8>, fails: Vec<u64>) -> Self
        ensures { result
            ≡ record { left = bytes.items; calls = 0; faults = 0; fails = fails.items } }
    {
        MemSource {
            bytes,
            at: 0,
            calls: 0,
            failures: 0,
            fails,
        }
    }
}

impl Source for MemSource {
    ghost left = { λ s. Some s.left };

    ghost faults = { λ s. s.faults };

    /// Reads as many bytes as are left and fit into `buf`. Exactly the calls whose numbers stand in
    /// `fails` fail, and each failure is counted once.
    fn read(&mut self, buf: &mut [u8]) -> Result<usize, Failed>
        requires { 0 < length buf.old }
        ensures bound { ReadsAtMost result buf.new }
        ensures bytes { ReadConsumes (Some self.old.left) (Some self.new.left) result buf.new }
        ensures cause { HasCause self.old.faults self.new.faults result }
        ensures fails { IsErr result ↔ Contains self.old.fails (next self.old.calls) }
        ensures count { IfOk result (λ n. n ≡ min (length self.old.left) (length buf.old)) }
        ensures ok { IfOk result (λ n. self.new ≡ record self.old {
          left = drop n self.old.left;
          calls = next self.old.calls;
        }) }
        ensures err { OnErr result (self.new ≡ record self.old {
          calls = next self.old.calls;
          faults = next self.old.faults;
        }) }
    {
        self.calls = one_more(self.calls);
        if self.fails.contains(&self.calls) {
            self.failures = one_more(self.failures);
            return Err(Failed);
        }
        let count = copy_front(&self.bytes[self.at..], buf);
        self.at += count;
        Ok(count)
    }

    fn faults(&self) -> u64 {
        self.failures
    }
}

/// A sink in memory that takes up to `most` bytes at a write while it has room. Its calls of `write`
/// have the numbers 1, 2 and so on, up to the greatest `u64`, which all later calls share. Exactly
/// the calls whose numbers it is told fail, and those at which no room is left.
#[derive(Drop)]
pub struct MemSink {
    bytes: Vec<u8>,
    most: usize,
    room: usize,
    calls: u64,
    failures: u64,
    fails: Vec<u64>,
}

impl Model for MemSink {
    ghost use Rattle.std.specs.Prelude.{◌≤◌, vec_capacity};
    ghost use Rattle.ap_io.specs.Memory.{SinkWriting, IsRoomy};

    ghost Value = { SinkWriting };

    ghost view = { λ s. record { held = s.bytes.items; most = s.most; room = s.room; calls = s.calls; faults = s.failures; fails = s.fails.items } };

    ghost invariant = { λ s. IsRoomy s.most s.room (vec_capacity s.bytes) s.bytes.items };
}

impl MemSink {
    /// An empty sink that takes up to `most` bytes at a write, and `room` bytes in all. The calls of
    /// `write` whose numbers stand in `fails` fail. It takes the memory for `room` bytes now, so that
    /// a write takes none.
    pub fn new(alloc: Global, most: usize, room: usize, fails: Vec<u64>) -> Result<Self, Memory>
        requires { 1 ≤ most }
        ensures { IfOk result (λ sink. sink ≡ record {
          held = [];
          most = most;
          room = room;
          calls = 0;
          faults = 0;
          fails = fails.items;
        }) }
    {
        let bytes = Vec::with_capacity(alloc, room)?;
        Ok(MemSink {
            bytes,
            most,
            room,
            calls: 0,
            failures: 0,
            fails,
        })
    }

    /// The bytes that it holds. It takes no memory.
    pub fn bytes(&self) -> &[u8]
        ensures { result.now ≡ self.now.held }
    {
        &self.bytes
    }
}

impl Sink for MemSink {
    ghost held = { λ s. Some s.held };

    ghost faults = { λ s. s.faults };

    /// Takes as many bytes of the piece as `most` and the room that is left allow. Exactly the calls
    /// whose numbers stand in `fails` fail, and those at which no room is left. Each failure is
    /// counted once. It takes no memory.
    fn write(&mut self, piece: &[u8]) -> Result<usize, Failed>
        requires { 0 < length piece.now }
        ensures bound { IfOk result (λ n. (0 < n) × (n ≤ length piece.now)) }
        ensures bytes { WriteAppends (Some self.old.held) (Some self.new.held) result piece.now }
        ensures cause { HasCause self.old.faults self.new.faults result }
        ensures fails { IsErr result
            ↔ (Contains self.old.fails (next self.old.calls)
            ⊎ (length self.old.held ≡ self.old.room)) }
        ensures count { IfOk result (λ n.
            n ≡ min (min self.old.most (self.old.room - length self.old.held)) (length piece.now)) }
        ensures ok { IfOk result (λ n. self.new ≡ record self.old {
          held = self.old.held ++ take n piece.now;
          calls = next self.old.calls;
        }) }
        ensures err { OnErr result (self.new ≡ record self.old {
          calls = next self.old.calls;
          faults = next self.old.faults;
        }) }
    {
        self.calls = one_more(self.calls);
        let room = self.room - self.bytes.len();
        if room == 0 || self.fails.contains(&self.calls) {
            self.failures = one_more(self.failures);
            return Err(Failed);
        }
        let count = self.most.min(room).min(piece.len());
        self.bytes.extend_from_slice(&piece[..count]).unwrap();
        Ok(count)
    }

    fn faults(&self) -> u64 {
        self.failures
    }
}
