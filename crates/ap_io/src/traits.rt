// A source and a sink of bytes. Each counts its failures.
ghost use Rattle.std.specs.Prelude.{◌≡◌, ◌<◌, ◌≤◌, ℕ, List, length, IfOk};
ghost use Rattle.std.specs.declared.option.Option.{Option};
ghost use Rattle.std.specs.Io.{ReadsAtMost};
ghost use Rattle.std.specs.Io.KnownBytes.{ReadConsumes, WriteAppends};
ghost use Rattle.ap_io.specs.Causes.{HasCause};

/// A read or a write failed. Its object has counted it.
#[derive(Clone, Copy)]
pub struct Failed;

/// Where bytes come from.
pub trait Source {
    /// The bytes that are left, where the source tells them.
    ghost left: { Self → Option (List ℕ) };

    /// How often it has failed. A count at the greatest `u64` stands still.
    ghost faults: { Self → ℕ };

    /// Reads the first bytes that are left into the front of `buf`, which isn't empty, and says how
    /// many. It reads none only at the end of input. `Failed` comes only where the count of failures
    /// rose in this call, and leaves what is left as it was. A read that succeeds leaves the count.
    fn read(&mut self, buf: &mut [u8]) -> Result<usize, Failed>
        requires { 0 < length buf.old }
        ensures bound { ReadsAtMost result buf.new }
        ensures bytes { ReadConsumes (left self.old) (left self.new) result buf.new }
        ensures cause { HasCause (faults self.old) (faults self.new) result };

    /// How often it has failed.
    fn faults(&self) -> u64
        ensures { result ≡ faults self.now };
}

/// Where bytes go.
pub trait Sink {
    /// The bytes that it holds, where the sink tells them.
    ghost held: { Self → Option (List ℕ) };

    /// How often it has failed. A count at the greatest `u64` stands still.
    ghost faults: { Self → ℕ };

    /// Appends the first bytes of `piece`, which isn't empty, at least one of them, and says how
    /// many. `Failed` comes only where the count of failures rose in this call, and leaves what it
    /// holds as it was. A write that succeeds leaves the count.
    fn write(&mut self, piece: &[u8]) -> Result<usize, Failed>
        requires { 0 < length piece.now }
        ensures bound { IfOk result (λ n. (0 < n) × (n ≤ length piece.now)) }
        ensures bytes { WriteAppends (held self.old) (held self.new) result piece.now }
        ensures cause { HasCause (faults self.old) (faults self.new) result };

    /// How often it has failed.
    fn faults(&self) -> u64
        ensures { result ≡ faults self.now };
}
