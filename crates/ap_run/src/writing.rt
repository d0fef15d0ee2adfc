// Writing all of a report.
ghost use Rattle.std.specs.Prelude.{◌≡◌, ℕ, OnOk, OnErr, take};
ghost use Rattle.std.specs.Io.KnownBytes.{Appends};
ghost use Rattle.ap_io.specs.Causes.{Rose};

use ap_io::{Failed, Sink};

/// Writes all bytes to the sink. After a failure the sink has the first of them. It takes no memory.
pub(crate) fn write_whole<K: Sink>(sink: &mut K, bytes: &[u8]) -> Result<(), Failed>
    ensures ok { OnOk result ((K.faults sink.new ≡ K.faults sink.old)
        × Appends (K.held sink.old) (K.held sink.new) bytes.now) }
    ensures err { OnErr result (Rose (K.faults sink.old) (K.faults sink.new)
        × (n : ℕ) × Appends (K.held sink.old) (K.held sink.new) (take n bytes.now)) }
{
    let mut at = 0;
    while at < bytes.len() {
        at += sink.write(&bytes[at..])?;
    }
    Ok(())
}
