//! What stands at the end of a text.

ghost use Rattle.std.specs.Prelude.{◌≡◌, ◌++◌, reverse, OnOk};

use ap_defs::memory::Memory;

/// Writes what has been kept for the end, the last first.
pub fn write_closers(out: &mut Vec<u8>, mut closers: Vec<u8>) -> Result<(), Memory>
    ensures { OnOk result (out.new.items ≡ out.old.items ++ reverse closers.items) }
{
    while let Some(closer) = closers.pop() {
        out.push(closer)?;
    }
    Ok(())
}
