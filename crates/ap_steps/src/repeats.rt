//! Texts that are written many times over, and notes of how deep a step stands.

ghost use Rattle.std.specs.Prelude.{◌≡◌, ◌++◌, OnOk};
ghost use Rattle.ap_steps.specs.Depths as spec;

use ap_defs::memory::Memory;
use std::alloc::Global;

/// Writes a text so many times.
#[tactic(auto, using(crate::proofs::DepthLemmas::repeated_more))]
pub fn write_repeated(out: &mut Vec<u8>, text: &[u8], count: usize) -> Result<(), Memory>
    ensures { OnOk result (out.new.items ≡ out.old.items ++ spec.repeated count text.now) }
{
    for _turn in 0..count {
        out.extend_from_slice(text)?;
    }
    Ok(())
}

/// Tells how deep a step stands, where it is deeper than trees are drawn.
pub fn write_note(
    alloc: Global,
    out: &mut Vec<u8>,
    height: usize,
    depth: usize,
) -> Result<(), Memory>
    ensures { OnOk result (out.new.items ≡ out.old.items ++ spec.depth_note height depth) }
{
    if depth > height {
        let note = format!(in alloc; "({depth}) ")?;
        out.extend_from_slice(note.as_str().as_bytes())?;
    }
    Ok(())
}
