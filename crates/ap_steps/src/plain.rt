//! Steps as plain text, a line for each.

ghost use Rattle.std.specs.Prelude.{◌≡◌, ◌++◌, OnOk};
ghost use Rattle.ap_steps.specs.Plain as spec;

use crate::repeats::{write_note, write_repeated};
use crate::steps::{Phrase, Step};
use ap_defs::memory::Memory;
use std::alloc::Global;

/// To this height steps are indented.
const PLAIN_HEIGHT: usize = 30;

/// Writes what stands before a step's judgement.
fn write_indent(alloc: Global, out: &mut Vec<u8>, depth: usize) -> Result<(), Memory>
    ensures { OnOk result (out.new.items ≡ out.old.items ++ spec.indent depth) }
{
    write_repeated(out, b"  ", depth.min(PLAIN_HEIGHT))?;
    write_note(alloc, out, PLAIN_HEIGHT, depth)
}

/// Writes the conditions at the side of a rule, behind it.
fn write_sides(out: &mut Vec<u8>, sides: &[Phrase]) -> Result<(), Memory>
    ensures { OnOk result (out.new.items ≡ out.old.items ++ spec.side_texts sides.now) }
{
    for side in sides {
        out.extend_from_slice(b"; ")?;
        out.extend_from_slice(side.text.items())?;
    }
    Ok(())
}

/// Writes the line of a step.
fn write_step(alloc: Global, out: &mut Vec<u8>, step: &Step) -> Result<(), Memory>
    ensures { OnOk result (out.new.items ≡ out.old.items ++ spec.plain_step step.now) }
{
    write_indent(alloc, out, step.depth)?;
    out.extend_from_slice(step.judgement.text.items())?;
    out.extend_from_slice(b"  [")?;
    out.extend_from_slice(step.rule.items())?;
    write_sides(out, step.sides.items())?;
    out.extend_from_slice(b"]\n")?;
    Ok(())
}

/// Writes the lines of steps.
pub fn write_plain(alloc: Global, out: &mut Vec<u8>, steps: &[Step]) -> Result<(), Memory>
    ensures { OnOk result (out.new.items ≡ out.old.items ++ spec.plain_steps steps.now) }
{
    for step in steps {
        write_step(alloc, out, step)?;
    }
    Ok(())
}
