//! Steps as LaTeX: a tree of rules where a page holds it, and else a list.

ghost use Rattle.std.specs.Prelude.{◌≡◌, ◌<◌, ◌^◌, ◌++◌, OnOk, IfOk};
ghost use Rattle.ap_steps.specs.Latex as spec;

use crate::escapes::write_latex;
use crate::repeats::{write_note, write_repeated};
use crate::steps::{Phrase, Step};
use ap_defs::memory::Memory;
use std::alloc::Global;

/// A tree of rules has at most this height.
const TREE_HEIGHT: usize = 12;

/// A tree of rules has at most so many steps.
const TREE_STEPS: usize = 60;

/// A tree of rules has at most so many bytes: TeX can't measure what is much longer.
const TREE_BYTES: usize = 2800;

/// To this height the steps of a list are indented.
const LIST_HEIGHT: usize = 30;

/// Whether a page holds the steps as a tree.
fn fits_page(steps: &[Step]) -> bool
    ensures { result ≡ spec.fits_page steps.now }
{
    if steps.len() > TREE_STEPS {
        return false;
    }
    for step in steps {
        if step.depth > TREE_HEIGHT {
            return false;
        }
    }
    true
}

/// Writes the conditions at the side of a rule, behind it.
fn write_sides(out: &mut Vec<u8>, sides: &[Phrase]) -> Result<(), Memory>
    ensures { OnOk result (out.new.items ≡ out.old.items ++ spec.latex_side_texts sides.now) }
{
    for side in sides {
        out.extend_from_slice(b"; ")?;
        write_latex(out, side.text.items())?;
    }
    Ok(())
}

/// Writes the rule of a step and the judgement, each in braces.
#[tactic(auto, unfolding(crate::specs::Latex::saying))]
fn write_saying(out: &mut Vec<u8>, step: &Step) -> Result<(), Memory>
    ensures { OnOk result (out.new.items ≡ out.old.items ++ spec.saying step.now) }
{
    out.extend_from_slice(b"{")?;
    write_latex(out, step.rule.items())?;
    write_sides(out, step.sides.items())?;
    out.extend_from_slice(b"}{")?;
    write_latex(out, step.judgement.text.items())?;
    out.extend_from_slice(b"}")?;
    Ok(())
}

/// Writes the end of so many trees, and what stands between two trees, where one ends.
#[tactic(auto, unfolding(crate::specs::Latex::latex_between))]
fn write_between(out: &mut Vec<u8>, ends: usize) -> Result<(), Memory>
    ensures { OnOk result (out.new.items ≡ out.old.items ++ spec.latex_between ends) }
{
    write_repeated(out, b"}", ends)?;
    if ends != 0 {
        out.extend_from_slice(b" \\\\")?;
    }
    Ok(())
}

/// Writes the rule of a step where so many are open, and tells how many are open behind it.
#[tactic(auto, unfolding(crate::specs::Latex::node))]
fn write_node(out: &mut Vec<u8>, levels: usize, step: &Step) -> Result<usize, Memory>
    requires { levels < 2 ^ 63 }
    ensures written { OnOk result (out.new.items ≡ out.old.items ++ spec.node levels step.now) }
    ensures opened { IfOk result (λ n. n ≡ spec.latex_opened levels step.now) }
{
    let level = levels.min(step.depth);
    write_between(out, levels - level)?;
    out.extend_from_slice(b"\n\\derive")?;
    write_saying(out, step)?;
    out.extend_from_slice(b"{")?;
    Ok(level + 1)
}

/// Writes steps as a tree of rules.
fn write_tree(out: &mut Vec<u8>, steps: &[Step]) -> Result<(), Memory>
    ensures { OnOk result (out.new.items ≡ out.old.items ++ spec.tree 0 steps.now) }
{
    let mut levels = 0;
    let mut rest = steps;
    'steps: while let Some((step, others)) = rest.split_first() {
        levels = write_node(out, levels, step)?;
        rest = others;
    }
    write_repeated(out, b"}", levels)
}

/// Writes a step of a list.
#[tactic(auto, unfolding(crate::specs::Latex::item))]
fn write_item(alloc: Global, out: &mut Vec<u8>, step: &Step) -> Result<(), Memory>
    ensures { OnOk result (out.new.items ≡ out.old.items ++ spec.item step.now) }
{
    let indent = step.depth.min(LIST_HEIGHT);
    let head = format!(in alloc; "\\step{{{indent}}}{{")?;
    out.extend_from_slice(head.as_str().as_bytes())?;
    write_note(alloc, out, LIST_HEIGHT, step.depth)?;
    out.extend_from_slice(b"}")?;
    write_saying(out, step)?;
    out.extend_from_slice(b"\n")?;
    Ok(())
}

/// Writes steps as a list.
fn write_list(alloc: Global, out: &mut Vec<u8>, steps: &[Step]) -> Result<(), Memory>
    ensures { OnOk result (out.new.items ≡ out.old.items ++ spec.latex_items steps.now) }
{
    for step in steps {
        write_item(alloc, out, step)?;
    }
    Ok(())
}

/// Writes a tree of rules that a page holds.
fn write_page(out: &mut Vec<u8>, steps: &[Step]) -> Result<(), Memory>
    ensures { OnOk result (out.new.items ≡ out.old.items ++ spec.page steps.now) }
{
    out.extend_from_slice(b"\\derivation{")?;
    write_tree(out, steps)?;
    out.extend_from_slice(b"}\n")?;
    Ok(())
}

/// Writes steps as a tree of rules where that is short, and else as a list.
#[tactic(auto, unfolding(crate::specs::Latex::short_page))]
fn write_short_page(alloc: Global, out: &mut Vec<u8>, steps: &[Step]) -> Result<(), Memory>
    ensures { OnOk result (out.new.items ≡ out.old.items ++ spec.short_page steps.now) }
{
    let mut page = Vec::new(alloc);
    write_page(&mut page, steps)?;
    if page.len() > TREE_BYTES {
        return write_list(alloc, out, steps);
    }
    out.extend_from_slice(page.as_slice())?;
    Ok(())
}

/// Writes steps as a tree of rules where a page holds it, and else as a list.
pub fn write_latex_steps(alloc: Global, out: &mut Vec<u8>, steps: &[Step]) -> Result<(), Memory>
    ensures { OnOk result (out.new.items ≡ out.old.items ++ spec.steps_text steps.now) }
{
    if fits_page(steps) {
        write_short_page(alloc, out, steps)
    } else {
        write_list(alloc, out, steps)
    }
}
