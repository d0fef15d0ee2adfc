//! Steps as HTML: trees that fold, and bound names in the colour of their binder.

ghost use Rattle.std.specs.Prelude.{◌≡◌, ◌++◌, drop, take, OnOk, IfOk};
ghost use Rattle.ap_steps.specs.Html as spec;

use crate::escapes::write_html;
use crate::repeats::{write_note, write_repeated};
use crate::steps::{Mark, Phrase, Step};
use ap_defs::memory::Memory;
use std::alloc::Global;

/// To this height steps stand inside one another; deeper ones stand side by side, with how deep they are.
const HTML_HEIGHT: usize = 100;

/// Writes the tag of a colour.
fn write_tag(alloc: Global, out: &mut Vec<u8>, colour: u32) -> Result<(), Memory>
    ensures { OnOk result (out.new.items ≡ out.old.items ++ spec.tag colour) }
{
    let tag = format!(in alloc; "<b class=\"c{colour}\">")?;
    out.extend_from_slice(tag.as_str().as_bytes())?;
    Ok(())
}

/// Writes a text in the colour of a binder.
#[tactic(auto, unfolding(crate::specs::Html::tagged))]
fn write_tagged(alloc: Global, out: &mut Vec<u8>, colour: u32, text: &[u8]) -> Result<(), Memory>
    ensures { OnOk result (out.new.items ≡ out.old.items ++ spec.tagged colour text.now) }
{
    write_tag(alloc, out, colour)?;
    write_html(out, text)?;
    out.extend_from_slice(b"</b>")?;
    Ok(())
}

/// Writes a part of a text, in the colour of a binder, if it has one.
#[tactic(auto, unfolding(crate::specs::Html::coloured))]
fn write_coloured(alloc: Global, out: &mut Vec<u8>, colour: u32, text: &[u8]) -> Result<(), Memory>
    ensures { OnOk result (out.new.items ≡ out.old.items ++ spec.coloured colour text.now) }
{
    if colour == 0 {
        write_html(out, text)
    } else {
        write_tagged(alloc, out, colour, text)
    }
}

/// The front of a text of at most so many bytes, and the rest.
#[tactic(auto, using(std::proofs::lemmas::List::take_min, std::proofs::lemmas::List::drop_min))]
fn parted(text: &[u8], length: usize) -> (&[u8], &[u8])
    ensures front { result.0.now ≡ take length text.now }
    ensures rest { result.1.now ≡ drop length text.now }
{
    text.split_at(length.min(text.len()))
}

/// Writes a text whose bound names are marked.
fn write_marked(alloc: Global, out: &mut Vec<u8>, text: &[u8], marks: &[Mark]) -> Result<(), Memory>
    ensures { OnOk result (out.new.items ≡ out.old.items ++ spec.marked_text text.now marks.now) }
{
    let mut rest = text;
    let mut left = marks;
    'marks: while let Some((mark, others)) = left.split_first() {
        let (front, behind) = parted(rest, mark.length);
        write_coloured(alloc, out, mark.colour, front)?;
        rest = behind;
        left = others;
    }
    write_html(out, rest)
}

/// Writes a phrase.
fn write_phrase(alloc: Global, out: &mut Vec<u8>, phrase: &Phrase) -> Result<(), Memory>
    ensures { OnOk result (out.new.items ≡ out.old.items ++ spec.phrase_text phrase.now) }
{
    write_marked(alloc, out, phrase.text.items(), phrase.marks.items())
}

/// Writes the conditions at the side of a rule, behind it.
fn write_sides(alloc: Global, out: &mut Vec<u8>, sides: &[Phrase]) -> Result<(), Memory>
    ensures { OnOk result (out.new.items ≡ out.old.items ++ spec.html_side_texts sides.now) }
{
    for side in sides {
        out.extend_from_slice(b"; ")?;
        write_phrase(alloc, out, side)?;
    }
    Ok(())
}

/// Writes what a step says.
#[tactic(auto, unfolding(crate::specs::Html::saying))]
fn write_saying(alloc: Global, out: &mut Vec<u8>, step: &Step) -> Result<(), Memory>
    ensures { OnOk result (out.new.items ≡ out.old.items ++ spec.saying step.now) }
{
    write_note(alloc, out, HTML_HEIGHT, step.depth)?;
    write_phrase(alloc, out, &step.judgement)?;
    out.extend_from_slice(b" <span>[")?;
    write_html(out, step.rule.items())?;
    write_sides(alloc, out, step.sides.items())?;
    out.extend_from_slice(b"]</span>")?;
    Ok(())
}

/// Whether steps stand inside one at this level, given those that come behind it.
fn has_steps_inside(level: usize, others: &[Step]) -> bool
    ensures { result ≡ spec.has_inside level others.now }
{
    match others.first() {
        Some(next) => level < next.depth.min(HTML_HEIGHT),
        None => false,
    }
}

/// Writes what stands before a step that others stand inside of.
#[tactic(auto, unfolding(crate::specs::Html::opening))]
fn write_opening(out: &mut Vec<u8>) -> Result<(), Memory>
    ensures { OnOk result (out.new.items ≡ out.old.items ++ spec.opening) }
{
    out.extend_from_slice(b"<details open><summary>")?;
    Ok(())
}

/// Writes a step that others stand inside of.
fn write_inner(alloc: Global, out: &mut Vec<u8>, step: &Step) -> Result<(), Memory>
    ensures { OnOk result (out.new.items ≡ out.old.items ++ spec.inner_step step.now) }
{
    write_opening(out)?;
    write_saying(alloc, out, step)?;
    out.extend_from_slice(b"</summary>\n")?;
    Ok(())
}

/// Writes a step that no other stands inside of.
fn write_leaf(alloc: Global, out: &mut Vec<u8>, step: &Step) -> Result<(), Memory>
    ensures { OnOk result (out.new.items ≡ out.old.items ++ spec.leaf_step step.now) }
{
    out.extend_from_slice(b"<div>")?;
    write_saying(alloc, out, step)?;
    out.extend_from_slice(b"</div>\n")?;
    Ok(())
}

/// Writes a step, which others stand inside of or not.
#[tactic(auto, unfolding(crate::specs::Html::shown_step))]
fn write_shown(alloc: Global, out: &mut Vec<u8>, inside: bool, step: &Step) -> Result<(), Memory>
    ensures { OnOk result (out.new.items ≡ out.old.items ++ spec.shown_step inside step.now) }
{
    if inside {
        write_inner(alloc, out, step)
    } else {
        write_leaf(alloc, out, step)
    }
}

/// Writes the end of so many steps that others stood inside of.
#[tactic(auto, unfolding(crate::specs::Html::ends))]
fn write_ends(out: &mut Vec<u8>, count: usize) -> Result<(), Memory>
    ensures { OnOk result (out.new.items ≡ out.old.items ++ spec.ends count) }
{
    write_repeated(out, b"</details>\n", count)
}

/// Writes a step where so many are open, and tells how many are open behind it.
fn write_step(
    alloc: Global,
    out: &mut Vec<u8>,
    levels: usize,
    step: &Step,
    others: &[Step],
) -> Result<usize, Memory>
    ensures written { OnOk result (out.new.items
        ≡ out.old.items ++ spec.step_text levels step.now others.now) }
    ensures opened { IfOk result (λ n. n ≡ spec.html_opened levels step.now others.now) }
{
    let level = levels.min(step.depth.min(HTML_HEIGHT));
    let inside = has_steps_inside(level, others);
    write_ends(out, levels - level)?;
    write_shown(alloc, out, inside, step)?;
    if inside { Ok(level + 1) } else { Ok(level) }
}

/// Writes steps as trees.
pub fn write_html_steps(alloc: Global, out: &mut Vec<u8>, steps: &[Step]) -> Result<(), Memory>
    ensures { OnOk result (out.new.items ≡ out.old.items ++ spec.trees 0 steps.now) }
{
    let mut levels = 0;
    let mut rest = steps;
    'steps: while let Some((step, others)) = rest.split_first() {
        levels = write_step(alloc, out, levels, step, others)?;
        rest = others;
    }
    write_ends(out, levels)
}
