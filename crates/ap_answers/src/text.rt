//! The text of terms.

ghost use Rattle.std.specs.Prelude.{◌≡◌, ◌<◌, ◌≤◌, ◌+◌, ◌*◌, ◌++◌, [], OnOk, IfOk};
ghost use Rattle.ap_defs.specs.Terms.{app, pair, term_of};
ghost use Rattle.ap_defs.specs.Unification.{size};
ghost use Rattle.ap_defs.specs.Printing.{Spelling, barred, swaps_text, term_at};
ghost use Rattle.ap_answers.specs.Spelled.{spelling_in};
ghost use Rattle.ap_answers.specs.Places.{written_place};
ghost use Rattle.ap_answers.specs.Writing.{closed_text, part_text, right_text, text_left, waiting_text, part_work, next_work, waiting_work};

use crate::beginnings::{
    begin_abstraction, begin_application, begin_pair, write_closers, write_suspension,
};
use crate::leaves::write_leaf;
use crate::place::{Place, write_bar, write_between, write_unit};
use crate::speller::Speller;
use ap_defs::memory::Memory;
use ap_defs::terms::{Name, Swap, Term, Var};
use std::alloc::Global;

/// A part of a term that is still to be written: where it stands, and what stands behind it, the last first.
#[derive(Drop)]
struct Part<'a> {
    term: &'a Term,
    place: Place,
    closers: Vec<u8>,
}

/// Writes a name at a place.
#[tactic(auto, using(crate::proofs::TextLemmas::behind_bar))]
fn write_name_at(
    out: &mut Vec<u8>,
    by: &Speller<'_>,
    name: Name,
    place: Place,
) -> Result<(), Memory>
    ensures { OnOk result (out.new.items
        ≡ out.old.items ++ barred (written_place place) ((spelling_in by.now).names name)) }
{
    write_bar(out, place)?;
    by.write_name(out, name)
}

/// Writes a variable inside swappings at a place.
#[tactic(auto, using(crate::proofs::TextLemmas::behind_bar))]
fn write_variable_at(
    out: &mut Vec<u8>,
    by: &Speller<'_>,
    swaps: &[Swap],
    var: Var,
    place: Place,
) -> Result<(), Memory>
    ensures { OnOk result (out.new.items
        ≡ out.old.items ++ barred (written_place place)
        (swaps_text (spelling_in by.now).names swaps.now ((spelling_in by.now).vars var))) }
{
    write_bar(out, place)?;
    write_suspension(out, by, swaps, var)
}

/// Writes what stands before the left part of a pair, which comes next. The right part, at the place of the pair,
/// waits.
fn write_pair<'a>(
    alloc: Global,
    out: &mut Vec<u8>,
    waiting: &mut Vec<Part<'a>>,
    left: &'a Term,
    right: Part<'a>,
) -> Result<Part<'a>, Memory>
    ensures written { IfOk result (λ next. (by : Spelling)
        → waiting_text by (part_text by out.new.items next) waiting.new.items
        ≡ waiting_text by (closed_text by out.old.items
        (pair (term_of left.now) (term_of right.entry.term.now)) (written_place right.entry.place)
        right.entry.closers.items) waiting.old.items) }
    ensures less { IfOk result (λ next. waiting_work waiting.new.items + part_work next
        < waiting_work waiting.old.items
        + 2 * size (pair (term_of left.now) (term_of right.entry.term.now))) }
{
    let Part {
        term,
        place,
        mut closers,
    } = right;
    begin_pair(out, &mut closers, place)?;
    waiting.push(Part {
        term,
        place,
        closers,
    })?;
    Ok(Part {
        term: left,
        place: Place::Whole,
        closers: Vec::new(alloc),
    })
}

/// Goes past the head of a list cell, of which the beginning is written, where it has no parts to write: it is
/// written, and the tail comes next.
#[tactic(auto, using(crate::proofs::TextLemmas::head_passed))]
fn pass_head<'a>(
    alloc: Global,
    out: &mut Vec<u8>,
    by: &Speller<'_>,
    mut part: Part<'a>,
) -> Result<Part<'a>, Memory>
    ensures written { IfOk result (λ next. part_text (spelling_in by.now) out.new.items next
        ≡ part_text (spelling_in by.now) out.old.items part.entry) }
    ensures less { IfOk result (λ next. part_work next ≤ part_work part.entry) }
{
    let Place::Cell = part.place else {
        return Ok(part);
    };
    let Term::Pair(head, tail) = part.term else {
        return Ok(part);
    };
    if !write_leaf(alloc, out, by, head)? {
        return Ok(part);
    }
    part.term = tail;
    part.place = Place::Rest;
    Ok(part)
}

/// Writes what stands before the argument of an application, which comes next; the whole of one that is written
/// without its argument.
fn write_application<'a>(
    alloc: Global,
    out: &mut Vec<u8>,
    by: &Speller<'_>,
    f: u32,
    argument: Part<'a>,
) -> Result<Option<Part<'a>>, Memory>
    ensures written { IfOk result (λ next. text_left (spelling_in by.now) out.new.items [] next
        ≡ closed_text (spelling_in by.now) out.old.items (app f (term_of argument.entry.term.now))
        (written_place argument.entry.place) argument.entry.closers.items) }
    ensures less { IfOk result (λ next. next_work next
        < 2 * size (app f (term_of argument.entry.term.now))) }
{
    let Part {
        term,
        place,
        mut closers,
    } = argument;
    if let Some(place) = begin_application(out, &mut closers, by.constructors, f, place)? {
        let part = Part {
            term,
            place,
            closers,
        };
        return Ok(Some(pass_head(alloc, out, by, part)?));
    }
    write_closers(out, closers)?;
    Ok(None)
}

/// Writes what stands at a part before its own parts, and what stands behind it where it has none. The next part
/// is its first one; the right part of a pair waits.
fn write_part<'a>(
    alloc: Global,
    out: &mut Vec<u8>,
    by: &Speller<'_>,
    waiting: &mut Vec<Part<'a>>,
    mut part: Part<'a>,
) -> Result<Option<Part<'a>>, Memory>
    ensures written { IfOk result (λ next.
        text_left (spelling_in by.now) out.new.items waiting.new.items next
        ≡ waiting_text (spelling_in by.now) (part_text (spelling_in by.now) out.old.items
        part.entry) waiting.old.items) }
    ensures less { IfOk result (λ next. waiting_work waiting.new.items + next_work next
        < waiting_work waiting.old.items + part_work part.entry) }
{
    let term = part.term;
    match term {
        Term::Unit => write_unit(out, part.place)?,
        Term::Name(name) => write_name_at(out, by, *name, part.place)?,
        Term::Susp(swaps, var) => write_variable_at(out, by, swaps.items(), *var, part.place)?,
        Term::Pair(left, right) => {
            part.term = right;
            return Ok(Some(write_pair(alloc, out, waiting, left, part)?));
        }
        Term::App(f, argument) => {
            part.term = argument;
            return write_application(alloc, out, by, *f, part);
        }
        Term::Abs(sort, num, body) => {
            let (sort, num) = (*sort, *num);
            begin_abstraction(out, by, Name { sort, num }, part.place)?;
            part.term = body;
            part.place = Place::Whole;
            return Ok(Some(part));
        }
    }
    write_closers(out, part.closers)?;
    Ok(None)
}

/// Writes what stands between the parts of a pair, whose left part is written: the right one comes next.
fn behind_left<'a>(out: &mut Vec<u8>, pair: Part<'a>) -> Result<Part<'a>, Memory>
    ensures written { IfOk result (λ right. (by : Spelling) → part_text by out.new.items right
        ≡ right_text by out.old.items pair.entry) }
    ensures same { IfOk result (λ right. part_work right ≡ part_work pair.entry) }
{
    let Part {
        term,
        place,
        closers,
    } = pair;
    let place = write_between(out, place)?;
    Ok(Part {
        term,
        place,
        closers,
    })
}

/// Writes a term at a place. The right parts of pairs wait on a stack while the left ones are written, so a term
/// may be deep on either side.
#[tactic(auto, using(crate::proofs::WritingLemmas::waiting_last, crate::proofs::WritingLemmas::work_last))]
pub fn write_term(
    alloc: Global,
    out: &mut Vec<u8>,
    by: &Speller<'_>,
    term: &Term,
    place: Place,
) -> Result<(), Memory>
    ensures { OnOk result (out.new.items
        ≡ out.old.items ++ term_at (spelling_in by.now) (term_of term.now) (written_place place)) }
{
    let mut waiting = Vec::new(alloc);
    let mut next = Some(Part {
        term,
        place,
        closers: Vec::new(alloc),
    });
    'writing: loop {
        match next {
            Some(part) => next = write_part(alloc, out, by, &mut waiting, part)?,
            None => match waiting.pop() {
                None => return Ok(()),
                Some(pair) => next = Some(behind_left(out, pair)?),
            },
        }
    }
}
