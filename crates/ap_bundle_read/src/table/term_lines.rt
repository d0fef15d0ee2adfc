// The lines that stand for terms: a term in full, or the number of a line of the table.
//
// A term of the table is made in full only for a line that cites it, where there is room for its size.
ghost use Rattle.std.specs.Prelude.{◌≡◌, ◌<◌, length, IfOk, IfSome};
ghost use Rattle.std.specs.Option.{option_map};
ghost use Rattle.ap_defs.specs.Terms.{term_of};
ghost use Rattle.ap_bundle.specs.Readers as readers;
ghost use Rattle.ap_bundle.specs.TableForms as spec;
ghost use Rattle.ap_bundle_read.specs.Outcomes.{Gives, place_of};
ghost use Rattle.ap_bundle_read.specs.Tables.{reader_of};
ghost use Rattle.ap_shared.specs.Shared.{shared_at};
ghost use Rattle.ap_shared.specs.SharedViews.{shared_terms};

use crate::error::ReadError;
use crate::line_forms::{after_head, number, term_form};
use crate::place::{Place, ROOM, words_at, wrong};
use ap_bundle::faults::BundleKind;
use ap_bundle::words::{Head, Word};
use ap_defs::terms::Term;
use ap_shared::arena::SharedTerms;
use ap_shared::expanding::expanded;
use std::alloc::Global;

/// How the terms of a bundle are written: in full, or by their lines in a table.
#[derive(Drop)]
pub(crate) enum Terms {
    InFull,
    Shared(SharedTerms),
}

/// `r I`
#[tactic(auto, unfolding(ap_bundle::specs::TableForms::shared_form))]
fn shared_form(table: &SharedTerms, words: &[Word]) -> Option<usize>
    ensures value { option_map (shared_at (shared_terms table.now)) result
        ≡ spec.shared_form (shared_terms table.now) words.now }
    ensures within { IfSome result (λ i. i < length (shared_terms table.now)) }
{
    let rest = after_head(Head::R, words)?;
    let (line, rest) = number(rest)?;
    if line < table.len() as u64 && rest.is_empty() {
        Some(line as usize)
    } else {
        None
    }
}

/// The number of a line of the table at the place.
#[tactic(auto, unfolding(ap_bundle::specs::Readers::read_form))]
fn read_line_number<'a>(
    alloc: Global,
    table: &SharedTerms,
    place: Place<'a>,
) -> Result<(usize, Place<'a>), ReadError>
    ensures value { Gives (λ r. (shared_at (shared_terms table.now) r.0, place_of r.1)) result
        (readers.read_form BundleKind.Term (spec.shared_form (shared_terms table.now))
        (place_of place.entry)) }
    ensures within { IfOk result (λ r. r.0 < length (shared_terms table.now)) }
{
    let (words, rest) = words_at(alloc, BundleKind::Term, place)?;
    let Some(line) = shared_form(table, &words) else {
        return Err(wrong(BundleKind::Term, place));
    };
    Ok((line, rest))
}

/// The term of a line of the table, whose number stands at the place. It is made if there is room for it.
#[tactic(auto, unfolding(ap_bundle::specs::TableForms::read_shared))]
fn read_shared<'a>(
    alloc: Global,
    table: &SharedTerms,
    place: Place<'a>,
) -> Result<(Term, Place<'a>), ReadError>
    ensures { Gives (λ r. (term_of r.0, place_of r.1)) result
        (spec.read_shared (shared_terms table.now) (place_of place.entry)) }
{
    let (line, rest) = read_line_number(alloc, table, place)?;
    let Some(size) = table.size(line) else {
        return Err(wrong(BundleKind::Expanded, place));
    };
    if rest.room < size {
        return Err(wrong(BundleKind::Expanded, place));
    }
    let term = expanded(alloc, table, line)?;
    Ok((
        term,
        Place {
            rest: rest.rest,
            room: rest.room - size,
        },
    ))
}

/// The line of the table whose number stands at the place. Its term is no larger than one may be.
#[tactic(auto, unfolding(ap_bundle::specs::TableForms::read_cited))]
pub(crate) fn read_cited<'a>(
    alloc: Global,
    table: &SharedTerms,
    place: Place<'a>,
) -> Result<(usize, Place<'a>), ReadError>
    ensures { Gives (λ r. (shared_at (shared_terms table.now) r.0, place_of r.1)) result
        (spec.read_cited (shared_terms table.now) (place_of place.entry)) }
{
    let (line, rest) = read_line_number(alloc, table, place)?;
    let Some(size) = table.size(line) else {
        return Err(wrong(BundleKind::Expanded, place));
    };
    if size > ROOM {
        return Err(wrong(BundleKind::Expanded, place));
    }
    Ok((line, rest))
}

/// The term in full at the place.
#[tactic(auto, unfolding(ap_bundle::specs::Readers::read_form))]
fn read_full<'a>(alloc: Global, place: Place<'a>) -> Result<(Term, Place<'a>), ReadError>
    ensures { Gives (λ r. (term_of r.0, place_of r.1)) result
        (reader_of Terms.InFull (place_of place.entry)) }
{
    let (words, rest) = words_at(alloc, BundleKind::Term, place)?;
    let Some(term) = term_form(alloc, &words)? else {
        return Err(wrong(BundleKind::Term, place));
    };
    Ok((term, rest))
}

/// The term at the place.
pub(crate) fn read_term<'a>(
    alloc: Global,
    terms: &Terms,
    place: Place<'a>,
) -> Result<(Term, Place<'a>), ReadError>
    ensures { Gives (λ r. (term_of r.0, place_of r.1)) result
        (reader_of terms.now (place_of place.entry)) }
{
    match terms {
        Terms::InFull => read_full(alloc, place),
        Terms::Shared(table) => read_shared(alloc, table, place),
    }
}
