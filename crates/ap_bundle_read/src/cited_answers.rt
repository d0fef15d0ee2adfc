// Answers with their derivations, by the lines of their terms.
ghost use Rattle.std.specs.Prelude.{◌≡◌, map};
ghost use Rattle.ap_bundle.specs.Readers.{repeated};
ghost use Rattle.ap_bundle.specs.Reading as spec;
ghost use Rattle.ap_bundle.specs.TableForms.{read_cited as cited};
ghost use Rattle.ap_bundle_read.specs.Outcomes.{Gives, place_of};
ghost use Rattle.ap_bundle_read.specs.Tables.{reader_of};
ghost use Rattle.ap_shared.specs.Shared.{shared_at};
ghost use Rattle.ap_shared.specs.SharedViews.{shared_answer, shared_proved, shared_terms};

use crate::answers::{read_conds, read_count, read_proved as read_full, read_query, read_vars};
use crate::cited_nodes::{read_derivation, read_lines};
use crate::error::ReadError;
use crate::place::Place;
use crate::table::term_lines::Terms;
use ap_bundle::words::Head;
use ap_defs::lists::List;
use ap_shared::arena::SharedTerms;
use ap_shared::derivations::{SharedAnswer, SharedProved};
use ap_shared::sharing::shared;
use std::alloc::Global;
use std::rc::Rc;

/// The lines of the bindings.
#[tactic(auto, unfolding(ap_bundle::specs::Reading::read_listed))]
fn read_binds<'a>(
    alloc: Global,
    table: &SharedTerms,
    place: Place<'a>,
) -> Result<(Vec<usize>, Place<'a>), ReadError>
    ensures { Gives (λ r. (map (shared_at (shared_terms table.now)) r.0.items, place_of r.1)) result
        (spec.read_listed Head.Binds (cited (shared_terms table.now)) (place_of place.entry)) }
{
    let (count, rest) = read_count(alloc, Head::Binds, place)?;
    read_lines(alloc, table, count, rest)
}

/// An answer: its variables, its conditions and its bindings.
#[tactic(auto, unfolding(ap_bundle::specs::Reading::read_answer))]
fn read_answer<'a>(
    alloc: Global,
    table: &SharedTerms,
    place: Place<'a>,
) -> Result<(SharedAnswer, Place<'a>), ReadError>
    ensures { Gives (λ r. (shared_answer (shared_terms table.now) r.0, place_of r.1)) result
        (spec.read_answer (cited (shared_terms table.now)) (place_of place.entry)) }
{
    let (vars, rest) = read_vars(alloc, place)?;
    let (conds, rest) = read_conds(alloc, rest)?;
    let (binds, rest) = read_binds(alloc, table, rest)?;
    Ok((
        SharedAnswer {
            binds: List::of(binds),
            conds: List::of(conds),
            vars: List::of(vars),
        },
        rest,
    ))
}

/// An answer with its derivation.
#[tactic(auto, unfolding(ap_bundle::specs::Reading::read_proved))]
fn read_proved<'a>(
    alloc: Global,
    table: &Rc<SharedTerms>,
    place: Place<'a>,
) -> Result<(SharedProved, Place<'a>), ReadError>
    ensures { Gives (λ r. (shared_proved r.0, place_of r.1)) result
        (spec.read_proved (cited (shared_terms table.now.value)) (place_of place.entry)) }
{
    let (query, rest) = read_query(alloc, place)?;
    let (answer, rest) = read_answer(alloc, table, rest)?;
    let (derivation, rest) = read_derivation(alloc, table, rest)?;
    Ok((
        SharedProved {
            query,
            terms: table.clone()?,
            answer,
            derivation,
        },
        rest,
    ))
}

/// So many answers with their derivations.
fn read_each_proved<'a>(
    alloc: Global,
    table: &Rc<SharedTerms>,
    count: u64,
    place: Place<'a>,
) -> Result<(Vec<SharedProved>, Place<'a>), ReadError>
    ensures { Gives (λ r. (map shared_proved r.0.items, place_of r.1)) result
        (repeated (spec.read_proved (cited (shared_terms table.now.value))) count (place_of place.entry)) }
{
    let mut all = Vec::new(alloc);
    let mut place = place;
    for _ in 0..count {
        let (proved, rest) = read_proved(alloc, table, place)?;
        all.push(proved)?;
        place = rest;
    }
    Ok((all, place))
}

/// How many answers there are, and then each with its derivation.
#[tactic(auto, unfolding(ap_bundle::specs::Reading::read_listed))]
pub(crate) fn read_all<'a>(
    alloc: Global,
    table: &Rc<SharedTerms>,
    place: Place<'a>,
) -> Result<(Vec<SharedProved>, Place<'a>), ReadError>
    ensures { Gives (λ r. (map shared_proved r.0.items, place_of r.1)) result
        (spec.read_listed Head.Derivations (spec.read_proved (cited (shared_terms table.now.value)))
        (place_of place.entry)) }
{
    let (count, rest) = read_count(alloc, Head::Derivations, place)?;
    read_each_proved(alloc, table, count, rest)
}

/// An answer with its derivation, whose terms stand there in full: they are entered in a table of their own.
fn read_entered<'a>(alloc: Global, place: Place<'a>) -> Result<(SharedProved, Place<'a>), ReadError>
    ensures { Gives (λ r. (shared_proved r.0, place_of r.1)) result
        (spec.read_proved (reader_of Terms.InFull) (place_of place.entry)) }
{
    let (proved, rest) = read_full(alloc, &Terms::InFull, place)?;
    Ok((shared(alloc, &proved)?, rest))
}

/// So many answers with their derivations.
fn read_each_entered<'a>(
    alloc: Global,
    count: u64,
    place: Place<'a>,
) -> Result<(Vec<SharedProved>, Place<'a>), ReadError>
    ensures { Gives (λ r. (map shared_proved r.0.items, place_of r.1)) result
        (repeated (spec.read_proved (reader_of Terms.InFull)) count (place_of place.entry)) }
{
    let mut all = Vec::new(alloc);
    let mut place = place;
    for _ in 0..count {
        let (proved, rest) = read_entered(alloc, place)?;
        all.push(proved)?;
        place = rest;
    }
    Ok((all, place))
}

/// How many answers there are, and then each with its derivation.
#[tactic(auto, unfolding(ap_bundle::specs::Reading::read_listed))]
pub(crate) fn read_all_entered<'a>(
    alloc: Global,
    place: Place<'a>,
) -> Result<(Vec<SharedProved>, Place<'a>), ReadError>
    ensures { Gives (λ r. (map shared_proved r.0.items, place_of r.1)) result
        (spec.read_listed Head.Derivations (spec.read_proved (reader_of Terms.InFull))
        (place_of place.entry)) }
{
    let (count, rest) = read_count(alloc, Head::Derivations, place)?;
    read_each_entered(alloc, count, rest)
}
