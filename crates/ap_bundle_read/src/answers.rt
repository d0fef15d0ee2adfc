// Answers with their derivations.
ghost use Rattle.std.specs.Prelude.{◌≡◌, map, IfOk};
ghost use Rattle.ap_defs.specs.Answers.{answer_of, typed_var_of};
ghost use Rattle.ap_defs.specs.Terms.{term_of};
ghost use Rattle.ap_bundle.specs.Bundles.{proved_of};
ghost use Rattle.ap_bundle.specs.LineForms as lines;
ghost use Rattle.ap_bundle.specs.Readers.{read_form, repeated};
ghost use Rattle.ap_bundle.specs.Reading as spec;
ghost use Rattle.ap_bundle_read.specs.Outcomes.{Gives, place_of};
ghost use Rattle.ap_bundle_read.specs.Tables.{reader_of};

use crate::derivations::read_derivation;
use crate::error::ReadError;
use crate::line_forms::{cond_form, count_form, query_form, var_form};
use crate::nodes::read_terms;
use crate::place::{Place, words_at, wrong};
use crate::table::term_lines::Terms;
use ap_bundle::faults::BundleKind;
use ap_bundle::words::Head;
use ap_defs::lists::List;
use ap_defs::outcomes::{Answer, Proved};
use ap_defs::terms::{Cond, Term, Ty, Var};
use std::alloc::Global;

/// The count behind this word at the place.
#[tactic(auto, unfolding(ap_bundle::specs::Readers::read_form))]
pub(crate) fn read_count<'a>(
    alloc: Global,
    head: Head,
    place: Place<'a>,
) -> Result<(u64, Place<'a>), ReadError>
    ensures { Gives (λ r. (r.0, place_of r.1)) result
        (spec.read_count head (place_of place.entry)) }
{
    let (words, rest) = words_at(alloc, BundleKind::Header, place)?;
    let Some(count) = count_form(head, &words) else {
        return Err(wrong(BundleKind::Header, place));
    };
    Ok((count, rest))
}

/// The variable with its type at the place.
#[tactic(auto, unfolding(ap_bundle::specs::Readers::read_form))]
fn read_var<'a>(alloc: Global, place: Place<'a>) -> Result<((Var, Ty), Place<'a>), ReadError>
    ensures { Gives (λ r. (typed_var_of r.0, place_of r.1)) result
        (read_form BundleKind.Term lines.var_form (place_of place.entry)) }
{
    let (words, rest) = words_at(alloc, BundleKind::Term, place)?;
    let Some(var) = var_form(alloc, &words)? else {
        return Err(wrong(BundleKind::Term, place));
    };
    Ok((var, rest))
}

/// So many variables.
fn read_each_var<'a>(
    alloc: Global,
    count: u64,
    place: Place<'a>,
) -> Result<(Vec<(Var, Ty)>, Place<'a>), ReadError>
    ensures { Gives (λ r. (map typed_var_of r.0.items, place_of r.1)) result
        (repeated (read_form BundleKind.Term lines.var_form) count (place_of place.entry)) }
{
    let mut vars = Vec::new(alloc);
    let mut place = place;
    for _ in 0..count {
        let (var, rest) = read_var(alloc, place)?;
        vars.push(var)?;
        place = rest;
    }
    Ok((vars, place))
}

#[tactic(auto, unfolding(ap_bundle::specs::Reading::read_listed))]
pub(crate) fn read_vars<'a>(
    alloc: Global,
    place: Place<'a>,
) -> Result<(Vec<(Var, Ty)>, Place<'a>), ReadError>
    ensures { Gives (λ r. (map typed_var_of r.0.items, place_of r.1)) result
        (spec.read_listed Head.Vars (read_form BundleKind.Term lines.var_form)
        (place_of place.entry)) }
{
    let (count, rest) = read_count(alloc, Head::Vars, place)?;
    read_each_var(alloc, count, rest)
}

/// The condition at the place.
#[tactic(auto, unfolding(ap_bundle::specs::Readers::read_form))]
fn read_cond<'a>(alloc: Global, place: Place<'a>) -> Result<(Cond, Place<'a>), ReadError>
    ensures { Gives (λ r. (r.0, place_of r.1)) result
        (read_form BundleKind.Term lines.cond_form (place_of place.entry)) }
{
    let (words, rest) = words_at(alloc, BundleKind::Term, place)?;
    let Some(cond) = cond_form(&words) else {
        return Err(wrong(BundleKind::Term, place));
    };
    Ok((cond, rest))
}

/// So many conditions.
fn read_each_cond<'a>(
    alloc: Global,
    count: u64,
    place: Place<'a>,
) -> Result<(Vec<Cond>, Place<'a>), ReadError>
    ensures { Gives (λ r. (r.0.items, place_of r.1)) result
        (repeated (read_form BundleKind.Term lines.cond_form) count (place_of place.entry)) }
{
    let mut conds = Vec::new(alloc);
    let mut place = place;
    for _ in 0..count {
        let (cond, rest) = read_cond(alloc, place)?;
        conds.push(cond)?;
        place = rest;
    }
    Ok((conds, place))
}

#[tactic(auto, unfolding(ap_bundle::specs::Reading::read_listed))]
pub(crate) fn read_conds<'a>(
    alloc: Global,
    place: Place<'a>,
) -> Result<(Vec<Cond>, Place<'a>), ReadError>
    ensures { Gives (λ r. (r.0.items, place_of r.1)) result
        (spec.read_listed Head.Conds (read_form BundleKind.Term lines.cond_form)
        (place_of place.entry)) }
{
    let (count, rest) = read_count(alloc, Head::Conds, place)?;
    read_each_cond(alloc, count, rest)
}

#[tactic(auto, unfolding(ap_bundle::specs::Reading::read_listed))]
fn read_binds<'a>(
    alloc: Global,
    terms: &Terms,
    place: Place<'a>,
) -> Result<(Vec<Term>, Place<'a>), ReadError>
    ensures { Gives (λ r. (map term_of r.0.items, place_of r.1)) result
        (spec.read_listed Head.Binds (reader_of terms.now) (place_of place.entry)) }
{
    let (count, rest) = read_count(alloc, Head::Binds, place)?;
    read_terms(alloc, terms, count, rest)
}

/// An answer: its variables, its conditions and its bindings.
#[tactic(auto, unfolding(ap_bundle::specs::Reading::read_answer))]
fn read_answer<'a>(
    alloc: Global,
    terms: &Terms,
    place: Place<'a>,
) -> Result<(Answer, Place<'a>), ReadError>
    ensures { Gives (λ r. (answer_of r.0, place_of r.1)) result
        (spec.read_answer (reader_of terms.now) (place_of place.entry)) }
{
    let (vars, rest) = read_vars(alloc, place)?;
    let (conds, rest) = read_conds(alloc, rest)?;
    let (binds, rest) = read_binds(alloc, terms, rest)?;
    Ok((
        Answer {
            binds: List::of(binds),
            conds: List::of(conds),
            vars: List::of(vars),
        },
        rest,
    ))
}

/// The number of the query at the place.
#[tactic(auto, unfolding(ap_bundle::specs::Readers::read_form))]
pub(crate) fn read_query<'a>(alloc: Global, place: Place<'a>) -> Result<(u32, Place<'a>), ReadError>
    ensures { Gives (λ r. (r.0, place_of r.1)) result
        (read_form BundleKind.Header lines.query_form (place_of place.entry)) }
{
    let (words, rest) = words_at(alloc, BundleKind::Header, place)?;
    let Some(query) = query_form(&words) else {
        return Err(wrong(BundleKind::Header, place));
    };
    Ok((query, rest))
}

/// An answer with its derivation.
#[tactic(auto, unfolding(ap_bundle::specs::Reading::read_proved))]
pub(crate) fn read_proved<'a>(
    alloc: Global,
    terms: &Terms,
    place: Place<'a>,
) -> Result<(Proved, Place<'a>), ReadError>
    ensures { Gives (λ r. (proved_of r.0, place_of r.1)) result
        (spec.read_proved (reader_of terms.now) (place_of place.entry)) }
{
    let (query, rest) = read_query(alloc, place)?;
    let (answer, rest) = read_answer(alloc, terms, rest)?;
    let (derivation, rest) = read_derivation(alloc, terms, rest)?;
    Ok((
        Proved {
            query,
            answer,
            derivation,
        },
        rest,
    ))
}

/// So many answers with their derivations.
fn read_each_proved<'a>(
    alloc: Global,
    terms: &Terms,
    count: u64,
    place: Place<'a>,
) -> Result<(Vec<Proved>, Place<'a>), ReadError>
    ensures { Gives (λ r. (map proved_of r.0.items, place_of r.1)) result
        (repeated (spec.read_proved (reader_of terms.now)) count (place_of place.entry)) }
{
    let mut all = Vec::new(alloc);
    let mut place = place;
    for _ in 0..count {
        let (proved, rest) = read_proved(alloc, terms, place)?;
        all.push(proved)?;
        place = rest;
    }
    Ok((all, place))
}

/// How many answers there are, and then each with its derivation.
#[tactic(auto, unfolding(ap_bundle::specs::Reading::read_listed))]
pub(crate) fn read_all<'a>(
    alloc: Global,
    terms: &Terms,
    place: Place<'a>,
) -> Result<(Vec<Proved>, Place<'a>), ReadError>
    ensures { Gives (λ r. (map proved_of r.0.items, place_of r.1)) result
        (spec.read_listed Head.Derivations (spec.read_proved (reader_of terms.now))
        (place_of place.entry)) }
{
    let (count, rest) = read_count(alloc, Head::Derivations, place)?;
    read_each_proved(alloc, terms, count, rest)
}
