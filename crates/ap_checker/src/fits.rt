//! Whether the names and terms of a node fit the identifiers of a clause or a query.

ghost use Rattle.std.specs.Prelude.{◌≡◌, zero, map, IfOk, MatchOption, None, OnOk, Some};
ghost use Rattle.ap_defs.specs.Answers.{kind_at, typed_var_of};
ghost use Rattle.ap_defs.specs.Renaming.{local_names, local_vars};
ghost use Rattle.ap_defs.specs.Resolution.{kinds_of};
ghost use Rattle.ap_defs.specs.Types.{constructor_of, local_of, locals_of, type_of};
ghost use Rattle.ap_checks.specs.Checks.{have_counts};
ghost use Rattle.ap_checks.specs.TypeTests.{has_kind, have_kinds, have_sorts, type_beside};
ghost use Rattle.ap_judge.specs.FreeLocals.{free_type};
ghost use Rattle.ap_judge.specs.Typings.{AreTypesKnown};
ghost use Rattle.ap_shared.specs.SharedPlaces.{given_terms, shared_term};

use ap_defs::goals::{Constructor, Kind, Local};
use ap_defs::memory::Memory;
use ap_defs::terms::{Name, Ty, Var};
use ap_judge::index::IndexedAnswer;
use ap_judge::lookups::{count_names, count_vars, sort_of};
use ap_judge::typing::{Typed, has_type};
use ap_shared::places::{Given, Shared};
use std::alloc::Global;

/// The type of an identifier that is a free variable.
fn type_of_free(local: &Local) -> Option<&Ty>
    ensures { MatchOption result (free_type (local_of local.now) ≡ None) (λ t. free_type
        (local_of local.now) ≡ Some (type_of t.now)) }
{
    match &local.kind {
        Kind::Var(ty) if !local.bound => Some(ty),
        _ => None,
    }
}

/// Whether the names and terms are as many as the free names and free variables.
pub(crate) fn counts_fit(locals: &[Local], names: &[Name], given: Given<'_>) -> bool
    ensures { result ≡ have_counts (locals_of locals.now) names.now (given_terms given.entry) }
{
    names.len() == count_names(locals) && given.lines.len() == count_vars(locals)
}

/// Whether each name has the sort of the free name at its place.
pub(crate) fn names_fit(locals: &[Local], names: &[Name]) -> bool
    ensures { result ≡ have_sorts (local_names zero (locals_of locals.now)) names.now }
{
    let mut place = 0;
    for (i, local) in locals.iter().enumerate() {
        let Some(sort) = sort_of(local) else {
            continue;
        };
        if place >= names.len() || names[place].sort != sort {
            return false;
        }
        place += 1;
    }
    place == names.len()
}

/// Whether each term has the type of the free variable at its place.
pub(crate) fn terms_fit<'a>(
    alloc: Global,
    constructors: &'a [Constructor],
    answer: &IndexedAnswer<'_>,
    typed: &mut Typed<'a>,
    locals: &'a [Local],
    given: Given<'_>,
) -> Result<bool, Memory>
    requires { AreTypesKnown given.terms.now constructors.now answer.now.vars typed.old }
    ensures typed { OnOk result
        (AreTypesKnown given.entry.terms.now constructors.now answer.now.vars typed.new) }
    ensures fit { IfOk result (λ yes. yes
        ≡ have_kinds (map constructor_of constructors.now) (type_beside
        (map typed_var_of answer.now.vars)) (kinds_of (locals_of locals.now))
        (local_vars zero (locals_of locals.now)) (given_terms given.entry)) }
{
    let Given { terms, lines } = given;
    let mut place = 0;
    for (i, local) in locals.iter().enumerate() {
        let Some(ty) = type_of_free(local) else {
            continue;
        };
        if place >= lines.len() {
            return Ok(false);
        }
        if !has_type(alloc, constructors, answer, terms, typed, lines[place], ty)? {
            return Ok(false);
        }
        place += 1;
    }
    Ok(place == lines.len())
}

/// Whether the term has the type of the variable with this number.
#[tactic(auto, using(ap_judge::proofs::LocalLemmas::kind_past))]
pub(crate) fn term_fits<'a>(
    alloc: Global,
    constructors: &'a [Constructor],
    answer: &IndexedAnswer<'_>,
    typed: &mut Typed<'a>,
    locals: &'a [Local],
    x: Var,
    term: Shared<'_>,
) -> Result<bool, Memory>
    requires { AreTypesKnown term.terms.now constructors.now answer.now.vars typed.old }
    ensures typed { OnOk result
        (AreTypesKnown term.entry.terms.now constructors.now answer.now.vars typed.new) }
    ensures fits { IfOk result (λ yes. yes
        ≡ has_kind (map constructor_of constructors.now) (type_beside
        (map typed_var_of answer.now.vars)) (kind_at (kinds_of (locals_of locals.now)) x.num)
        (shared_term term.entry)) }
{
    let place = x.num as usize;
    if place >= locals.len() {
        return Ok(false);
    }
    match &locals[place].kind {
        Kind::Name(_) => Ok(false),
        Kind::Var(ty) => {
            has_type(
                alloc,
                constructors,
                answer,
                term.terms,
                typed,
                term.line,
                ty,
            )
        }
    }
}
