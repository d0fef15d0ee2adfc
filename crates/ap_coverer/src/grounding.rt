//! The swappings and the ground terms.

ghost use Rattle.std.specs.Prelude.{◌≡◌, IfOk, map, true};
ghost use Rattle.std.specs.List.{list_all};
ghost use Rattle.ap_cover.specs.Ground.{ground_terms, is_ground_term};
ghost use Rattle.ap_defs.specs.Answers.{answer_of, typed_var_of};
ghost use Rattle.ap_defs.specs.Terms.{term_of, unit};
ghost use Rattle.ap_defs.specs.Types.{constructor_of, locals_of};
ghost use Rattle.ap_instance.specs.Tables.{term_beside};
ghost use Rattle.ap_clearing.specs.Clearing.{Clears, in_the_way, used_names};
ghost use Rattle.ap_coverer.specs.Covering.{AreMatched, pairs_by, term_pair};
ghost use Rattle.ap_picks.specs.Pickers.{IsPicker};
ghost use Rattle.ap_property.specs.StatementsOnProperties.{HasTypedVars};

use crate::filling::filling;
use crate::matching::match_terms;
use ap_clearing::clearing::clearing_swaps;
use ap_defs::copies::copy_term;
use ap_defs::goals::Local;
use ap_defs::memory::Memory;
use ap_defs::outcomes::Answer;
use ap_defs::terms::{Swap, Term, Ty, Var};
use ap_instance::picks::Picks;
use ap_picks::Picker;
use std::alloc::Global;

/// A copy of the variable's term in a table, or of that in another one where it has none there.
fn term_in(alloc: Global, picks: &Picks, others: &Picks, x: Var) -> Result<Term, Memory>
    ensures { IfOk result (λ t. term_of t
        ≡ term_beside picks.now.vars.keys picks.now.terms.items
        (λ y. term_beside others.now.vars.keys others.now.terms.items (λ z. unit) y) x) }
{
    let Some(place) = picks.vars.get_index_of(&x) else {
        return others.of(alloc, x);
    };
    let Some(term) = picks.terms.get(place) else {
        return others.of(alloc, x);
    };
    copy_term(alloc, term)
}

/// The variables, in order, each with a copy of its term.
fn pairs_of(
    alloc: Global,
    picks: &Picks,
    others: &Picks,
    vars: &[(Var, Ty)],
) -> Result<Vec<(Var, Term)>, Memory>
    ensures { IfOk result (λ v. map term_pair v.items
        ≡ pairs_by (term_beside picks.now.vars.keys picks.now.terms.items
        (λ y. term_beside others.now.vars.keys others.now.terms.items (λ z. unit) y))
        (map typed_var_of vars.now)) }
{
    let mut pairs = Vec::new(alloc);
    let mut rest = vars;
    'pairing: while let Some(((x, _), more)) = rest.split_first() {
        let term = term_in(alloc, picks, others, *x)?;
        pairs.push((*x, term))?;
        rest = more;
    }
    Ok(pairs)
}

/// The swappings that take the names of an answer out of the way of terms, and the variables of the answer, in
/// order, each with a ground term.
#[derive(Drop)]
pub struct Covering {
    pub swaps: Vec<Swap>,
    pub grounding: Vec<(Var, Term)>,
}

/// By which swappings and ground terms an answer to a query with these identifiers comes to ground terms, if they are
/// an instance of it. `Err` is want of memory, or of numbers.
pub fn covering_of(
    alloc: Global,
    picker: &Picker<'_>,
    locals: &[Local],
    answer: &Answer,
    terms: &[Term],
) -> Result<Covering, Memory>
    requires picker { IsPicker picker.now }
    requires typed { HasTypedVars (map constructor_of picker.now.constructors.now)
        (answer_of answer.now) }
    requires closed { list_all is_ground_term (map term_of terms.now) ≡ true }
    ensures swaps { IfOk result (λ c. Clears
        (used_names (locals_of locals.now) (answer_of answer.now) (map term_of terms.now))
        (in_the_way (locals_of locals.now) (answer_of answer.now) (map term_of terms.now))
        c.swaps.items) }
    ensures grounding { IfOk result (λ c. AreMatched
        (map constructor_of picker.now.constructors.now) (answer_of answer.now)
        (ground_terms (map term_of terms.now)) c.swaps.items c.grounding.items) }
{
    let swaps = clearing_swaps(alloc, locals, answer, terms)?;
    let picks = match_terms(alloc, &swaps, answer.binds.items(), terms)?;
    let others = filling(alloc, picker, &swaps, answer)?;
    let grounding = pairs_of(alloc, &picks, &others, answer.vars.items())?;
    Ok(Covering { swaps, grounding })
}
