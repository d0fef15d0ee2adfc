//! The identifiers of an item, with their places.

ghost use Rattle.std.specs.Prelude.{◌≡◌, ◌≤◌, ◌<◌, ◌==◌, ℕ, true, false, None, Some, zero, get_or, length, map, IfOk, IfSome, MatchOption};
ghost use Rattle.ap_program.specs.FreeLocals.{free_sort};
ghost use Rattle.ap_defs.specs.GroundProofs.{name_for as name_beside};
ghost use Rattle.ap_defs.specs.Renaming.{local_names, local_vars};
ghost use Rattle.ap_defs.specs.Terms.{unit};
ghost use Rattle.ap_defs.specs.Types.{local_of, locals_of};
ghost use Rattle.ap_checks.specs.OpenEnvironments.{open_term_for};
ghost use Rattle.ap_judge.specs.Cited.{cited_term, cited_terms};
ghost use Rattle.ap_judge.specs.Places.{places_from};
ghost use Rattle.ap_judge.specs.Tables.{AreCitedIn, IsCitedIn};
ghost use Rattle.ap_shared.specs.declared.arena.SharedTerms.{SharedTerms as table};

use crate::cited::{Cited, CitedTerms};
use crate::lookups::{is_variable, sort_of};
use ap_defs::goals::Local;
use ap_defs::memory::Memory;
use ap_defs::terms::{Name, Var};
use std::alloc::Global;
use std::marker::Model;

/// The identifiers of an item. What stands for a free one is found without going through those before it.
/// Contracts see the identifiers.
#[derive(Drop)]
pub struct Identifiers<'a> {
    locals: &'a [Local],
    // How many free variables come before each free variable, and how many free names before each other one.
    places: Vec<usize>,
}

impl<'a> Model for Identifiers<'a> {
    ghost use Rattle.std.specs.Prelude.{List as list};
    ghost use Rattle.ap_defs.specs.declared.goals.Local.{Local};

    ghost Value = { list Local };

    ghost use Rattle.ap_defs.specs.contracts.goals.Local as l;
    ghost use Rattle.std.specs.Coded.{coded_list};

    ghost coded = { coded_list l.the_row.coded };

    ghost use Rattle.std.specs.Prelude.{◌≡◌};
    ghost use Rattle.ap_defs.specs.Types.{locals_of};
    ghost use Rattle.ap_judge.specs.Places.{places_from};

    ghost view = { λ i. i.locals.now };

    ghost invariant = { λ i. i.places.items ≡ places_from 0 0 (locals_of i.locals.now) };
}

/// The places of identifiers.
#[tactic(auto, using(crate::proofs::PlaceLemmas::place_of_var, crate::proofs::PlaceLemmas::place_of_other))]
fn places_of(alloc: Global, locals: &[Local]) -> Result<Vec<usize>, Memory>
    ensures { IfOk result (λ v. v.items ≡ places_from 0 0 (locals_of locals.now)) }
{
    let mut places = Vec::new(alloc);
    let mut names = 0;
    let mut vars = 0;
    for (i, local) in locals.iter().enumerate() {
        if is_variable(local) {
            places.push(vars)?;
            vars += 1;
            continue;
        }
        places.push(names)?;
        if sort_of(local).is_some() {
            names += 1;
        }
    }
    Ok(places)
}

/// Whether an identifier is a free name of the sort.
fn has_sort(local: &Local, sort: u32) -> bool
    ensures yes { result ≡ true → free_sort (local_of local.now) ≡ Some sort }
    ensures no { result ≡ false → (s : ℕ) → free_sort (local_of local.now) ≡ Some s →
        (s == sort) ≡ false }
{
    match sort_of(local) {
        Some(own) => own == sort,
        None => false,
    }
}

impl<'a> Identifiers<'a> {
    /// The identifiers, with their places. `Err` is want of memory.
    pub fn of(alloc: Global, locals: &'a [Local]) -> Result<Identifiers<'a>, Memory>
        ensures { IfOk result (λ i. i ≡ locals.now) }
    {
        let places = places_of(alloc, locals)?;
        Ok(Identifiers { locals, places })
    }

    /// The identifier with this number, and its place.
    fn at(&self, num: u64) -> Option<(&'a Local, usize)>
        ensures { MatchOption result (length self.now ≤ num) (λ p. (num < length self.now)
            × (p.0.now ≡ get_or self.now num p.0.now)
            × (p.1 ≡ get_or (places_from 0 0 (locals_of self.now)) num 0)) }
    {
        let locals = self.locals;
        let place = num as usize;
        if place >= locals.len() {
            return None;
        }
        Some((&locals[place], self.places[place]))
    }

    /// The name for a free name, and any other name itself.
    pub fn name_for(&self, names: &[Name], b: Name) -> Name
        ensures { result ≡ name_beside (local_names zero (locals_of self.now)) names.now b }
    {
        let Some((local, place)) = self.at(b.num) else {
            return b;
        };
        if has_sort(local, b.sort) && place < names.len() {
            names[place]
        } else {
            b
        }
    }

    /// The term for a free variable.
    pub fn term_for<'t>(&self, given: CitedTerms<'t>, x: Var) -> Option<Cited<'t>>
        ensures term { MatchOption result
            (open_term_for (local_vars zero (locals_of self.now)) (cited_terms given.entry) x ≡ unit)
            (λ t. open_term_for (local_vars zero (locals_of self.now)) (cited_terms given.entry) x
            ≡ cited_term t) }
        ensures of { IfSome result (λ t. (ts : table) →
            AreCitedIn ts given.entry → IsCitedIn ts t) }
    {
        let (local, place) = self.at(x.num)?;
        if !is_variable(local) {
            return None;
        }
        given.get(place)
    }
}
