//! The names and variables that stand in terms.

ghost use Rattle.std.specs.Prelude.{◌≡◌, ◌++◌, [], ◌∷◌, map, IfOk, OnOk};
ghost use Rattle.ap_defs.specs.Occurrences.{names_at, names_of_terms, names_then, vars_at, vars_of_terms};
ghost use Rattle.ap_defs.specs.Permutations.{names_of};
ghost use Rattle.ap_defs.specs.Terms.{term_of};
ghost use Rattle.ap_defs.specs.Unification.{vars_then};

use ap_defs::memory::Memory;
use ap_defs::terms::{Name, Swap, Term, Var};
use ap_defs::walks::Parts;
use std::alloc::Global;

/// Adds the names of a swapping.
fn add_swap(names: &mut Vec<Name>, s: &Swap) -> Result<(), Memory>
    ensures { OnOk result (names.new.items ≡ names.old.items ++ names_of (s.now ∷ [])) }
{
    let sort = s.sort;
    names.push(Name { sort, num: s.left })?;
    names.push(Name { sort, num: s.right })?;
    Ok(())
}

/// Adds the names of swappings.
#[tactic(auto, using(crate::proofs::FreeLemmas::swaps_next))]
fn add_swaps(names: &mut Vec<Name>, swaps: &[Swap]) -> Result<(), Memory>
    ensures { OnOk result (names.new.items ≡ names.old.items ++ names_of swaps.now) }
{
    for s in swaps {
        add_swap(names, s)?;
    }
    Ok(())
}

/// Adds the names that stand at a part of a term itself.
fn add_names_at(names: &mut Vec<Name>, part: &Term) -> Result<(), Memory>
    ensures { OnOk result (names.new.items ≡ names.old.items ++ names_at (term_of part.now)) }
{
    match part {
        Term::Unit | Term::Pair(_, _) | Term::App(_, _) => {}
        Term::Name(a) => names.push(*a)?,
        Term::Abs(sort, num, _) => names.push(Name {
            sort: *sort,
            num: *num,
        })?,
        Term::Susp(swaps, _) => add_swaps(names, swaps.items())?,
    }
    Ok(())
}

/// Adds the variable that stands at a part of a term itself.
fn add_vars_at(vars: &mut Vec<Var>, part: &Term) -> Result<(), Memory>
    ensures { OnOk result (vars.new.items ≡ vars.old.items ++ vars_at (term_of part.now)) }
{
    if let Term::Susp(_, x) = part {
        vars.push(*x)?;
    }
    Ok(())
}

/// Adds the names of a term, as they are read.
fn add_names(alloc: Global, names: &mut Vec<Name>, t: &Term) -> Result<(), Memory>
    ensures { OnOk result (names.new.items ≡ names.old.items ++ names_then (term_of t.now) []) }
{
    let mut parts = Parts::of(alloc, t)?;
    while let Some(part) = parts.next()? {
        add_names_at(names, part)?;
    }
    Ok(())
}

/// Adds the variables of a term, as they are read.
fn add_vars(alloc: Global, vars: &mut Vec<Var>, t: &Term) -> Result<(), Memory>
    ensures { OnOk result (vars.new.items ≡ vars.old.items ++ vars_then (term_of t.now) []) }
{
    let mut parts = Parts::of(alloc, t)?;
    while let Some(part) = parts.next()? {
        add_vars_at(vars, part)?;
    }
    Ok(())
}

/// The names of terms, as they are read.
pub(crate) fn names_of_each(alloc: Global, terms: &[Term]) -> Result<Vec<Name>, Memory>
    ensures { IfOk result (λ v. v.items ≡ names_of_terms (map term_of terms.now)) }
{
    let mut names = Vec::new(alloc);
    for t in terms {
        add_names(alloc, &mut names, t)?;
    }
    Ok(names)
}

/// The variables of terms, as they are read.
pub(crate) fn vars_of_each(alloc: Global, terms: &[Term]) -> Result<Vec<Var>, Memory>
    ensures { IfOk result (λ v. v.items ≡ vars_of_terms (map term_of terms.now)) }
{
    let mut vars = Vec::new(alloc);
    for t in terms {
        add_vars(alloc, &mut vars, t)?;
    }
    Ok(vars)
}

/// The names of two terms, as they are read.
#[tactic(auto, using(crate::proofs::FreeLemmas::two_names))]
pub(crate) fn names_of_two(alloc: Global, t: &Term, u: &Term) -> Result<Vec<Name>, Memory>
    ensures { IfOk result (λ v. v.items
        ≡ names_then (term_of t.now) (names_then (term_of u.now) [])) }
{
    let mut names = Vec::new(alloc);
    add_names(alloc, &mut names, t)?;
    add_names(alloc, &mut names, u)?;
    Ok(names)
}

/// The variables of two terms, as they are read.
#[tactic(auto, using(crate::proofs::FreeLemmas::two_vars))]
pub(crate) fn vars_of_two(alloc: Global, t: &Term, u: &Term) -> Result<Vec<Var>, Memory>
    ensures { IfOk result (λ v. v.items
        ≡ vars_then (term_of t.now) (vars_then (term_of u.now) [])) }
{
    let mut vars = Vec::new(alloc);
    add_vars(alloc, &mut vars, t)?;
    add_vars(alloc, &mut vars, u)?;
    Ok(vars)
}
