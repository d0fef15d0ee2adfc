//! The names and variables of terms, each once, by its first occurrence.

ghost use Rattle.std.specs.Prelude.{◌≡◌, [], ◌∷◌, OnOk};
ghost use Rattle.ap_defs.specs.Terms.{term_of};
ghost use Rattle.ap_defs.specs.Unification.{vars_then};
ghost use Rattle.ap_defs.specs.Permutations.{names_of};
ghost use Rattle.ap_defs.specs.Occurrences.{names_then, names_at, vars_at};
ghost use Rattle.ap_answers.specs.Occurring.{more_names, more_vars};

use ap_defs::memory::Memory;
use ap_defs::terms::{Name, Swap, Term, Var};
use ap_defs::walks::Parts;
use indexmap::IndexSet;
use std::alloc::Global;

/// Adds a name, unless it is there.
#[tactic(auto, using(crate::proofs::OccurrenceLemmas::inserted), unfolding(ap_defs::specs::Permutations::name_eq))]
pub fn add_name(names: &mut IndexSet<Name>, name: Name) -> Result<(), Memory>
    ensures { OnOk result (names.new.keys ≡ more_names names.old.keys (name ∷ [])) }
{
    names.insert(name)?;
    Ok(())
}

/// Adds a variable, unless it is there.
#[tactic(auto, using(crate::proofs::OccurrenceLemmas::inserted_var))]
pub fn add_var(vars: &mut IndexSet<Var>, var: Var) -> Result<(), Memory>
    ensures { OnOk result (vars.new.keys ≡ more_vars vars.old.keys (var ∷ [])) }
{
    vars.insert(var)?;
    Ok(())
}

/// Adds the two names of a swapping.
#[tactic(auto, using(crate::proofs::OccurrenceLemmas::names_of_swapping))]
fn add_swap(names: &mut IndexSet<Name>, swap: &Swap) -> Result<(), Memory>
    ensures { OnOk result (names.new.keys ≡ more_names names.old.keys (names_of (swap.now ∷ []))) }
{
    let sort = swap.sort;
    add_name(
        names,
        Name {
            sort,
            num: swap.left,
        },
    )?;
    add_name(
        names,
        Name {
            sort,
            num: swap.right,
        },
    )
}

/// Adds the names of swappings.
fn add_swapped(names: &mut IndexSet<Name>, swaps: &[Swap]) -> Result<(), Memory>
    ensures { OnOk result (names.new.keys ≡ more_names names.old.keys (names_of swaps.now)) }
{
    for swap in swaps {
        add_swap(names, swap)?;
    }
    Ok(())
}

/// Adds the names that stand at a part of a term itself.
pub(crate) fn add_names_at(names: &mut IndexSet<Name>, part: &Term) -> Result<(), Memory>
    ensures { OnOk result (names.new.keys
        ≡ more_names names.old.keys (names_at (term_of part.now))) }
{
    match part {
        Term::Unit | Term::Pair(_, _) | Term::App(_, _) => Ok(()),
        Term::Name(name) => add_name(names, *name),
        Term::Abs(sort, num, _) => {
            let name = Name {
                sort: *sort,
                num: *num,
            };
            add_name(names, name)
        }
        Term::Susp(swaps, _) => add_swapped(names, swaps.items()),
    }
}

/// Adds the variable that stands at a part of a term itself.
fn add_vars_at(vars: &mut IndexSet<Var>, part: &Term) -> Result<(), Memory>
    ensures { OnOk result (vars.new.keys ≡ more_vars vars.old.keys (vars_at (term_of part.now))) }
{
    match part {
        Term::Susp(_, var) => add_var(vars, *var),
        _ => Ok(()),
    }
}

/// Adds the names of a term, as they are read.
pub fn add_names(alloc: Global, names: &mut IndexSet<Name>, term: &Term) -> Result<(), Memory>
    ensures { OnOk result (names.new.keys
        ≡ more_names names.old.keys (names_then (term_of term.now) [])) }
{
    let mut parts = Parts::of(alloc, term)?;
    while let Some(part) = parts.next()? {
        add_names_at(names, part)?;
    }
    Ok(())
}

/// Adds the variables of a term, as they are read.
pub fn add_vars(alloc: Global, vars: &mut IndexSet<Var>, term: &Term) -> Result<(), Memory>
    ensures { OnOk result (vars.new.keys
        ≡ more_vars vars.old.keys (vars_then (term_of term.now) [])) }
{
    let mut parts = Parts::of(alloc, term)?;
    while let Some(part) = parts.next()? {
        add_vars_at(vars, part)?;
    }
    Ok(())
}
