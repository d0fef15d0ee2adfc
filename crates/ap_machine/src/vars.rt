//! Variables of terms, and ascending sets of variables.
//!
//! What goes through a term of a text goes on along what is last in it, and calls itself on left parts of pairs alone.

ghost use Rattle.std.specs.Prelude.{◌≡◌, ◌++◌, ◌∷◌, ◌^◌, [], Some, IfOk, IfSome, OnOk, map, slice_get};
ghost use Rattle.ap_defs.specs.Answers.{ascending_vars};
ghost use Rattle.ap_defs.specs.Occurrences.{vars_at, vars_of_terms, without_var};
ghost use Rattle.ap_defs.specs.Renaming.{AreBelow, IsBelow, rename_term as renamed};
ghost use Rattle.ap_defs.specs.Terms.{term_of};
ghost use Rattle.ap_defs.specs.Unification.{vars_then};
ghost use Rattle.ap_search.specs.Records.{SameVars};

use ap_defs::memory::Memory;
use ap_defs::terms::{Cond, Term, Var};
use ap_defs::walks::Parts;
use std::alloc::Global;

/// The place that a variable has where those before it, down to the first one, have all numbers between.
fn near_place(vars: &[Var], x: Var) -> Option<usize>
    ensures { IfSome result (λ i. slice_get vars.now i ≡ Some x) }
{
    let first = vars.first()?;
    let near = x.num.saturating_sub(first.num) as usize;
    let there = vars.get(near)?;
    if there.num == x.num { Some(near) } else { None }
}

/// Adds a variable after others, unless it is seen at once that it is there.
#[tactic(auto, using(crate::proofs::SetLemmas::same_with, crate::proofs::SetLemmas::same_without))]
fn add_unless_near(vars: &mut Vec<Var>, x: Var) -> Result<(), Memory>
    ensures { OnOk result (SameVars vars.new.items (vars.old.items ++ x ∷ [])) }
{
    match near_place(vars, x) {
        Some(_) => {}
        None => vars.push(x)?,
    }
    Ok(())
}

/// Adds the variable that stands at a part of a term itself after others, unless it is seen at once that it is there.
#[tactic(auto, using(crate::proofs::SetLemmas::same_none))]
fn add_vars_at(vars: &mut Vec<Var>, part: &Term) -> Result<(), Memory>
    ensures { OnOk result (SameVars vars.new.items
        (vars.old.items ++ vars_at (term_of part.now))) }
{
    match part {
        Term::Susp(_, x) => add_unless_near(vars, *x),
        _ => Ok(()),
    }
}

/// Adds the variables of the parts of a term after others, but those that are seen at once to be there.
fn add_vars_of_parts(alloc: Global, vars: &mut Vec<Var>, t: &Term) -> Result<(), Memory>
    ensures { OnOk result (SameVars vars.new.items
        (vars.old.items ++ vars_then (term_of t.now) [])) }
{
    let mut parts = Parts::of(alloc, t)?;
    while let Some(part) = parts.next()? {
        add_vars_at(vars, part)?;
    }
    Ok(())
}

/// Adds the variables of a term after others, but those that are seen at once to be there. For one that is a variable,
/// as many are, it takes no memory of its own.
fn add_vars_of(alloc: Global, vars: &mut Vec<Var>, t: &Term) -> Result<(), Memory>
    ensures { OnOk result (SameVars vars.new.items
        (vars.old.items ++ vars_then (term_of t.now) [])) }
{
    match t {
        Term::Susp(_, x) => add_unless_near(vars, *x),
        _ => add_vars_of_parts(alloc, vars, t),
    }
}

/// Adds the variables of terms after others, but those that are seen at once to be there.
pub(crate) fn add_vars_of_terms(
    alloc: Global,
    vars: &mut Vec<Var>,
    terms: &[Term],
) -> Result<(), Memory>
    ensures { OnOk result (SameVars vars.new.items
        (vars.old.items ++ vars_of_terms (map term_of terms.now))) }
{
    'adding: for t in terms {
        add_vars_of(alloc, vars, t)?;
    }
    Ok(())
}

/// Adds variables after others, but those that are seen at once to be there: so an answer's variables, where all that
/// were brought stand in its terms, are not there twice when they are sorted.
pub(crate) fn add_vars(vars: &mut Vec<Var>, more: &[Var]) -> Result<(), Memory>
    ensures { OnOk result (SameVars vars.new.items (vars.old.items ++ more.now)) }
{
    'adding: for x in more {
        add_unless_near(vars, *x)?;
    }
    Ok(())
}

/// Adds the variables of conditions after others.
pub fn add_vars_of_conds(vars: &mut Vec<Var>, conds: &[Cond]) -> Result<(), Memory>
    ensures { OnOk result (vars.new.items ≡ vars.old.items ++ map (λ c. c.var) conds.now) }
{
    'adding: for c in conds {
        vars.push(c.var)?;
    }
    Ok(())
}

/// Makes a set of variables, which ascends. It takes no memory.
pub fn make_ascending(vars: &mut Vec<Var>)
    ensures { vars.new.items ≡ ascending_vars vars.old.items }
{
    vars.sort_unstable();
    vars.dedup();
}

/// The variables but one.
pub fn without(alloc: Global, x: Var, vars: &[Var]) -> Result<Vec<Var>, Memory>
    ensures { IfOk result (λ v. v.items ≡ without_var x vars.now) }
{
    let mut others = Vec::new(alloc);
    'choosing: for y in vars {
        if x.num != y.num {
            others.push(*y)?;
        }
    }
    Ok(others)
}

/// The variables of a term whose numbers are raised, as they are read, after others.
pub fn push_vars_of(vars: &mut Vec<Var>, base: u64, t: &Term) -> Result<(), Memory>
    requires { IsBelow (2 ^ 64) (renamed base (term_of t.now)) }
    ensures { OnOk result (vars.new.items
        ≡ vars.old.items ++ vars_then (renamed base (term_of t.now)) []) }
{
    let mut rest = t;
    loop {
        match rest {
            Term::Unit | Term::Name(_) => return Ok(()),
            Term::Pair(left, right) => {
                push_vars_of(vars, base, left)?;
                rest = right;
            }
            Term::App(_, argument) => rest = argument,
            Term::Abs(_, _, body) => rest = body,
            Term::Susp(_, x) => {
                vars.push(Var { num: base + x.num })?;
                return Ok(());
            }
        }
    }
}

/// The variables of terms whose numbers are raised, as they are read, after others.
pub fn push_vars_of_terms(vars: &mut Vec<Var>, base: u64, terms: &[Term]) -> Result<(), Memory>
    requires { AreBelow (2 ^ 64) (map (renamed base) (map term_of terms.now)) }
    ensures { OnOk result (vars.new.items
        ≡ vars.old.items ++ vars_of_terms (map (renamed base) (map term_of terms.now))) }
{
    'reading: for t in terms {
        push_vars_of(vars, base, t)?;
    }
    Ok(())
}
