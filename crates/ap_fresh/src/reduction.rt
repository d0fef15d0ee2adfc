//! Freshness problems, reduced to conditions on unbound variables.

ghost use Rattle.std.specs.Prelude.{◌≡◌, [], true, false, None, Some, IfOk, OnOk, IsErrOf, IsOkUnless, map};
ghost use Rattle.ap_defs.specs.Freshness.{reduce as by_rules};
ghost use Rattle.ap_defs.specs.Permutations.{act_name, inverse};
ghost use Rattle.ap_defs.specs.Renaming.{AreSwapsBelow, IsBelow, rename_swap, rename_term, rename_var};
ghost use Rattle.ap_defs.specs.Terms.{susp, term_of};
ghost use Rattle.ap_theory.specs.StatementsOnConditions.{collected, is_free};
ghost use Rattle.ap_perm.specs.Closures.{closure_term};
ghost use Rattle.ap_perm.specs.Lookups.{carried_out};
ghost use Rattle.ap_fresh.specs.Reduction.{added, pending_term, IsLeast, StandBehind};

use crate::error::FreshError;
use crate::pending::Pending;
use crate::sought::{Sought, seek};
use ap_defs::terms::{Cond, Name, Swap, Term, Var};
use ap_perm::closures::Closure;
use ap_perm::joining::numbered;
use ap_perm::look::Look;
use ap_perm::sets::make_set;
use ap_perm::swappings::swapped;
use std::alloc::Global;

/// The name of which a list of swappings makes `a`, once their numbers are higher by `base`, and then
/// below `end`.
fn preimage_from(base: u64, end: u64, swaps: &[Swap], a: Name) -> Name
    requires { AreSwapsBelow end (map (rename_swap base) swaps.now) }
    ensures { result ≡ act_name (inverse (map (rename_swap base) swaps.now)) a }
{
    let mut moved = a;
    for swap in swaps {
        let numbered = Swap {
            sort: swap.sort,
            left: base + swap.left,
            right: base + swap.right,
        };
        moved = swapped(&numbered, moved);
    }
    moved
}

/// The name that is to be fresh for a variable, where the problem's is to be for swappings on one.
fn at_variable(p: &Pending<'_>, swaps: &[Swap], x: Var) -> Cond
    requires { IsBelow p.now.end (susp (map (rename_swap p.now.base) swaps.now)
        (rename_var p.now.base x)) }
    ensures name { result.name ≡ act_name (inverse (map (rename_swap p.now.base) swaps.now))
        p.now.name }
    ensures var { result.var ≡ rename_var p.now.base x }
{
    Cond {
        name: preimage_from(p.base, p.end, swaps, p.name),
        var: Var {
            num: p.base + x.num,
        },
    }
}

/// Puts the conditions to which a problem reduces under the bindings behind others. What is left to be reduced lies on
/// a stack, and is taken from the last to the first. Once more variables were gone through than there are numbers
/// among them, a name is sought in a variable once only: so a term that has one in many places takes no longer than
/// one that has it once.
fn collect_from<L: Look>(
    first: Pending<'_>,
    look: &L,
    conds: &mut Vec<Cond>,
) -> Result<(), FreshError>
    ensures behind { OnOk result (StandBehind (by_rules first.entry.name (carried_out
        (L.bound look.now) (L.rank look.now) (pending_term first.entry))) conds.old.items
        conds.new.items) }
    ensures refuted { IsErrOf result FreshError.Refuted →
        by_rules first.entry.name (carried_out (L.bound look.now) (L.rank look.now)
        (pending_term first.entry)) ≡ None }
{
    let alloc = *conds.allocator();
    let mut left = Vec::new(alloc);
    let mut sought = Sought::new(alloc);
    left.push(first)?;
    'collecting: while let Some(p) = left.pop() {
        match p.term {
            Term::Unit => {}
            Term::Name(b) => {
                if numbered(p.base, *b) == p.name {
                    return Err(FreshError::Refuted);
                }
            }
            Term::Pair(t, u) => {
                left.push(p.innermost(t))?;
                left.push(p.innermost(u))?;
            }
            Term::App(_, argument) => left.push(p.innermost(argument))?,
            Term::Abs(sort, num, body) => {
                let b = Name {
                    sort: *sort,
                    num: *num,
                };
                if p.name != numbered(p.base, b) {
                    left.push(p.innermost(body))?;
                }
            }
            Term::Susp(swaps, x) => {
                let there = at_variable(&p, swaps.items(), *x);
                match look.look(there.var) {
                    None => conds.push(there)?,
                    Some(c) => {
                        if !seek(&mut sought, &there)? {
                            left.push(Pending::bound(there.name, c))?;
                        }
                    }
                }
            }
        }
    }
    Ok(())
}

/// The same. Where unit or a name stands below the symbols and the binders of the term, one look tells, and no memory is
/// taken.
fn collect<L: Look>(first: Pending<'_>, look: &L, conds: &mut Vec<Cond>) -> Result<(), FreshError>
    ensures behind { OnOk result (StandBehind (by_rules first.entry.name (carried_out
        (L.bound look.now) (L.rank look.now) (pending_term first.entry))) conds.old.items
        conds.new.items) }
    ensures refuted { IsErrOf result FreshError.Refuted →
        by_rules first.entry.name (carried_out (L.bound look.now) (L.rank look.now)
        (pending_term first.entry)) ≡ None }
{
    let inner = first.innermost(first.term);
    match inner.term {
        Term::Unit => Ok(()),
        Term::Name(b) => {
            if numbered(inner.base, *b) == inner.name {
                Err(FreshError::Refuted)
            } else {
                Ok(())
            }
        }
        _ => collect_from(inner, look, conds),
    }
}

/// Puts the conditions to which `a # t` reduces under the bindings behind others, from the last to the first; of those
/// that come more than once some may be left out. `Refuted` comes exactly where there are none.
pub fn add_reduced<L: Look>(
    a: Name,
    t: &Closure<'_>,
    look: &L,
    conds: &mut Vec<Cond>,
) -> Result<(), FreshError>
    ensures added { OnOk result (added (by_rules a (carried_out (L.bound look.now) (L.rank look.now)
        (closure_term t.now))) conds.old.items ≡ collected (Some conds.new.items)) }
    ensures behind { OnOk result (StandBehind (by_rules a (carried_out (L.bound look.now)
        (L.rank look.now) (closure_term t.now))) conds.old.items conds.new.items) }
    ensures refuted { IsErrOf result FreshError.Refuted →
        by_rules a (carried_out (L.bound look.now) (L.rank look.now) (closure_term t.now)) ≡ None }
{
    collect(Pending::bound(a, t.lent()), look, conds)
}

/// Puts the conditions to which `a # x` reduces under the bindings behind others, from the last to the first; of those
/// that come more than once some may be left out. `Refuted` comes exactly where there are none.
pub fn add_reduced_var<L: Look>(
    a: Name,
    x: Var,
    look: &L,
    conds: &mut Vec<Cond>,
) -> Result<(), FreshError>
    ensures added { OnOk result (added (by_rules a (carried_out (L.bound look.now) (L.rank look.now)
        (susp [] x))) conds.old.items ≡ collected (Some conds.new.items)) }
    ensures behind { OnOk result (StandBehind (by_rules a (carried_out (L.bound look.now)
        (L.rank look.now) (susp [] x))) conds.old.items conds.new.items) }
    ensures refuted { IsErrOf result FreshError.Refuted →
        by_rules a (carried_out (L.bound look.now) (L.rank look.now) (susp [] x)) ≡ None }
{
    match look.look(x) {
        None => Ok(conds.push(Cond { name: a, var: x })?),
        Some(c) => collect(Pending::bound(a, c), look, conds),
    }
}

/// The conditions to which `a # t` reduces by the rules of freshness, after Urban, Pitts and
/// Gabbay, where each variable is replaced by what it is bound to. They are the least set of
/// conditions on unbound variables under which `a` is fresh for the term, ascending by variable,
/// then by the number of the name, then by its sort.
///
/// `Refuted` comes exactly where `a` is free in the term, so that no conditions are enough.
pub fn reduce<L: Look>(
    alloc: Global,
    a: Name,
    t: &Closure<'_>,
    look: &L,
) -> Result<Vec<Cond>, FreshError>
    ensures conditions { IfOk result (λ conds. collected (by_rules a (carried_out (L.bound look.now)
        (L.rank look.now) (closure_term t.now))) ≡ Some conds.items) }
    ensures least { IfOk result (λ conds. IsLeast a (carried_out (L.bound look.now)
        (L.rank look.now) (closure_term t.now)) conds.items) }
    ensures fresh { OnOk result (is_free a (carried_out (L.bound look.now) (L.rank look.now)
        (closure_term t.now)) ≡ false) }
    ensures refuted { IsErrOf result FreshError.Refuted →
        is_free a (carried_out (L.bound look.now) (L.rank look.now) (closure_term t.now)) ≡ true }
{
    let mut conds = Vec::new(alloc);
    add_reduced(a, t, look, &mut conds)?;
    make_set(&mut conds);
    Ok(conds)
}
