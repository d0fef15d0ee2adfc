//! Terms that are made at once, as constants and unbound variables are, and ways along the cells of a list whose left
//! parts are such.

ghost use Rattle.std.specs.Prelude.{◌≡◌, ◌≤◌, ◌+◌, ◌*◌, [], true, IfOk, IfSome, OnOk};
ghost use Rattle.ap_defs.specs.Canonical.{canonical_term};
ghost use Rattle.ap_defs.specs.Renaming.{IsBelow, rename_term};
ghost use Rattle.ap_defs.specs.Substitution.{under};
ghost use Rattle.ap_defs.specs.Terms.{NominalTerm, app, pair, susp, term_of, unit};
ghost use Rattle.ap_defs.specs.Unification.{size};
ghost use Rattle.ap_store.specs.Views.{bindings_of, meaning_in};
ghost use Rattle.ap_store.specs.declared.store.Store.{Store};
ghost use Rattle.ap_machine.specs.Closed.{closed_within, plain_meaning, rounds_work};

use crate::closing::Round;
use ap_defs::lists::Swaps;
use ap_defs::memory::Memory;
use ap_defs::terms::{Term, Var};
use ap_perm::closures::Closure;
use ap_store::store::Store;
use std::alloc::Global;

/// Whether a term is the one without parts, as the argument of a constant is.
pub(crate) fn is_unit(t: &Term) -> bool
    ensures { result ≡ true → term_of t.now ≡ unit }
{
    matches!(t, Term::Unit)
}

/// A constructor with the argument of a constant.
pub(crate) fn constant(alloc: Global, f: u32) -> Result<Term, Memory>
    ensures { IfOk result (λ t. term_of t ≡ app f unit) }
{
    Ok(Term::App(f, Box::new(alloc, Term::Unit)?))
}

/// A variable that is bound to nothing, or none where it is bound.
fn unbound(store: &Store<'_>, none: &Swaps, x: Var) -> Result<Option<Term>, Memory>
    requires { none.now ≡ [] }
    ensures { IfOk result (λ o. IfSome o (λ t.
        term_of t ≡ canonical_term (under (bindings_of store.now) (susp [] x)))) }
{
    match store.binding(x) {
        None => Ok(Some(Term::Susp(none.share()?, x))),
        Some(_) => Ok(None),
    }
}

/// What a closure stands for, if that is seen at once: a constant, or a variable on which nothing waits and that is
/// bound to nothing.
pub(crate) fn leaf_of(
    alloc: Global,
    store: &Store<'_>,
    none: &Swaps,
    c: &Closure<'_>,
) -> Result<Option<Term>, Memory>
    requires { none.now ≡ [] }
    ensures { IfOk result (λ o. IfSome o (λ t.
        term_of t ≡ canonical_term (meaning_in store.now c.now))) }
{
    // Its identifiers are below its end, which the sum below is.
    let _end = c.end;
    match c.term {
        Term::App(f, argument) => {
            if is_unit(argument) {
                return Ok(Some(constant(alloc, *f)?));
            }
            Ok(None)
        }
        Term::Susp(own, x) => {
            if !c.swaps.is_empty() || !own.items().is_empty() {
                return Ok(None);
            }
            let var = Var {
                num: c.base + x.num,
            };
            unbound(store, none, var)
        }
        _ => Ok(None),
    }
}

/// What a term on which no swappings wait stands for, if that is seen at once, likewise.
fn plain_leaf(
    alloc: Global,
    store: &Store<'_>,
    none: &Swaps,
    base: u64,
    end: u64,
    t: &Term,
) -> Result<Option<Term>, Memory>
    requires none { none.now ≡ [] }
    requires below { IsBelow end (rename_term base (term_of t.now)) }
    ensures { IfOk result (λ o. IfSome o (λ u. term_of u
        ≡ canonical_term (plain_meaning store.now base (term_of t.now)))) }
{
    match t {
        Term::App(f, argument) => {
            if is_unit(argument) {
                return Ok(Some(constant(alloc, *f)?));
            }
            Ok(None)
        }
        Term::Susp(own, x) => {
            if !own.items().is_empty() {
                return Ok(None);
            }
            let var = Var { num: base + x.num };
            unbound(store, none, var)
        }
        _ => Ok(None),
    }
}

/// A constructor of a pair, and the parts of that.
fn cell_of(t: &Term) -> Option<(u32, &Term, &Term)>
    ensures { IfSome result (λ r. term_of t.now
        ≡ app r.0 (pair (term_of r.1.now) (term_of r.2.now))) }
{
    match t {
        Term::App(f, argument) => match &**argument {
            Term::Pair(left, right) => Some((*f, left, right)),
            _ => None,
        },
        _ => None,
    }
}

/// Keeps a constructor and the left part of the pair that is its argument, round the right part that is made next.
#[tactic(auto, using(crate::proofs::ClosedLemmas::closed_within_last, crate::proofs::ClosedLemmas::rounds_work_last))]
fn keep_cell(alloc: Global, rounds: &mut Vec<Round<'_>>, f: u32, left: Term) -> Result<(), Memory>
    ensures same { OnOk result ((s : Store) (t : NominalTerm) → closed_within s rounds.new.items t
        ≡ closed_within s rounds.old.items (app f (pair (term_of left) t))) }
    ensures work { OnOk result ((s : Store) → rounds_work s rounds.new.items
        ≤ rounds_work s rounds.old.items + 1) }
{
    let made = Box::new(alloc, left)?;
    rounds.push(Round::RightIn(f, made))?;
    Ok(())
}

/// Goes in along a term on which no swappings wait, through the pairs of constructors whose left parts are made at
/// once, as those of a list mostly are. It gives the first part that is none of these.
fn go_along<'a>(
    alloc: Global,
    store: &Store<'a>,
    none: &Swaps,
    rounds: &mut Vec<Round<'a>>,
    base: u64,
    end: u64,
    t: &'a Term,
) -> Result<&'a Term, Memory>
    requires none { none.now ≡ [] }
    requires below { IsBelow end (rename_term base (term_of t.now)) }
    ensures below { IfOk result (λ u. IsBelow end (rename_term base (term_of u.now))) }
    ensures same { IfOk result (λ u. closed_within store.now rounds.new.items
        (canonical_term (plain_meaning store.now base (term_of u.now)))
        ≡ closed_within store.now rounds.old.items
        (canonical_term (plain_meaning store.now base (term_of t.now)))) }
    ensures less { IfOk result (λ u. rounds_work store.now rounds.new.items
        + 3 * size (plain_meaning store.now base (term_of u.now))
        ≤ rounds_work store.now rounds.old.items
        + 3 * size (plain_meaning store.now base (term_of t.now))) }
{
    let mut rest = t;
    'going: while let Some((f, left, right)) = cell_of(rest) {
        let Some(made) = plain_leaf(alloc, store, none, base, end, left)? else {
            return Ok(rest);
        };
        keep_cell(alloc, rounds, f, made)?;
        rest = right;
    }
    Ok(rest)
}

/// Goes in along a closure, where no swappings wait on it.
pub(crate) fn go_in_along<'a>(
    alloc: Global,
    store: &Store<'a>,
    none: &Swaps,
    rounds: &mut Vec<Round<'a>>,
    c: Closure<'a>,
) -> Result<Closure<'a>, Memory>
    requires { none.now ≡ [] }
    ensures same { IfOk result (λ d. closed_within store.now rounds.new.items
        (canonical_term (meaning_in store.now d))
        ≡ closed_within store.now rounds.old.items
        (canonical_term (meaning_in store.now c.entry))) }
    ensures less { IfOk result (λ d. rounds_work store.now rounds.new.items
        + 3 * size (meaning_in store.now d)
        ≤ rounds_work store.now rounds.old.items + 3 * size (meaning_in store.now c.entry)) }
{
    if !c.swaps.is_empty() {
        return Ok(c);
    }
    let rest = go_along(alloc, store, none, rounds, c.base, c.end, c.term)?;
    Ok(Closure {
        swaps: c.swaps,
        base: c.base,
        end: c.end,
        term: rest,
    })
}
