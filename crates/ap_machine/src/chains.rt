//! What variables stand for, of which one may be bound to another on which swappings wait. What such a one
//! stands for is made of what the other stands for, so that a chain of them is gone through once.

ghost use Rattle.std.specs.Prelude.{◌≡◌, ◌<◌, ◌≤◌, [], All, IfOk, IfSome, OnOk, Some, get_or, length, map};
ghost use Rattle.ap_defs.specs.Answers.{closed_term};
ghost use Rattle.ap_defs.specs.Resolution.{State};
ghost use Rattle.ap_defs.specs.Terms.{susp, term_of};
ghost use Rattle.ap_machine.specs.Chains.{IsRight};
ghost use Rattle.ap_machine.specs.Views.{state_in};
ghost use Rattle.ap_perm.specs.Closures.{lent_term};
ghost use Rattle.ap_search.specs.Records.{closed_vars};
ghost use Rattle.ap_store.specs.Views.{raw_bound};

use crate::closing::closed_from;
use crate::moving::moved_term;
use ap_defs::lists::Swaps;
use ap_defs::memory::Memory;
use ap_defs::terms::{Swap, Term, Var};
use ap_perm::closures::Lent;
use ap_perm::joining::{copied, with_numbered};
use ap_store::store::Store;
use std::alloc::Global;

/// A variable, with what it stands for once that is made.
#[derive(Drop)]
pub(crate) struct ToClose {
    pub var: Var,
    pub term: Option<Term>,
}

/// A variable on which swappings wait.
#[derive(Drop)]
pub(crate) struct Waiting {
    pub swaps: Vec<Swap>,
    pub var: Var,
}

/// The variables, none of them made.
fn slots_of(alloc: Global, vars: &[Var]) -> Result<Vec<ToClose>, Memory>
    ensures vars { IfOk result (λ v. map (λ e. e.var) v.items ≡ vars.now) }
    ensures right { (s : State) → IfOk result (λ v. All (IsRight s) v.items) }
{
    let mut slots = Vec::with_capacity(alloc, vars.len())?;
    'listing: for x in vars {
        slots.push(ToClose {
            var: *x,
            term: None,
        })?;
    }
    Ok(slots)
}

/// The first place from which on no variable has a lower number, where they ascend.
fn lower_end(slots: &[ToClose], x: Var) -> usize
    ensures { result ≤ length slots.now }
{
    let mut low = 0;
    let mut high = slots.len();
    'halving: while low < high {
        let middle = low + (high - low) / 2;
        if slots[middle].var.num < x.num {
            low = middle + 1;
        } else {
            high = middle;
        }
    }
    low
}

/// The place of a variable, if it is there and they ascend.
fn place_of(slots: &[ToClose], x: Var) -> Option<usize>
    ensures { IfSome result (λ i. (i < length slots.now)
        × ((e : ToClose) → (get_or slots.now i e).var ≡ x)) }
{
    let place = lower_end(slots, x);
    if place < slots.len() && slots[place].var.num == x.num {
        Some(place)
    } else {
        None
    }
}

/// The variable to which one is bound, whatever waits on it. It says in which order variables are made, and so
/// spares work alone.
fn bound_to(store: &Store<'_>, x: Var) -> Option<Var> {
    let bound = store.binding(x)?;
    // With its bound the number below is known to be one.
    let _end = bound.end;
    match bound.term {
        Term::Susp(_, y) => Some(Var {
            num: bound.base + y.num,
        }),
        _ => None,
    }
}

/// The variable that what is bound is, with the swappings that wait on it.
fn waiting_in(alloc: Global, bound: Lent<'_, '_>) -> Result<Option<Waiting>, Memory>
    ensures { IfOk result (λ o. IfSome o (λ w. lent_term bound.entry ≡ susp w.swaps.items w.var)) }
{
    match bound.term {
        Term::Susp(own, y) => {
            let outer = copied(alloc, bound.swaps)?;
            let swaps = with_numbered(outer, bound.base, own.items())?;
            let var = Var {
                num: bound.base + y.num,
            };
            Ok(Some(Waiting { swaps, var }))
        }
        _ => Ok(None),
    }
}

/// The variable to which one is bound, with the swappings that wait on it.
fn link<'a>(alloc: Global, store: &Store<'a>, x: Var) -> Result<Option<Waiting>, Memory>
    ensures { IfOk result (λ o. IfSome o (λ w.
        raw_bound store.now x ≡ Some (susp w.swaps.items w.var))) }
{
    match store.binding(x) {
        Some(bound) => waiting_in(alloc, bound),
        None => Ok(None),
    }
}

/// What a variable stands for, with canonical lists. Suspensions on which no swappings wait share the given ones,
/// which are none.
fn closed_var<'a>(alloc: Global, store: &Store<'a>, none: &Swaps, x: Var) -> Result<Term, Memory>
    requires { none.now ≡ [] }
    ensures { IfOk result (λ t. term_of t ≡ closed_term (state_in store.now) (susp [] x)) }
{
    match store.binding(x) {
        None => Ok(Term::Susp(none.share()?, x)),
        Some(bound) => closed_from(alloc, store, none, bound),
    }
}

/// What is made of a variable, if it is.
fn made<'s>(slots: &'s [ToClose], x: Var) -> Option<&'s Term>
    ensures { (s : State) → All (IsRight s) slots.now →
        IfSome result (λ t. term_of t.now ≡ closed_term s (susp [] x)) }
{
    match place_of(slots, x) {
        Some(place) => slots[place].term.as_ref(),
        None => None,
    }
}

/// What a variable stands for, with canonical lists, by that for which another one stands if it is bound to one of
/// which that is made.
#[tactic(auto, using(crate::proofs::ChainLemmas::link_closes))]
fn closed_by(
    alloc: Global,
    store: &Store<'_>,
    none: &Swaps,
    slots: &[ToClose],
    x: Var,
) -> Result<Term, Memory>
    requires none { none.now ≡ [] }
    requires right { All (IsRight (state_in store.now)) slots.now }
    ensures { IfOk result (λ t. term_of t ≡ closed_term (state_in store.now) (susp [] x)) }
{
    let Some(waiting) = link(alloc, store, x)? else {
        return closed_var(alloc, store, none, x);
    };
    match made(slots, waiting.var) {
        Some(t) => moved_term(alloc, none, &waiting.swaps, t),
        None => closed_var(alloc, store, none, x),
    }
}

/// The place of the variable to which one is bound, if it is there and not made.
fn next_place(store: &Store<'_>, slots: &[ToClose], x: Var) -> Option<usize>
    ensures { IfSome result (λ i. i < length slots.now) }
{
    let y = bound_to(store, x)?;
    let place = place_of(slots, y)?;
    if slots[place].term.is_some() {
        return None;
    }
    Some(place)
}

/// The places from one on of which each has the variable to which the one before is bound, up to one that is made
/// or bound to no variable.
fn way_from(
    alloc: Global,
    store: &Store<'_>,
    slots: &[ToClose],
    place: usize,
) -> Result<Vec<usize>, Memory>
    requires { place < length slots.now }
    ensures { IfOk result (λ v. All (λ i. i < length slots.now) v.items) }
{
    let mut way = Vec::new(alloc);
    let mut last = place;
    'following: while way.len() < slots.len() {
        way.push(last)?;
        match next_place(store, slots, slots[last].var) {
            Some(next) => last = next,
            None => return Ok(way),
        }
    }
    Ok(way)
}

/// The variable at a place is made, unless it is.
fn close_at(
    alloc: Global,
    store: &Store<'_>,
    none: &Swaps,
    slots: &mut Vec<ToClose>,
    place: usize,
) -> Result<(), Memory>
    requires none { none.now ≡ [] }
    requires inside { place < length slots.old.items }
    requires right { All (IsRight (state_in store.now)) slots.old.items }
    ensures right { OnOk result (All (IsRight (state_in store.now)) slots.new.items) }
    ensures vars { OnOk result (map (λ e. e.var) slots.new.items
        ≡ map (λ e. e.var) slots.old.items) }
{
    if slots[place].term.is_some() {
        return Ok(());
    }
    let var = slots[place].var;
    let term = closed_by(alloc, store, none, slots, var)?;
    slots[place] = ToClose {
        var,
        term: Some(term),
    };
    Ok(())
}

/// The variables at places are made, the last first.
fn close_along(
    alloc: Global,
    store: &Store<'_>,
    none: &Swaps,
    slots: &mut Vec<ToClose>,
    mut way: Vec<usize>,
) -> Result<(), Memory>
    requires none { none.now ≡ [] }
    requires inside { All (λ i. i < length slots.old.items) way.items }
    requires right { All (IsRight (state_in store.now)) slots.old.items }
    ensures right { OnOk result (All (IsRight (state_in store.now)) slots.new.items) }
    ensures vars { OnOk result (map (λ e. e.var) slots.new.items
        ≡ map (λ e. e.var) slots.old.items) }
{
    'closing: while let Some(place) = way.pop() {
        close_at(alloc, store, none, slots, place)?;
    }
    Ok(())
}

/// What the variable of a slot stands for, which is made or not.
fn taken(alloc: Global, store: &Store<'_>, none: &Swaps, slot: ToClose) -> Result<Term, Memory>
    requires { none.now ≡ [] }
    ensures { IsRight (state_in store.now) slot → IfOk result (λ t. term_of t
        ≡ closed_term (state_in store.now) (susp [] slot.var)) }
{
    let ToClose { var, term } = slot;
    match term {
        Some(t) => Ok(t),
        None => closed_var(alloc, store, none, var),
    }
}

/// What the variables of slots stand for.
fn all_taken(
    alloc: Global,
    store: &Store<'_>,
    none: &Swaps,
    slots: Vec<ToClose>,
) -> Result<Vec<Term>, Memory>
    requires none { none.now ≡ [] }
    requires right { All (IsRight (state_in store.now)) slots.items }
    ensures { IfOk result (λ v. map term_of v.items
        ≡ closed_vars (state_in store.now) (map (λ e. e.var) slots.items)) }
{
    let mut terms = Vec::with_capacity(alloc, slots.len())?;
    'taking: for slot in slots {
        terms.push(taken(alloc, store, none, slot)?)?;
    }
    Ok(terms)
}

/// Whether one of the variables is bound to a variable.
fn are_linked(store: &Store<'_>, vars: &[Var]) -> bool {
    for x in vars {
        if bound_to(store, *x).is_some() {
            return true;
        }
    }
    false
}

/// What variables stand for, each made by itself.
fn closed_each(
    alloc: Global,
    store: &Store<'_>,
    none: &Swaps,
    vars: &[Var],
) -> Result<Vec<Term>, Memory>
    requires { none.now ≡ [] }
    ensures { IfOk result (λ v. map term_of v.items ≡ closed_vars (state_in store.now) vars.now) }
{
    let mut terms = Vec::with_capacity(alloc, vars.len())?;
    'closing: for x in vars {
        terms.push(closed_var(alloc, store, none, *x)?)?;
    }
    Ok(terms)
}

/// What variables stand for, each made behind the one to which it is bound.
fn closed_in_order(
    alloc: Global,
    store: &Store<'_>,
    none: &Swaps,
    vars: &[Var],
) -> Result<Vec<Term>, Memory>
    requires { none.now ≡ [] }
    ensures { IfOk result (λ v. map term_of v.items ≡ closed_vars (state_in store.now) vars.now) }
{
    let mut slots = slots_of(alloc, vars)?;
    'closing: for place in 0..vars.len() {
        let way = way_from(alloc, store, &slots, place)?;
        close_along(alloc, store, none, &mut slots, way)?;
    }
    all_taken(alloc, store, none, slots)
}

/// What variables stand for, with canonical lists. The variables ascend, else it takes longer.
pub(crate) fn closed(alloc: Global, store: &Store<'_>, vars: &[Var]) -> Result<Vec<Term>, Memory>
    ensures { IfOk result (λ v. map term_of v.items ≡ closed_vars (state_in store.now) vars.now) }
{
    let none = Swaps::none(alloc)?;
    if are_linked(store, vars) {
        closed_in_order(alloc, store, &none, vars)
    } else {
        closed_each(alloc, store, &none, vars)
    }
}
