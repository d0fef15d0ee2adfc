//! The rules of nominal unification, each for one equation of closures.

ghost use Rattle.std.specs.Prelude.{◌≡◌, [], ◌∷◌, ◌<◌, true, IfOk, Some};
ghost use Rattle.ap_defs.specs.Permutations.{swap_of};
ghost use Rattle.ap_defs.specs.Renaming.{IsBelow};
ghost use Rattle.ap_defs.specs.Substitution.{◌#◌, ◌≐◌};
ghost use Rattle.ap_defs.specs.Terms.{abs, act_term};
ghost use Rattle.ap_defs.specs.Unification.{replace, rule};
ghost use Rattle.ap_perm.specs.Closures.{closure_term, opened_term};
ghost use Rattle.ap_store.specs.Heads.{HasForm, IsHeadVar};
ghost use Rattle.ap_store.specs.Views.{bindings_of, meaning_in, present};
ghost use Rattle.ap_rules.specs.Work.{IsMoveFit, IsMoveOf, opened_under};

use crate::moves::{Move, bind_unless_occurs, suspensions, swaps_of};
use crate::pairs::ClosurePair;
use ap_defs::memory::Memory;
use ap_defs::terms::{Name, Swap, Term, Var};
use ap_perm::closures::{Closure, Opened};
use ap_store::store::Store;
use std::alloc::Global;

/// Abstractions with different binders of one sort: the bodies are compared once the binders are
/// exchanged on the right, and the left binder is to be fresh for the right body.
#[tactic(auto, using(crate::proofs::MoveLemmas::moved_under, crate::proofs::MoveLemmas::swapped_below))]
fn exchanged<'a>(
    alloc: Global,
    store: &Store<'a>,
    a: Name,
    t: Closure<'a>,
    b: Name,
    u: Closure<'a>,
) -> Result<Move<'a>, Memory>
    requires left { (a.num < (present store.now).next)
        × IsBelow (present store.now).next (closure_term t) }
    requires right { (b.num < (present store.now).next)
        × IsBelow (present store.now).next (closure_term u) }
    ensures rule { IfOk result (IsMoveOf (bindings_of store.now)
        (replace ((meaning_in store.now t.entry ≐ act_term (swap_of a b ∷ [])
        (meaning_in store.now u.entry)) ∷ []) ((a # meaning_in store.now u.entry) ∷ []))) }
    ensures fit { IfOk result (IsMoveFit (bindings_of store.now) (present store.now).next) }
{
    let swap = [Swap {
        sort: a.sort,
        left: a.num,
        right: b.num,
    }];
    let right = u.copy_moved_by(alloc, &swap)?;
    Ok(Move::Swapped(ClosurePair { left: t, right }, a, u))
}

/// The rule for two abstractions.
#[tactic(auto, unfolding(ap_defs::specs::Permutations::name_eq))]
fn abstractions<'a>(
    alloc: Global,
    store: &Store<'a>,
    a: Name,
    t: Closure<'a>,
    b: Name,
    u: Closure<'a>,
) -> Result<Move<'a>, Memory>
    requires left { (a.num < (present store.now).next)
        × IsBelow (present store.now).next (closure_term t) }
    requires right { (b.num < (present store.now).next)
        × IsBelow (present store.now).next (closure_term u) }
    ensures rule { IfOk result (IsMoveOf (bindings_of store.now)
        (rule (abs a (meaning_in store.now t.entry)) (abs b (meaning_in store.now u.entry)))) }
    ensures fit { IfOk result (IsMoveFit (bindings_of store.now) (present store.now).next) }
{
    if a == b {
        Ok(Move::One(ClosurePair { left: t, right: u }))
    } else if a.sort == b.sort {
        exchanged(alloc, store, a, t, b, u)
    } else {
        Ok(Move::Clash)
    }
}

/// The rule for two closures that were taken apart, neither of them a suspension.
#[tactic(auto, unfolding(ap_defs::specs::Permutations::name_eq))]
fn rule_for_opened<'a>(
    alloc: Global,
    store: &Store<'a>,
    left: Opened<'a>,
    right: Opened<'a>,
) -> Result<Move<'a>, Memory>
    requires left_form { HasForm (opened_term left) }
    requires right_form { HasForm (opened_term right) }
    requires left_below { IsBelow (present store.now).next (opened_term left) }
    requires right_below { IsBelow (present store.now).next (opened_term right) }
    ensures rule { IfOk result (IsMoveOf (bindings_of store.now)
        (rule (opened_under (bindings_of store.now) left.entry)
        (opened_under (bindings_of store.now) right.entry))) }
    ensures fit { IfOk result (IsMoveFit (bindings_of store.now) (present store.now).next) }
{
    match (left, right) {
        (Opened::Unit, Opened::Unit) => Ok(Move::Done),
        (Opened::Name(a), Opened::Name(b)) => {
            if a == b {
                Ok(Move::Done)
            } else {
                Ok(Move::Clash)
            }
        }
        (Opened::Pair(t, u), Opened::Pair(v, w)) => Ok(Move::Two(
            ClosurePair { left: t, right: v },
            ClosurePair { left: u, right: w },
        )),
        (Opened::App(f, t), Opened::App(g, u)) => {
            if f == g {
                Ok(Move::One(ClosurePair { left: t, right: u }))
            } else {
                Ok(Move::Clash)
            }
        }
        (Opened::Abs(a, t), Opened::Abs(b, u)) => abstractions(alloc, store, a, t, b, u),
        (Opened::Susp(_, _), _) => unreachable!(),
        (_, Opened::Susp(_, _)) => unreachable!(),
        _ => Ok(Move::Clash),
    }
}

/// The rule for two closures whose terms are no suspensions.
fn rule_for_forms<'a>(
    alloc: Global,
    store: &Store<'a>,
    left: Closure<'a>,
    right: Closure<'a>,
) -> Result<Move<'a>, Memory>
    requires left_form { HasForm (closure_term left) }
    requires right_form { HasForm (closure_term right) }
    requires left_below { IsBelow (present store.now).next (closure_term left) }
    requires right_below { IsBelow (present store.now).next (closure_term right) }
    ensures rule { IfOk result (IsMoveOf (bindings_of store.now)
        (rule (meaning_in store.now left.entry) (meaning_in store.now right.entry))) }
    ensures fit { IfOk result (IsMoveFit (bindings_of store.now) (present store.now).next) }
{
    let opened_left = left.open(alloc)?;
    let opened_right = right.open(alloc)?;
    rule_for_opened(alloc, store, opened_left, opened_right)
}

/// The rule for two closures that stand for no suspension.
fn rule_for_parts<'a>(
    alloc: Global,
    store: &Store<'a>,
    left: Closure<'a>,
    right: Closure<'a>,
) -> Result<Move<'a>, Memory>
    requires left_form { HasForm (meaning_in store.now left) }
    requires right_form { HasForm (meaning_in store.now right) }
    requires left_below { IsBelow (present store.now).next (closure_term left) }
    requires right_below { IsBelow (present store.now).next (closure_term right) }
    ensures rule { IfOk result (IsMoveOf (bindings_of store.now)
        (rule (meaning_in store.now left.entry) (meaning_in store.now right.entry))) }
    ensures fit { IfOk result (IsMoveFit (bindings_of store.now) (present store.now).next) }
{
    let left = store.follow(left)?;
    let right = store.follow(right)?;
    rule_for_forms(alloc, store, left, right)
}

/// The rule for a closure that stands for a suspension and one that doesn't, whichever is the left one.
fn rule_for_one<'a>(
    alloc: Global,
    store: &Store<'a>,
    x: Var,
    suspended: Closure<'a>,
    c: Closure<'a>,
) -> Result<Move<'a>, Memory>
    requires head { IsHeadVar (bindings_of store.now) (meaning_in store.now suspended) (Some x) }
    requires form { HasForm (meaning_in store.now c) }
    requires suspended_below { IsBelow (present store.now).next (closure_term suspended) }
    requires below { IsBelow (present store.now).next (closure_term c) }
    ensures left { IfOk result (IsMoveOf (bindings_of store.now)
        (rule (meaning_in store.now suspended.entry) (meaning_in store.now c.entry))) }
    ensures right { IfOk result (IsMoveOf (bindings_of store.now)
        (rule (meaning_in store.now c.entry) (meaning_in store.now suspended.entry))) }
    ensures fit { IfOk result (IsMoveFit (bindings_of store.now) (present store.now).next) }
{
    let p = swaps_of(alloc, store, x, suspended)?;
    bind_unless_occurs(alloc, store, &p, x, c)
}

/// The rule for two closures by the variables at their heads.
fn rule_by_heads<'a>(
    alloc: Global,
    store: &Store<'a>,
    left: Closure<'a>,
    right: Closure<'a>,
) -> Result<Move<'a>, Memory>
    requires left_below { IsBelow (present store.now).next (closure_term left) }
    requires right_below { IsBelow (present store.now).next (closure_term right) }
    ensures rule { IfOk result (IsMoveOf (bindings_of store.now)
        (rule (meaning_in store.now left.entry) (meaning_in store.now right.entry))) }
    ensures fit { IfOk result (IsMoveFit (bindings_of store.now) (present store.now).next) }
{
    match (store.head_var(&left), store.head_var(&right)) {
        (None, None) => rule_for_parts(alloc, store, left, right),
        (Some(x), None) => rule_for_one(alloc, store, x, left, right),
        (None, Some(y)) => rule_for_one(alloc, store, y, right, left),
        (Some(x), Some(y)) => suspensions(alloc, store, x, left, y, right),
    }
}

/// Whether the term of a closure is no suspension. It takes no memory.
fn has_form(c: &Closure<'_>) -> bool
    ensures { result ≡ true → HasForm (closure_term c.now) }
{
    match c.term {
        Term::Susp(_, _) => false,
        _ => true,
    }
}

/// The rule for two closures. What it binds is no further followed than few swappings wait.
pub fn rule_for<'a>(
    alloc: Global,
    store: &Store<'a>,
    left: Closure<'a>,
    right: Closure<'a>,
) -> Result<Move<'a>, Memory>
    requires left_below { IsBelow (present store.now).next (closure_term left) }
    requires right_below { IsBelow (present store.now).next (closure_term right) }
    ensures rule { IfOk result (IsMoveOf (bindings_of store.now)
        (rule (meaning_in store.now left.entry) (meaning_in store.now right.entry))) }
    ensures fit { IfOk result (IsMoveFit (bindings_of store.now) (present store.now).next) }
{
    if has_form(&left) && has_form(&right) {
        return rule_for_forms(alloc, store, left, right);
    }
    let left = store.shortened(left)?;
    let right = store.shortened(right)?;
    rule_by_heads(alloc, store, left, right)
}
