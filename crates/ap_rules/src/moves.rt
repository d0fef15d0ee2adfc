//! What a rule makes of an equation, and the rules for closures that stand for suspensions.

ghost use Rattle.std.specs.Prelude.{◌≡◌, ◌<◌, false, true, IfOk, Some};
ghost use Rattle.ap_defs.specs.Permutations.{inverse};
ghost use Rattle.ap_defs.specs.Renaming.{AreSwapsBelow, IsBelow};
ghost use Rattle.ap_defs.specs.Substitution.{occurs};
ghost use Rattle.ap_defs.specs.Terms.{act_term, susp};
ghost use Rattle.ap_defs.specs.Unification.{bind, rule, unless_occurs};
ghost use Rattle.ap_perm.specs.Closures.{closure_term};
ghost use Rattle.ap_store.specs.Heads.{IsHeadVar};
ghost use Rattle.ap_store.specs.Marks.{HasNoVars};
ghost use Rattle.ap_store.specs.Views.{bindings_of, meaning_in, present};
ghost use Rattle.ap_theory.specs.Variables.{IsUnbound};
ghost use Rattle.ap_rules.specs.Work.{IsMoveFit, IsMoveOf};

use crate::pairs::ClosurePair;
use ap_defs::memory::Memory;
use ap_defs::terms::{Name, Swap, Var};
use ap_perm::closures::{Closure, Opened};
use ap_perm::swappings::differing;
use ap_store::store::Store;
use std::alloc::Global;

/// What a rule makes of the first equation: nothing, one equation, or two; one and a freshness
/// problem; the names that are to be fresh for a variable; a binding; or no solution.
#[derive(Drop)]
pub enum Move<'a> {
    Done,
    One(ClosurePair<'a>),
    Two(ClosurePair<'a>, ClosurePair<'a>),
    Swapped(ClosurePair<'a>, Name, Closure<'a>),
    Differ(Vec<Name>, Var),
    Bind(Var, Closure<'a>, bool),
    Clash,
}

/// The swappings of the suspension that a closure stands for under the bindings, the first outermost.
pub(crate) fn swaps_of<'a>(
    alloc: Global,
    store: &Store<'a>,
    x: Var,
    c: Closure<'a>,
) -> Result<Vec<Swap>, Memory>
    requires head { IsHeadVar (bindings_of store.now) (meaning_in store.now c) (Some x) }
    requires below { IsBelow (present store.now).next (closure_term c) }
    ensures all { IfOk result (λ p. meaning_in store.now c.entry ≡ susp p.items x) }
    ensures below { IfOk result (λ p. AreSwapsBelow (present store.now).next p.items) }
    ensures made { IfOk result (λ p. x.num < (present store.now).next) }
{
    let head = store.follow(c)?;
    match head.open(alloc)? {
        Opened::Susp(swaps, _) => Ok(swaps),
        Opened::Unit => unreachable!(),
        Opened::Name(_) => unreachable!(),
        Opened::Pair(_, _) => unreachable!(),
        Opened::App(_, _) => unreachable!(),
        Opened::Abs(_, _) => unreachable!(),
    }
}

/// The inverse of a permutation.
#[tactic(auto, using(crate::proofs::MoveLemmas::reverse_inverse))]
fn inverse_of(alloc: Global, p: &[Swap]) -> Result<Vec<Swap>, Memory>
    ensures { IfOk result (λ q. q.items ≡ inverse p.now) }
{
    let mut inverted = p.to_vec(alloc)?;
    inverted.reverse();
    Ok(inverted)
}

/// A closure on which the inverse of a permutation acts. On a name no swappings wait then, unless its number falls.
fn moved_back<'a>(alloc: Global, p: &[Swap], c: Closure<'a>) -> Result<Closure<'a>, Memory>
    ensures { IfOk result (λ d. closure_term d ≡ act_term (inverse p.now) (closure_term c.entry)) }
{
    if p.is_empty() {
        return Ok(c.settled());
    }
    let back = inverse_of(alloc, p)?;
    let moved = c.moved_by(alloc, &back)?;
    Ok(moved.settled())
}

/// A variable is bound to a closure on which the inverse of the variable's permutation acts, and marked where the
/// closure is known to be ground.
#[tactic(auto, using(crate::proofs::MoveLemmas::moved_under, crate::proofs::MoveLemmas::back_below, crate::proofs::MoveLemmas::back_absent))]
fn bind_to<'a>(
    alloc: Global,
    store: &Store<'a>,
    p: &[Swap],
    x: Var,
    c: Closure<'a>,
    is_ground: bool,
) -> Result<Move<'a>, Memory>
    requires made { x.num < (present store.now).next }
    requires unbound { IsUnbound (bindings_of store.now) x }
    requires swaps { AreSwapsBelow (present store.now).next p.now }
    requires below { IsBelow (present store.now).next (closure_term c) }
    requires absent { occurs x (meaning_in store.now c) ≡ false }
    requires no_vars { is_ground ≡ true → HasNoVars (meaning_in store.now c) }
    ensures rule { IfOk result (IsMoveOf (bindings_of store.now)
        (bind x (act_term (inverse p.now) (meaning_in store.now c.entry)))) }
    ensures fit { IfOk result (IsMoveFit (bindings_of store.now) (present store.now).next) }
{
    let moved = moved_back(alloc, p, c)?;
    Ok(Move::Bind(x, moved, is_ground))
}

/// A variable is bound to a closure, unless it occurs there.
pub(crate) fn bind_unless_occurs<'a>(
    alloc: Global,
    store: &Store<'a>,
    p: &[Swap],
    x: Var,
    c: Closure<'a>,
) -> Result<Move<'a>, Memory>
    requires made { x.num < (present store.now).next }
    requires unbound { IsUnbound (bindings_of store.now) x }
    requires swaps { AreSwapsBelow (present store.now).next p.now }
    requires below { IsBelow (present store.now).next (closure_term c) }
    ensures rule { IfOk result (IsMoveOf (bindings_of store.now)
        (unless_occurs x (meaning_in store.now c.entry)
        (act_term (inverse p.now) (meaning_in store.now c.entry)))) }
    ensures fit { IfOk result (IsMoveFit (bindings_of store.now) (present store.now).next) }
{
    let found = store.occurs(alloc, x, &c)?;
    if found.occurs() {
        return Ok(Move::Clash);
    }
    bind_to(alloc, store, p, x, c, found.is_ground())
}

/// Of one variable, the names on which the permutations differ are to be fresh for it.
fn one_variable<'a>(
    alloc: Global,
    store: &Store<'a>,
    x: Var,
    left: Closure<'a>,
    right: Closure<'a>,
) -> Result<Move<'a>, Memory>
    requires left { IsHeadVar (bindings_of store.now) (meaning_in store.now left) (Some x) }
    requires right { IsHeadVar (bindings_of store.now) (meaning_in store.now right) (Some x) }
    requires left_below { IsBelow (present store.now).next (closure_term left) }
    requires right_below { IsBelow (present store.now).next (closure_term right) }
    ensures rule { IfOk result (IsMoveOf (bindings_of store.now)
        (rule (meaning_in store.now left.entry) (meaning_in store.now right.entry))) }
    ensures fit { IfOk result (IsMoveFit (bindings_of store.now) (present store.now).next) }
{
    let p = swaps_of(alloc, store, x, left)?;
    let q = swaps_of(alloc, store, x, right)?;
    let names = differing(alloc, &p, &q)?;
    Ok(Move::Differ(names, x))
}

/// Of two different variables the one with the greater number is bound, whichever stands on the left.
fn bind_newer<'a>(
    alloc: Global,
    store: &Store<'a>,
    x: Var,
    older: Closure<'a>,
    y: Var,
    newer: Closure<'a>,
) -> Result<Move<'a>, Memory>
    requires numbers { x.num < y.num }
    requires older { IsHeadVar (bindings_of store.now) (meaning_in store.now older) (Some x) }
    requires newer { IsHeadVar (bindings_of store.now) (meaning_in store.now newer) (Some y) }
    requires older_below { IsBelow (present store.now).next (closure_term older) }
    requires newer_below { IsBelow (present store.now).next (closure_term newer) }
    ensures left { IfOk result (IsMoveOf (bindings_of store.now)
        (rule (meaning_in store.now older.entry) (meaning_in store.now newer.entry))) }
    ensures right { IfOk result (IsMoveOf (bindings_of store.now)
        (rule (meaning_in store.now newer.entry) (meaning_in store.now older.entry))) }
    ensures fit { IfOk result (IsMoveFit (bindings_of store.now) (present store.now).next) }
{
    let q = swaps_of(alloc, store, y, newer)?;
    bind_to(alloc, store, &q, y, older, false)
}

/// The rule for two closures that stand for suspensions.
pub(crate) fn suspensions<'a>(
    alloc: Global,
    store: &Store<'a>,
    x: Var,
    left: Closure<'a>,
    y: Var,
    right: Closure<'a>,
) -> Result<Move<'a>, Memory>
    requires left { IsHeadVar (bindings_of store.now) (meaning_in store.now left) (Some x) }
    requires right { IsHeadVar (bindings_of store.now) (meaning_in store.now right) (Some y) }
    requires left_below { IsBelow (present store.now).next (closure_term left) }
    requires right_below { IsBelow (present store.now).next (closure_term right) }
    ensures rule { IfOk result (IsMoveOf (bindings_of store.now)
        (rule (meaning_in store.now left.entry) (meaning_in store.now right.entry))) }
    ensures fit { IfOk result (IsMoveFit (bindings_of store.now) (present store.now).next) }
{
    if x.num == y.num {
        one_variable(alloc, store, x, left, right)
    } else if x.num < y.num {
        bind_newer(alloc, store, x, left, y, right)
    } else {
        bind_newer(alloc, store, y, right, x, left)
    }
}
