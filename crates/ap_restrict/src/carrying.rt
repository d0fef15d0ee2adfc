//! Swappings, carried out.

ghost use Rattle.std.specs.Prelude.{◌≡◌, [], ◌∷◌, ◌++◌, map, IfOk};
ghost use Rattle.ap_defs.specs.Permutations.{swap_of};
ghost use Rattle.ap_defs.specs.RawTerms.{raw_of, pair, swapped};
ghost use Rattle.ap_defs.specs.Terms as nominal;
ghost use Rattle.ap_defs.specs.Terms.{term_of, act_term};
ghost use Rattle.ap_defs.specs.Goals.{goal_of, goal_over};
ghost use Rattle.ap_program.specs.CarryingOut.{carried_out, map_goal};
ghost use Rattle.ap_restrict.specs.Ways.{lent_terms, carried_round, carried_within};

use ap_defs::goals::Goal;
use ap_defs::lists::{List, Swaps};
use ap_defs::memory::Memory;
use ap_defs::spines::{GoalLayer, close_goal};
use ap_defs::terms::{Id, Name, Raw, Swap, SwapPlaces, Term, Under, Var};
use ap_perm::swappings::image;
use std::alloc::Global;

/// Swappings, and one more behind them.
fn with_swap(alloc: Global, swaps: &Swaps, a: Name, b: Name) -> Result<Swaps, Memory>
    ensures { IfOk result (λ s. s ≡ swaps.now ++ swap_of a b ∷ []) }
{
    let mut all = swaps.items().to_vec(alloc)?;
    all.push(Swap {
        sort: a.sort,
        left: a.num,
        right: b.num,
    })?;
    Swaps::of(alloc, all)
}

/// Whether what is last in a term goes on in the same way. It spares work alone.
fn goes_on(t: &Raw) -> bool {
    match t {
        Raw::Unit | Raw::Name(_) | Raw::Var(_) => false,
        Raw::App(f, _) => *f == 1,
        Raw::Pair(_, _) | Raw::Under(_) => true,
    }
}

/// Whether a list goes on behind a cell, by the argument of the cell. It spares work alone.
fn has_more(argument: &Raw) -> bool {
    match argument {
        Raw::Pair(_, rest) => goes_on(rest),
        _ => true,
    }
}

/// A term with its swappings carried out, under further ones.
///
/// It calls itself on arguments of constructors, left parts of pairs and inside swappings alone, but for what
/// ends a pair or an abstraction at once.
#[cycle(carrying)]
fn carry_under(alloc: Global, swaps: &Swaps, t: &Raw) -> Result<Term, Memory>
    ensures { IfOk result (λ u. term_of u ≡ act_term swaps.now (carried_out (raw_of t.now))) }
{
    match t {
        Raw::Unit => Ok(Term::Unit),
        Raw::Name(a) => Ok(Term::Name(image(swaps.items(), *a))),
        Raw::Var(x) => waiting(swaps, *x),
        Raw::App(f, argument) => {
            if *f == 1 && has_more(argument) {
                return carry_spine(alloc, swaps, t);
            }
            let argument = carry_under(alloc, swaps, argument)?;
            Ok(Term::App(*f, Box::new(alloc, argument)?))
        }
        Raw::Pair(left, right) => {
            if goes_on(right) {
                return carry_spine(alloc, swaps, t);
            }
            carry_two(alloc, swaps, left, right)
        }
        Raw::Under(under) => match &**under {
            Under::Abs(Id::Name(a), body) => {
                if goes_on(body) {
                    return carry_spine(alloc, swaps, t);
                }
                let body = carry_under(alloc, swaps, body)?;
                abstraction(alloc, image(swaps.items(), *a), body)
            }
            _ => carry_spine(alloc, swaps, t),
        },
    }
}

/// A pair of terms.
fn term_pair(alloc: Global, left: Term, right: Term) -> Result<Term, Memory>
    ensures { IfOk result (λ t. term_of t ≡ nominal.pair (term_of left) (term_of right)) }
{
    let left = Box::new(alloc, left)?;
    Ok(Term::Pair(left, Box::new(alloc, right)?))
}

/// An abstraction.
fn abstraction(alloc: Global, a: Name, body: Term) -> Result<Term, Memory>
    ensures { IfOk result (λ t. term_of t ≡ nominal.abs a (term_of body)) }
{
    Ok(Term::Abs(a.sort, a.num, Box::new(alloc, body)?))
}

/// A variable on which swappings wait. They are shared.
fn waiting(swaps: &Swaps, x: Var) -> Result<Term, Memory>
    ensures { IfOk result (λ t. term_of t ≡ nominal.susp swaps.now x) }
{
    Ok(Term::Susp(swaps.share()?, x))
}

/// A pair of terms with their swappings carried out, under further ones.
#[cycle(carrying)]
fn carry_two(alloc: Global, swaps: &Swaps, left: &Raw, right: &Raw) -> Result<Term, Memory>
    ensures { IfOk result (λ u. term_of u
        ≡ act_term swaps.now (carried_out (pair (raw_of left.now) (raw_of right.now)))) }
{
    let left = carry_under(alloc, swaps, left)?;
    let right = carry_under(alloc, swaps, right)?;
    term_pair(alloc, left, right)
}

/// What is swapped, with its swappings carried out, under the swapping and further ones.
#[cycle(carrying)]
#[tactic(auto, using(crate::proofs::CarryingLemmas::act_within))]
fn carry_swapped(
    alloc: Global,
    swaps: &Swaps,
    places: &SwapPlaces,
    body: &Raw,
) -> Result<Term, Memory>
    ensures { IfOk result (λ u. term_of u ≡ act_term swaps.now (carried_out
        (swapped places.now.left places.now.right (raw_of body.now)))) }
{
    match (places.left, places.right) {
        (Id::Name(a), Id::Name(b)) => {
            let inner = with_swap(alloc, swaps, a, b)?;
            carry_under(alloc, &inner, body)
        }
        _ => carry_under(alloc, swaps, body),
    }
}

/// A part of a term with its swappings carried out, under further ones, where what is last in it is made.
#[cycle(carrying)]
fn carry_round(alloc: Global, swaps: &Swaps, part: &Raw, last: Term) -> Result<Term, Memory>
    ensures { IfOk result (λ u. term_of u
        ≡ carried_round swaps.now (raw_of part.now) (term_of last)) }
{
    match part {
        Raw::Pair(left, _) => {
            let left = carry_under(alloc, swaps, left)?;
            term_pair(alloc, left, last)
        }
        Raw::App(f, _) => Ok(Term::App(*f, Box::new(alloc, last)?)),
        Raw::Under(under) => match &**under {
            Under::Abs(Id::Name(a), _) => abstraction(alloc, image(swaps.items(), *a), last),
            _ => Ok(last),
        },
        Raw::Unit | Raw::Name(_) | Raw::Var(_) => Ok(last),
    }
}

/// The same for parts of which each is last in the one before.
#[cycle(carrying)]
fn carry_within(
    alloc: Global,
    swaps: &Swaps,
    mut parts: Vec<&Raw>,
    last: Term,
) -> Result<Term, Memory>
    ensures { IfOk result (λ u. term_of u
        ≡ carried_within swaps.now (lent_terms parts.entry.items) (term_of last)) }
{
    let mut made = last;
    while let Some(part) = parts.pop() {
        made = carry_round(alloc, swaps, part, made)?;
    }
    Ok(made)
}

/// A term that goes on to the right, with its swappings carried out, under further ones.
///
/// It goes on along the right part of a pair, the argument of a constructor and the body of an abstraction.
/// The way is kept, and what stands on it is made on the way back.
#[cycle(carrying)]
fn carry_spine(alloc: Global, swaps: &Swaps, t: &Raw) -> Result<Term, Memory>
    ensures { IfOk result (λ u. term_of u ≡ act_term swaps.now (carried_out (raw_of t.now))) }
{
    let mut way = Vec::new(alloc);
    let mut rest = t;
    loop {
        match rest {
            Raw::Unit => return carry_within(alloc, swaps, way, Term::Unit),
            Raw::Name(a) => {
                return carry_within(alloc, swaps, way, Term::Name(image(swaps.items(), *a)));
            }
            Raw::Var(x) => {
                let last = waiting(swaps, *x)?;
                return carry_within(alloc, swaps, way, last);
            }
            Raw::Pair(_, last) => {
                way.push(rest)?;
                rest = last;
            }
            Raw::App(_, last) => {
                way.push(rest)?;
                rest = last;
            }
            Raw::Under(under) => match &**under {
                Under::Abs(_, last) => {
                    way.push(rest)?;
                    rest = last;
                }
                Under::Swapped(places, body) => {
                    let end = carry_swapped(alloc, swaps, places, body)?;
                    return carry_within(alloc, swaps, way, end);
                }
            },
        }
    }
}

/// A term with its swappings carried out, under none. A variable that stands where a name belongs is left out.
#[tactic(auto, using(ap_theory::proofs::TermLemmas::act_term_none))]
pub(crate) fn carry_term(alloc: Global, none: &Swaps, t: &Raw) -> Result<Term, Memory>
    requires { none.now ≡ [] }
    ensures { IfOk result (λ u. term_of u ≡ carried_out (raw_of t.now)) }
{
    carry_under(alloc, none, t)
}

/// Terms with their swappings carried out, under none.
fn terms_carried(alloc: Global, none: &Swaps, ts: &[Raw]) -> Result<List<Term>, Memory>
    requires { none.now ≡ [] }
    ensures { IfOk result (λ us. map term_of us ≡ map carried_out (map raw_of ts.now)) }
{
    let mut carried = Vec::with_capacity(alloc, ts.len())?;
    for t in ts {
        carried.push(carry_term(alloc, none, t)?)?;
    }
    Ok(List::of(carried))
}

/// Terms with their swappings carried out. All suspensions on which none wait share these.
pub fn carry_terms(alloc: Global, ts: &[Raw]) -> Result<List<Term>, Memory>
    ensures { IfOk result (λ us. map term_of us ≡ map carried_out (map raw_of ts.now)) }
{
    let none = Swaps::none(alloc)?;
    terms_carried(alloc, &none, ts)
}

/// A goal with the swappings of its terms carried out, under none.
///
/// It goes on along what is right of `,` and `;` and inside `exists` and `new`, and calls itself on what
/// is left of them alone.
#[tactic(auto, using(ap_defs::proofs::SpineLemmas::goal_within_last))]
pub(crate) fn goal_carried(alloc: Global, none: &Swaps, g: &Goal<Raw>) -> Result<Goal<Term>, Memory>
    requires { none.now ≡ [] }
    ensures { IfOk result (λ h. goal_of h ≡ map_goal carried_out (goal_over raw_of g.now)) }
{
    let mut layers = Vec::new(alloc);
    let mut rest = g;
    loop {
        match rest {
            Goal::True => return close_goal(alloc, layers, Goal::True),
            Goal::Atom(p, args) => {
                let atom = Goal::Atom(*p, terms_carried(alloc, none, args.items())?);
                return close_goal(alloc, layers, atom);
            }
            Goal::Equal(t, u) => {
                let equal = Goal::Equal(carry_term(alloc, none, t)?, carry_term(alloc, none, u)?);
                return close_goal(alloc, layers, equal);
            }
            Goal::Fresh(t, u) => {
                let fresh = Goal::Fresh(carry_term(alloc, none, t)?, carry_term(alloc, none, u)?);
                return close_goal(alloc, layers, fresh);
            }
            Goal::Both(left, right) => {
                layers.push(GoalLayer::Both(goal_carried(alloc, none, left)?))?;
                rest = right;
            }
            Goal::Either(left, right) => {
                layers.push(GoalLayer::Either(goal_carried(alloc, none, left)?))?;
                rest = right;
            }
            Goal::Exists(x, goal) => {
                layers.push(GoalLayer::Exists(*x))?;
                rest = goal;
            }
            Goal::New(a, goal) => {
                layers.push(GoalLayer::New(*a))?;
                rest = goal;
            }
        }
    }
}

/// A goal with the swappings of its terms carried out. All suspensions on which none wait share these.
pub fn carry_goal(alloc: Global, g: &Goal<Raw>) -> Result<Goal<Term>, Memory>
    ensures { IfOk result (λ h. goal_of h ≡ map_goal carried_out (goal_over raw_of g.now)) }
{
    let none = Swaps::none(alloc)?;
    goal_carried(alloc, &none, g)
}
