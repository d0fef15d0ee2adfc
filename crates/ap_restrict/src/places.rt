//! Variables that stand where names belong.
//!
//! Each walk goes on along what is last in a term or a goal, and calls itself on what is left of it.

ghost use Rattle.std.specs.Prelude.{◌≡◌, ◌++◌, map};
ghost use Rattle.ap_defs.specs.RawTerms.{raw_of};
ghost use Rattle.ap_defs.specs.Goals.{goal_over};
ghost use Rattle.ap_program.specs.NameRestriction.{variable_of, variable_binders, variable_places, terms_of_goal, in_each};
ghost use Rattle.ap_restrict.specs.Places.{first_var, misplaced, variables_at};

use ap_defs::goals::Goal;
use ap_defs::terms::{Id, Raw, Under, Var};

/// A place where a name belongs: the binder of an abstraction, one of the two of a swapping, or any of these.
#[derive(Clone, Copy)]
pub enum NamePlace {
    Binder,
    Swap,
    Any,
}

/// The first variable of two words.
fn first_variable(left: Id, right: Id) -> Option<Var>
    ensures { result ≡ first_var (variable_of left ++ variable_of right) }
{
    match left {
        Id::Var(x) => Some(x),
        Id::Name(_) => match right {
            Id::Var(y) => Some(y),
            Id::Name(_) => None,
        },
    }
}

/// The first variable that is a binder in a term, in the order of the text.
#[tactic(auto, using(crate::proofs::PlaceLemmas::first_append))]
fn first_binder(t: &Raw) -> Option<Var>
    ensures { result ≡ first_var (variable_binders (raw_of t.now)) }
{
    let mut rest = t;
    loop {
        match rest {
            Raw::Unit | Raw::Name(_) | Raw::Var(_) => return None,
            Raw::Pair(left, right) => {
                if let Some(x) = first_binder(left) {
                    return Some(x);
                }
                rest = right;
            }
            Raw::App(_, argument) => rest = argument,
            Raw::Under(under) => match &**under {
                Under::Abs(Id::Var(x), _) => return Some(*x),
                Under::Abs(Id::Name(_), body) => rest = body,
                Under::Swapped(_, body) => rest = body,
            },
        }
    }
}

/// The first variable that is in a place of a swapping in a term, in the order of the text.
#[tactic(auto, using(crate::proofs::PlaceLemmas::first_append))]
fn first_place(t: &Raw) -> Option<Var>
    ensures { result ≡ first_var (variable_places (raw_of t.now)) }
{
    let mut rest = t;
    loop {
        match rest {
            Raw::Unit | Raw::Name(_) | Raw::Var(_) => return None,
            Raw::Pair(left, right) => {
                if let Some(x) = first_place(left) {
                    return Some(x);
                }
                rest = right;
            }
            Raw::App(_, argument) => rest = argument,
            Raw::Under(under) => match &**under {
                Under::Abs(_, body) => rest = body,
                Under::Swapped(places, body) => {
                    if let Some(x) = first_variable(places.left, places.right) {
                        return Some(x);
                    }
                    rest = body;
                }
            },
        }
    }
}

/// The first variable that stands where a name belongs in a term, in the order of the text.
#[tactic(auto, using(crate::proofs::PlaceLemmas::first_append))]
fn first_misplaced(t: &Raw) -> Option<Var>
    ensures { result ≡ first_var (misplaced (raw_of t.now)) }
{
    let mut rest = t;
    loop {
        match rest {
            Raw::Unit | Raw::Name(_) | Raw::Var(_) => return None,
            Raw::Pair(left, right) => {
                if let Some(x) = first_misplaced(left) {
                    return Some(x);
                }
                rest = right;
            }
            Raw::App(_, argument) => rest = argument,
            Raw::Under(under) => match &**under {
                Under::Abs(Id::Var(x), _) => return Some(*x),
                Under::Abs(Id::Name(_), body) => rest = body,
                Under::Swapped(places, body) => {
                    if let Some(x) = first_variable(places.left, places.right) {
                        return Some(x);
                    }
                    rest = body;
                }
            },
        }
    }
}

/// The first variable at such a place of a term, in the order of the text.
fn first_in_term(place: NamePlace, t: &Raw) -> Option<Var>
    ensures { result ≡ first_var (variables_at place (raw_of t.now)) }
{
    match place {
        NamePlace::Binder => first_binder(t),
        NamePlace::Swap => first_place(t),
        NamePlace::Any => first_misplaced(t),
    }
}

/// The first variable at such a place of some terms.
#[tactic(auto, using(crate::proofs::PlaceLemmas::first_append))]
pub fn first_in_terms(place: NamePlace, ts: &[Raw]) -> Option<Var>
    ensures { result ≡ first_var (in_each (variables_at place) (map raw_of ts.now)) }
{
    for t in ts {
        if let Some(x) = first_in_term(place, t) {
            return Some(x);
        }
    }
    None
}

/// The first variable at such a place of two terms.
#[tactic(auto, using(crate::proofs::PlaceLemmas::first_append))]
fn first_in_two(place: NamePlace, t: &Raw, u: &Raw) -> Option<Var>
    ensures { result
        ≡ first_var (variables_at place (raw_of t.now) ++ variables_at place (raw_of u.now)) }
{
    match first_in_term(place, t) {
        Some(x) => Some(x),
        None => first_in_term(place, u),
    }
}

/// The first variable at such a place of a goal.
#[tactic(auto, using(crate::proofs::PlaceLemmas::first_append, crate::proofs::PlaceLemmas::in_each_append, crate::proofs::PlaceLemmas::append_none))]
pub fn first_in_goal(place: NamePlace, g: &Goal<Raw>) -> Option<Var>
    ensures { result
        ≡ first_var (in_each (variables_at place) (terms_of_goal (goal_over raw_of g.now))) }
{
    let mut rest = g;
    loop {
        match rest {
            Goal::True => return None,
            Goal::Atom(_, args) => return first_in_terms(place, args.items()),
            Goal::Equal(t, u) | Goal::Fresh(t, u) => return first_in_two(place, t, u),
            Goal::Both(left, right) => {
                if let Some(x) = first_in_goal(place, left) {
                    return Some(x);
                }
                rest = right;
            }
            Goal::Either(left, right) => {
                if let Some(x) = first_in_goal(place, left) {
                    return Some(x);
                }
                rest = right;
            }
            Goal::Exists(_, goal) => rest = goal,
            Goal::New(_, goal) => rest = goal,
        }
    }
}
