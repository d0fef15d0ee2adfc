//! Swappings, carried out in goals that are let go meanwhile.

ghost use Rattle.std.specs.Prelude.{◌≡◌, [], IfOk};
ghost use Rattle.ap_defs.specs.Goals.{equal, goal_of, goal_over};
ghost use Rattle.ap_defs.specs.RawTerms.{raw_of};
ghost use Rattle.ap_program.specs.CarryingOut.{carried_out, map_goal};
ghost use Rattle.ap_restrict.specs.OwnedGoals.{in_front, taken_goal_of, within_fronts};

use crate::carrying::goal_carried;
use crate::owned::carry_owned;
use ap_defs::goals::Goal;
use ap_defs::lists::Swaps;
use ap_defs::memory::Memory;
use ap_defs::terms::{Raw, Term};
use std::alloc::Global;
use std::mem;

/// What stands left of the goal that comes next. There are as many as a conjunction is long, so one is small.
#[derive(Drop)]
enum Front {
    Both(Box<Goal<Term>>),
    Either(Box<Goal<Term>>),
}

/// A goal, taken apart: two goals, an equation, or one that stays whole.
#[derive(Drop)]
enum TakenGoal {
    Both(Goal<Raw>, Goal<Raw>),
    Either(Goal<Raw>, Goal<Raw>),
    Equal(Raw, Raw),
    Whole(Goal<Raw>),
}

/// A goal, taken apart.
fn taken_goal(g: Goal<Raw>) -> TakenGoal
    ensures { taken_goal_of result ≡ goal_over raw_of g }
{
    let mut whole = g;
    match &mut whole {
        Goal::Both(left, right) => {
            let left = mem::replace(&mut **left, Goal::True);
            let right = mem::replace(&mut **right, Goal::True);
            return TakenGoal::Both(left, right);
        }
        Goal::Either(left, right) => {
            let left = mem::replace(&mut **left, Goal::True);
            let right = mem::replace(&mut **right, Goal::True);
            return TakenGoal::Either(left, right);
        }
        Goal::Equal(left, right) => {
            let left = mem::replace(left, Raw::Unit);
            let right = mem::replace(right, Raw::Unit);
            return TakenGoal::Equal(left, right);
        }
        _ => {}
    }
    TakenGoal::Whole(whole)
}

/// A goal that is let go, with the swappings of its terms carried out, under none, in a box.
fn carried_front(alloc: Global, none: &Swaps, g: Goal<Raw>) -> Result<Box<Goal<Term>>, Memory>
    requires { none.now ≡ [] }
    ensures { IfOk result (λ h. goal_of h.value ≡ map_goal carried_out (goal_over raw_of g)) }
{
    let made = goal_carried(alloc, none, &g)?;
    drop(g);
    Ok(Box::new(alloc, made)?)
}

/// An equation of terms that are let go, with their swappings carried out, under none.
fn carried_sides(alloc: Global, none: &Swaps, left: Raw, right: Raw) -> Result<Goal<Term>, Memory>
    requires { none.now ≡ [] }
    ensures { IfOk result (λ h. goal_of h
        ≡ map_goal carried_out (equal (raw_of left) (raw_of right))) }
{
    let left = carry_owned(alloc, none, left)?;
    let right = carry_owned(alloc, none, right)?;
    Ok(Goal::Equal(left, right))
}

/// A goal with what stands left of it.
fn made_behind(alloc: Global, front: Front, g: Goal<Term>) -> Result<Goal<Term>, Memory>
    ensures { IfOk result (λ h. goal_of h ≡ in_front front (goal_of g)) }
{
    match front {
        Front::Both(left) => Ok(Goal::Both(left, Box::new(alloc, g)?)),
        Front::Either(left) => Ok(Goal::Either(left, Box::new(alloc, g)?)),
    }
}

/// A goal with all that stands left of it, of which the first is outermost.
#[tactic(auto, using(crate::proofs::OwnedLemmas::front_last))]
fn made_behind_all(
    alloc: Global,
    mut fronts: Vec<Front>,
    g: Goal<Term>,
) -> Result<Goal<Term>, Memory>
    ensures { IfOk result (λ h. goal_of h ≡ within_fronts fronts.items (goal_of g)) }
{
    let mut made = g;
    while let Some(front) = fronts.pop() {
        made = made_behind(alloc, front, made)?;
    }
    Ok(made)
}

/// A goal that is let go, with the swappings of its terms carried out, under none.
///
/// It goes on along what is right of `,` and `;`. What stands left of that is made on the way.
#[tactic(auto, using(crate::proofs::OwnedLemmas::front_last))]
fn carry_owned_goal(alloc: Global, none: &Swaps, g: Goal<Raw>) -> Result<Goal<Term>, Memory>
    requires { none.now ≡ [] }
    ensures { IfOk result (λ h. goal_of h ≡ map_goal carried_out (goal_over raw_of g)) }
{
    let mut fronts = Vec::new(alloc);
    let mut rest = g;
    loop {
        match taken_goal(rest) {
            TakenGoal::Both(left, right) => {
                fronts.push(Front::Both(carried_front(alloc, none, left)?))?;
                rest = right;
            }
            TakenGoal::Either(left, right) => {
                fronts.push(Front::Either(carried_front(alloc, none, left)?))?;
                rest = right;
            }
            TakenGoal::Equal(left, right) => {
                let last = carried_sides(alloc, none, left, right)?;
                return made_behind_all(alloc, fronts, last);
            }
            TakenGoal::Whole(goal) => {
                let last = goal_carried(alloc, none, &goal)?;
                return made_behind_all(alloc, fronts, last);
            }
        }
    }
}

/// A goal that is let go, with the swappings of its terms carried out. All suspensions on which none wait share
/// these.
pub(crate) fn carry_own_goal(alloc: Global, g: Goal<Raw>) -> Result<Goal<Term>, Memory>
    ensures { IfOk result (λ h. goal_of h ≡ map_goal carried_out (goal_over raw_of g)) }
{
    let none = Swaps::none(alloc)?;
    carry_owned_goal(alloc, &none, g)
}
