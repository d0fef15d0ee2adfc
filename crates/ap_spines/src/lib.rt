//! Terms and goals as they are read, made from the outside in.
//!
//! One can be as deep to the right as its text is long. Who makes it keeps what stands round the part
//! that is still to be made as a list of layers, of which the first is outermost, and then closes them.
#![tactic(auto)]

mod turning;

ghost use Rattle.std.specs.Prelude.{◌≡◌, IfOk};
ghost use Rattle.ap_defs.specs.RawTerms.{RawTerm, raw_of, pair, abs, swapped};
ghost use Rattle.ap_defs.specs.Goals.{GoalOver, both, either, goal_over};
ghost use Rattle.ap_spines.specs.Spines.{raw_in, raw_within, raw_goal_in, raw_goal_within};

use ap_defs::goals::Goal;
use ap_defs::memory::Memory;
use ap_defs::terms::{Id, Name, Raw, SwapPlaces, Under, Var};
use std::alloc::Global;
pub use turning::{above_tail, go_up, turn_back};

/// What stands round a part of a term: the part is right of a term in a pair, the tail of a list cell, the
/// argument of a constructor, the body of an abstraction, or what is swapped.
#[derive(Drop)]
pub enum RawLayer {
    Left(Raw),
    Cell(Raw),
    App(u32),
    Abs(Id),
    Swapped(Box<SwapPlaces>),
}

/// What stands round a part of a goal: the part is right of a goal and `,` or `;`, or the body of
/// `exists` or `new`. There are as many as a conjunction is long, so one is small.
#[derive(Drop)]
pub enum GoalLayer {
    Both(Box<Goal<Raw>>),
    Either(Box<Goal<Raw>>),
    Exists(Var),
    New(Name),
}

/// A pair of terms.
pub fn raw_pair(alloc: Global, left: Raw, right: Raw) -> Result<Raw, Memory>
    ensures { IfOk result (λ t. raw_of t ≡ pair (raw_of left) (raw_of right)) }
{
    let left = Box::new(alloc, left)?;
    Ok(Raw::Pair(left, Box::new(alloc, right)?))
}

/// An abstraction.
pub fn raw_abs(alloc: Global, binder: Id, body: Raw) -> Result<Raw, Memory>
    ensures { IfOk result (λ t. raw_of t ≡ abs binder (raw_of body)) }
{
    Ok(Raw::Under(Box::new(alloc, Under::Abs(binder, body))?))
}

/// A swapping as a layer.
pub fn swapping_layer(alloc: Global, left: Id, right: Id) -> Result<RawLayer, Memory>
    ensures { IfOk result (λ l. (t : RawTerm) → raw_in l t ≡ swapped left right t) }
{
    Ok(RawLayer::Swapped(Box::new(alloc, SwapPlaces { left, right })?))
}

/// A term in a layer.
fn raw_in(alloc: Global, layer: RawLayer, t: Raw) -> Result<Raw, Memory>
    ensures { IfOk result (λ u. raw_of u ≡ raw_in layer (raw_of t)) }
{
    match layer {
        RawLayer::Left(left) => raw_pair(alloc, left, t),
        RawLayer::Cell(head) => {
            let parts = raw_pair(alloc, head, t)?;
            Ok(Raw::App(1, Box::new(alloc, parts)?))
        }
        RawLayer::App(f) => Ok(Raw::App(f, Box::new(alloc, t)?)),
        RawLayer::Abs(binder) => raw_abs(alloc, binder, t),
        RawLayer::Swapped(places) => Ok(Raw::Under(Box::new(alloc, Under::Swapped(places, t))?)),
    }
}

/// A term within layers. `Err` is want of memory.
#[tactic(auto, using(crate::proofs::SpineLemmas::raw_within_last))]
pub fn close_raw(alloc: Global, mut layers: Vec<RawLayer>, t: Raw) -> Result<Raw, Memory>
    ensures { IfOk result (λ u. raw_of u ≡ raw_within layers.items (raw_of t)) }
{
    let mut made = t;
    while let Some(layer) = layers.pop() {
        made = raw_in(alloc, layer, made)?;
    }
    Ok(made)
}

/// A goal that stands left of `,`, as a layer.
pub fn both_layer(alloc: Global, left: Goal<Raw>) -> Result<GoalLayer, Memory>
    ensures { IfOk result (λ l. (g : GoalOver RawTerm) →
        raw_goal_in l g ≡ both (goal_over raw_of left) g) }
{
    Ok(GoalLayer::Both(Box::new(alloc, left)?))
}

/// A goal that stands left of `;`, as a layer.
pub fn either_layer(alloc: Global, left: Goal<Raw>) -> Result<GoalLayer, Memory>
    ensures { IfOk result (λ l. (g : GoalOver RawTerm) →
        raw_goal_in l g ≡ either (goal_over raw_of left) g) }
{
    Ok(GoalLayer::Either(Box::new(alloc, left)?))
}

/// A goal in a layer.
fn goal_in(alloc: Global, layer: GoalLayer, g: Goal<Raw>) -> Result<Goal<Raw>, Memory>
    ensures { IfOk result (λ h. goal_over raw_of h ≡ raw_goal_in layer (goal_over raw_of g)) }
{
    match layer {
        GoalLayer::Both(left) => Ok(Goal::Both(left, Box::new(alloc, g)?)),
        GoalLayer::Either(left) => Ok(Goal::Either(left, Box::new(alloc, g)?)),
        GoalLayer::Exists(x) => Ok(Goal::Exists(x, Box::new(alloc, g)?)),
        GoalLayer::New(a) => Ok(Goal::New(a, Box::new(alloc, g)?)),
    }
}

/// A goal within layers. `Err` is want of memory.
#[tactic(auto, using(crate::proofs::SpineLemmas::goal_within_last))]
pub fn close_goal(
    alloc: Global,
    mut layers: Vec<GoalLayer>,
    g: Goal<Raw>,
) -> Result<Goal<Raw>, Memory>
    ensures { IfOk result (λ h. goal_over raw_of h
        ≡ raw_goal_within layers.items (goal_over raw_of g)) }
{
    let mut made = g;
    while let Some(layer) = layers.pop() {
        made = goal_in(alloc, layer, made)?;
    }
    Ok(made)
}
