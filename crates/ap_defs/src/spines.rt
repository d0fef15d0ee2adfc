//! Terms, types and goals that are made from the outside in.
//!
//! One can be as deep to the right as its text is long. Who makes it keeps what stands round the part
//! that is still to be made as a list of layers, of which the first is outermost, and then closes them.

ghost use Rattle.std.specs.Prelude.{◌≡◌, IfOk};
ghost use Rattle.ap_defs.specs.Terms.{term_of};
ghost use Rattle.ap_defs.specs.Types.{type_of};
ghost use Rattle.ap_defs.specs.Goals.{goal_of};
ghost use Rattle.ap_defs.specs.Spines.{term_in, term_within, type_in, type_within, goal_in, goal_within};

use crate::goals::Goal;
use crate::memory::Memory;
use crate::terms::{Name, Term, Ty, Var};
use std::alloc::Global;
use std::sync::Arc;

/// What stands round a part of a term: the part is right of a term in a pair, the argument of a
/// constructor, or the body of an abstraction.
#[derive(Drop)]
pub enum TermLayer {
    Left(Term),
    App(u32),
    Abs(Name),
}

/// What stands round a part of a type: the part is right of a type in a pair, the elements of a list, or
/// the body of an abstraction.
#[derive(Drop)]
pub enum TypeLayer {
    Left(Ty),
    List,
    Abs(u32),
}

/// What stands round a part of a goal: the part is right of a goal and `,` or `;`, or the body of
/// `exists` or `new`.
#[derive(Drop)]
pub enum GoalLayer {
    Both(Goal<Term>),
    Either(Goal<Term>),
    Exists(Var),
    New(Name),
}

/// A term in a layer.
pub(crate) fn term_in(alloc: Global, layer: TermLayer, t: Term) -> Result<Term, Memory>
    ensures { IfOk result (λ u. term_of u ≡ term_in layer (term_of t)) }
{
    match layer {
        TermLayer::Left(left) => {
            let left = Box::new(alloc, left)?;
            Ok(Term::Pair(left, Box::new(alloc, t)?))
        }
        TermLayer::App(f) => Ok(Term::App(f, Box::new(alloc, t)?)),
        TermLayer::Abs(a) => Ok(Term::Abs(a.sort, a.num, Box::new(alloc, t)?)),
    }
}

/// A term within layers.
#[tactic(auto, using(crate::proofs::SpineLemmas::term_within_last))]
pub fn close_term(alloc: Global, mut layers: Vec<TermLayer>, t: Term) -> Result<Term, Memory>
    ensures { IfOk result (λ u. term_of u ≡ term_within layers.items (term_of t)) }
{
    let mut made = t;
    while let Some(layer) = layers.pop() {
        made = term_in(alloc, layer, made)?;
    }
    Ok(made)
}

/// A type in a layer.
fn type_in(alloc: Global, layer: TypeLayer, t: Ty) -> Result<Ty, Memory>
    ensures { IfOk result (λ u. type_of u ≡ type_in layer (type_of t)) }
{
    match layer {
        TypeLayer::Left(left) => {
            let left = Arc::new(alloc, left)?;
            Ok(Ty::Pair(left, Arc::new(alloc, t)?))
        }
        TypeLayer::List => Ok(Ty::List(Arc::new(alloc, t)?)),
        TypeLayer::Abs(sort) => Ok(Ty::Abs(sort, Arc::new(alloc, t)?)),
    }
}

/// A type within layers.
#[tactic(auto, using(crate::proofs::SpineLemmas::type_within_last))]
pub fn close_type(alloc: Global, mut layers: Vec<TypeLayer>, t: Ty) -> Result<Ty, Memory>
    ensures { IfOk result (λ u. type_of u ≡ type_within layers.items (type_of t)) }
{
    let mut made = t;
    while let Some(layer) = layers.pop() {
        made = type_in(alloc, layer, made)?;
    }
    Ok(made)
}

/// A goal in a layer.
fn goal_in(alloc: Global, layer: GoalLayer, g: Goal<Term>) -> Result<Goal<Term>, Memory>
    ensures { IfOk result (λ h. goal_of h ≡ goal_in layer (goal_of g)) }
{
    match layer {
        GoalLayer::Both(left) => {
            let left = Box::new(alloc, left)?;
            Ok(Goal::Both(left, Box::new(alloc, g)?))
        }
        GoalLayer::Either(left) => {
            let left = Box::new(alloc, left)?;
            Ok(Goal::Either(left, Box::new(alloc, g)?))
        }
        GoalLayer::Exists(x) => Ok(Goal::Exists(x, Box::new(alloc, g)?)),
        GoalLayer::New(a) => Ok(Goal::New(a, Box::new(alloc, g)?)),
    }
}

/// A goal within layers.
#[tactic(auto, using(crate::proofs::SpineLemmas::goal_within_last))]
pub fn close_goal(
    alloc: Global,
    mut layers: Vec<GoalLayer>,
    g: Goal<Term>,
) -> Result<Goal<Term>, Memory>
    ensures { IfOk result (λ h. goal_of h ≡ goal_within layers.items (goal_of g)) }
{
    let mut made = g;
    while let Some(layer) = layers.pop() {
        made = goal_in(alloc, layer, made)?;
    }
    Ok(made)
}
