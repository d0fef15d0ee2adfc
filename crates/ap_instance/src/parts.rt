//! The hypothesis and the conclusion of a query.

ghost use Rattle.std.specs.Prelude.{◌≡◌, false, IfOk, MatchOption, map};
ghost use Rattle.ap_defs.specs.Goals as goals;
ghost use Rattle.ap_defs.specs.Goals.{goal_of, query_of};
ghost use Rattle.ap_defs.specs.Terms.{term_of};
ghost use Rattle.ap_defs.specs.Types.{local_of, locals_of};
ghost use Rattle.ap_property.specs.Properties as property;

use ap_defs::copies::{copy_kind, copy_term};
use ap_defs::goals::{Goal, Local, Query};
use ap_defs::lists::List;
use ap_defs::memory::Memory;
use ap_defs::spines::{GoalLayer, close_goal};
use ap_defs::terms::Term;
use std::alloc::Global;

/// An atom with copies of its arguments.
fn copy_atom(alloc: Global, pred: u32, args: &[Term]) -> Result<Goal<Term>, Memory>
    ensures { IfOk result (λ h. goal_of h ≡ goals.atom pred (map term_of args.now)) }
{
    let mut copied = Vec::new(alloc);
    for term in args {
        copied.push(copy_term(alloc, term)?)?;
    }
    Ok(Goal::Atom(pred, List::of(copied)))
}

/// An equation of copies.
fn copy_equal(alloc: Global, left: &Term, right: &Term) -> Result<Goal<Term>, Memory>
    ensures { IfOk result (λ h. goal_of h ≡ goals.equal (term_of left.now) (term_of right.now)) }
{
    let left = copy_term(alloc, left)?;
    let right = copy_term(alloc, right)?;
    Ok(Goal::Equal(left, right))
}

/// A freshness goal of copies.
fn copy_fresh(alloc: Global, left: &Term, right: &Term) -> Result<Goal<Term>, Memory>
    ensures { IfOk result (λ h. goal_of h ≡ goals.fresh (term_of left.now) (term_of right.now)) }
{
    let left = copy_term(alloc, left)?;
    let right = copy_term(alloc, right)?;
    Ok(Goal::Fresh(left, right))
}

/// A copy of a goal. It goes on along the right, and calls itself on left parts alone.
#[tactic(auto, using(ap_defs::proofs::SpineLemmas::goal_within_last))]
fn copy_goal(alloc: Global, goal: &Goal<Term>) -> Result<Goal<Term>, Memory>
    ensures { IfOk result (λ h. goal_of h ≡ goal_of goal.now) }
{
    let mut layers = Vec::new(alloc);
    let mut rest = goal;
    loop {
        match rest {
            Goal::True => return close_goal(alloc, layers, Goal::True),
            Goal::Atom(pred, args) => {
                let atom = copy_atom(alloc, *pred, args.items())?;
                return close_goal(alloc, layers, atom);
            }
            Goal::Equal(left, right) => {
                let equal = copy_equal(alloc, left, right)?;
                return close_goal(alloc, layers, equal);
            }
            Goal::Fresh(left, right) => {
                let fresh = copy_fresh(alloc, left, right)?;
                return close_goal(alloc, layers, fresh);
            }
            Goal::Both(left, right) => {
                layers.push(GoalLayer::Both(copy_goal(alloc, left)?))?;
                rest = right;
            }
            Goal::Either(left, right) => {
                layers.push(GoalLayer::Either(copy_goal(alloc, left)?))?;
                rest = right;
            }
            Goal::Exists(x, body) => {
                layers.push(GoalLayer::Exists(*x))?;
                rest = body;
            }
            Goal::New(a, body) => {
                layers.push(GoalLayer::New(*a))?;
                rest = body;
            }
        }
    }
}

/// The two parts of a conjunction.
fn conjuncts(goal: &Goal<Term>) -> Option<(&Goal<Term>, &Goal<Term>)>
    ensures { MatchOption result (property.is_property (goal_of goal.now) ≡ false)
        (λ p. goal_of goal.now ≡ goals.both (goal_of p.0.now) (goal_of p.1.now)) }
{
    match goal {
        Goal::Both(left, right) => Some((left, right)),
        Goal::True => None,
        Goal::Atom(_, _) => None,
        Goal::Equal(_, _) => None,
        Goal::Fresh(_, _) => None,
        Goal::Either(_, _) => None,
        Goal::Exists(_, _) => None,
        Goal::New(_, _) => None,
    }
}

/// Whether a query is a property: its goal is a conjunction.
pub fn is_property(query: &Query<Term>) -> bool
    ensures { result ≡ property.is_property (query_of query.now).goal }
{
    conjuncts(&query.goal).is_some()
}

/// A copy of the conclusion of a goal.
pub(crate) fn conclusion_of(alloc: Global, goal: &Goal<Term>) -> Result<Goal<Term>, Memory>
    ensures { IfOk result (λ h. goal_of h ≡ property.conclusion (goal_of goal.now)) }
{
    let mut rest = goal;
    'walking: while let Some((_left, right)) = conjuncts(rest) {
        rest = right;
    }
    copy_goal(alloc, rest)
}

/// The hypothesis of the conjunction of two goals.
fn before_conclusion(
    alloc: Global,
    first: &Goal<Term>,
    others: &Goal<Term>,
) -> Result<Goal<Term>, Memory>
    ensures { IfOk result (λ h. goal_of h
        ≡ property.before_conclusion (goal_of first.now) (goal_of others.now)) }
{
    let mut layers = Vec::new(alloc);
    let mut last = first;
    let mut rest = others;
    'walking: while let Some((left, right)) = conjuncts(rest) {
        layers.push(GoalLayer::Both(copy_goal(alloc, last)?))?;
        last = left;
        rest = right;
    }
    let copied = copy_goal(alloc, last)?;
    close_goal(alloc, layers, copied)
}

/// A copy of an identifier.
fn copy_local(alloc: Global, local: &Local) -> Result<Local, Memory>
    ensures { IfOk result (λ l. local_of l ≡ local_of local.now) }
{
    let kind = copy_kind(&local.kind)?;
    let text = local.text.share()?;
    Ok(Local {
        kind,
        bound: local.bound,
        text,
    })
}

/// Copies of identifiers.
pub(crate) fn copy_locals(alloc: Global, locals: &[Local]) -> Result<Vec<Local>, Memory>
    ensures { IfOk result (λ v. locals_of v.items ≡ locals_of locals.now) }
{
    let mut copied = Vec::new(alloc);
    for local in locals {
        copied.push(copy_local(alloc, local)?)?;
    }
    Ok(copied)
}

/// The hypothesis of a goal.
fn hypothesis_goal(alloc: Global, goal: &Goal<Term>) -> Result<Goal<Term>, Memory>
    ensures { IfOk result (λ h. goal_of h ≡ property.hypothesis (goal_of goal.now)) }
{
    match conjuncts(goal) {
        Some((first, others)) => before_conclusion(alloc, first, others),
        None => copy_goal(alloc, goal),
    }
}

/// The query of a property's hypothesis, with the same identifiers.
pub fn hypothesis_of(alloc: Global, query: &Query<Term>) -> Result<Query<Term>, Memory>
    ensures { IfOk result (λ q. query_of q ≡ property.hypothesis_query (query_of query.now)) }
{
    let goal = hypothesis_goal(alloc, &query.goal)?;
    let locals = copy_locals(alloc, query.locals.items())?;
    Ok(Query {
        item: query.item,
        line: query.line,
        goal,
        locals: List::of(locals),
    })
}

/// A copy of a query.
pub fn copy_query(alloc: Global, query: &Query<Term>) -> Result<Query<Term>, Memory>
    ensures { IfOk result (λ q. query_of q ≡ query_of query.now) }
{
    let goal = copy_goal(alloc, &query.goal)?;
    let locals = copy_locals(alloc, query.locals.items())?;
    Ok(Query {
        item: query.item,
        line: query.line,
        goal,
        locals: List::of(locals),
    })
}
