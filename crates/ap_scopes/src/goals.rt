//! Goals with numbers for their words.
ghost use Rattle.std.specs.Prelude.{◌≡◌, ◌<◌, IfOk, OnOk, IfSome};
ghost use Rattle.ap_defs.specs.RawTerms.{raw_of};
ghost use Rattle.ap_defs.specs.Goals.{goal_over};
ghost use Rattle.ap_defs.specs.Limits.{size_limit};
ghost use Rattle.ap_spines.specs.Spines.{raw_goal_within};
ghost use Rattle.ap_trees.specs.Goals.{Atom, Equation, Freshness, Some_variable, New_name};
ghost use Rattle.ap_trees.specs.Trees.{goal_of_tree, term_of, trees_of};
ghost use Rattle.ap_scopes.specs.Resolution as spec;
ghost use Rattle.ap_scopes.specs.Resolution.{made};
ghost use Rattle.ap_scopes.specs.Declarations.{predicate_place};
ghost use Rattle.ap_scopes.specs.Views.{IsIndexed, IsSmall, IsNumbered, declared_of, found_of, scope_of};

use crate::declarations::Declarations;
use crate::identifiers::{Brought, Identifiers};
use crate::terms::{resolved_term, resolved_terms};
use ap_defs::goals::Goal;
use ap_defs::memory::Memory;
use ap_defs::terms::{Name, Raw, Var};
use ap_spines::{GoalLayer, both_layer, close_goal, either_layer};
use ap_trees::{Binder, GoalTree, Tree};
use std::alloc::Global;

/// The number of the predicate at a place.
pub fn predicate_number(place: Option<usize>) -> u32
    requires { IfSome place (λ i. i < size_limit) }
    ensures { result ≡ spec.predicate_number place }
{
    match place {
        Some(place) => place as u32,
        None => 0,
    }
}

/// An atom with numbers for its words.
fn resolved_atom<'a>(
    alloc: Global,
    declared: &Declarations<'_>,
    scope: &Brought<'_, 'a>,
    word: &'a str,
    args: &[Tree<'a>],
    found: &mut Identifiers<'a>,
) -> Result<Goal<Raw>, Memory>
    requires indexed { IsIndexed declared.now }
    requires small { IsSmall declared.now }
    requires numbered { IsNumbered found.old }
    ensures value { IfOk result (λ g. (goal_over raw_of g, found_of found.new)
        ≡ spec.resolved_goal (declared_of declared.now) (scope_of scope.now)
        (Atom word.now (trees_of args.now)) (found_of found.old)) }
    ensures numbered { OnOk result (IsNumbered found.new) }
{
    let args = resolved_terms(alloc, declared, scope, args, found)?;
    let number = predicate_number(declared.predicate_place(word));
    Ok(Goal::Atom(number, args))
}

/// `t = u` with numbers for its words.
#[tactic(auto, using(crate::proofs::Orders::made_is, crate::proofs::Orders::in_order_is))]
fn resolved_equal<'a>(
    alloc: Global,
    declared: &Declarations<'_>,
    scope: &Brought<'_, 'a>,
    left: &Tree<'a>,
    right: &Tree<'a>,
    found: &mut Identifiers<'a>,
) -> Result<Goal<Raw>, Memory>
    requires indexed { IsIndexed declared.now }
    requires small { IsSmall declared.now }
    requires numbered { IsNumbered found.old }
    ensures value { IfOk result (λ g. (goal_over raw_of g, found_of found.new)
        ≡ spec.resolved_goal (declared_of declared.now) (scope_of scope.now) (Equation
        (term_of left.now) (term_of right.now)) (found_of found.old)) }
    ensures numbered { OnOk result (IsNumbered found.new) }
{
    let left = resolved_term(alloc, declared, scope, left, found)?;
    let right = resolved_term(alloc, declared, scope, right, found)?;
    Ok(Goal::Equal(left, right))
}

/// `t # u` with numbers for its words.
#[tactic(auto, using(crate::proofs::Orders::made_is, crate::proofs::Orders::in_order_is))]
fn resolved_fresh<'a>(
    alloc: Global,
    declared: &Declarations<'_>,
    scope: &Brought<'_, 'a>,
    left: &Tree<'a>,
    right: &Tree<'a>,
    found: &mut Identifiers<'a>,
) -> Result<Goal<Raw>, Memory>
    requires indexed { IsIndexed declared.now }
    requires small { IsSmall declared.now }
    requires numbered { IsNumbered found.old }
    ensures value { IfOk result (λ g. (goal_over raw_of g, found_of found.new)
        ≡ spec.resolved_goal (declared_of declared.now) (scope_of scope.now) (Freshness
        (term_of left.now) (term_of right.now)) (found_of found.old)) }
    ensures numbered { OnOk result (IsNumbered found.new) }
{
    let left = resolved_term(alloc, declared, scope, left, found)?;
    let right = resolved_term(alloc, declared, scope, right, found)?;
    Ok(Goal::Fresh(left, right))
}

/// A goal with numbers for its words. `Err` is want of memory.
///
/// It calls itself on what is left of `,` and `;`, and inside `exists` and `new`.
#[cycle(goals)]
pub fn resolved_goal<'a>(
    alloc: Global,
    declared: &Declarations<'_>,
    scope: &Brought<'_, 'a>,
    goal: &GoalTree<'a>,
    found: &mut Identifiers<'a>,
) -> Result<Goal<Raw>, Memory>
    requires indexed { IsIndexed declared.now }
    requires small { IsSmall declared.now }
    requires numbered { IsNumbered found.old }
    ensures value { IfOk result (λ g. (goal_over raw_of g, found_of found.new)
        ≡ spec.resolved_goal (declared_of declared.now) (scope_of scope.now) (goal_of_tree goal.now)
        (found_of found.old)) }
    ensures numbered { OnOk result (IsNumbered found.new) }
{
    let mut layers = Vec::new(alloc);
    let innermost = innermost_goal(alloc, declared, scope, goal, found, &mut layers)?;
    close_goal(alloc, layers, innermost)
}

/// What stands last in a goal, with numbers for its words: it goes along what is right of `,` and `;`,
/// and puts what stands round it behind the layers.
#[cycle(goals)]
fn innermost_goal<'a>(
    alloc: Global,
    declared: &Declarations<'_>,
    scope: &Brought<'_, 'a>,
    goal: &GoalTree<'a>,
    found: &mut Identifiers<'a>,
    layers: &mut Vec<GoalLayer>,
) -> Result<Goal<Raw>, Memory>
    requires indexed { IsIndexed declared.now }
    requires small { IsSmall declared.now }
    requires numbered { IsNumbered found.old }
    ensures value { IfOk result (λ g. (
      raw_goal_within layers.new.items (goal_over raw_of g),
      found_of found.new,
    ) ≡ made (raw_goal_within layers.old.items) (spec.resolved_goal
        (declared_of declared.now) (scope_of scope.now) (goal_of_tree goal.now)
        (found_of found.old))) }
    ensures numbered { OnOk result (IsNumbered found.new) }
{
    let mut rest = goal;
    loop {
        match rest {
            GoalTree::Atom(word, args) => {
                return resolved_atom(alloc, declared, scope, word, args.items(), found);
            }
            GoalTree::Equal(left, right) => {
                return resolved_equal(alloc, declared, scope, left, right, found);
            }
            GoalTree::Fresh(left, right) => {
                return resolved_fresh(alloc, declared, scope, left, right, found);
            }
            GoalTree::Both(left, right) => {
                let left = resolved_goal(alloc, declared, scope, left, found)?;
                layers.push(both_layer(alloc, left)?)?;
                rest = right;
            }
            GoalTree::Either(left, right) => {
                let left = resolved_goal(alloc, declared, scope, left, found)?;
                layers.push(either_layer(alloc, left)?)?;
                rest = right;
            }
            GoalTree::Exists(word, inner) => {
                return resolved_exists(alloc, declared, scope, word, inner, found);
            }
            GoalTree::New(word, inner) => {
                return resolved_new(alloc, declared, scope, word, inner, found);
            }
        }
    }
}

/// `exists X. ..` with numbers for its words.
#[cycle(goals)]
fn resolved_exists<'a>(
    alloc: Global,
    declared: &Declarations<'_>,
    scope: &Brought<'_, 'a>,
    word: &'a str,
    inner: &GoalTree<'a>,
    found: &mut Identifiers<'a>,
) -> Result<Goal<Raw>, Memory>
    requires indexed { IsIndexed declared.now }
    requires small { IsSmall declared.now }
    requires numbered { IsNumbered found.old }
    ensures value { IfOk result (λ g. (goal_over raw_of g, found_of found.new)
        ≡ spec.resolved_goal (declared_of declared.now) (scope_of scope.now)
        (Some_variable word.now (goal_of_tree inner.now)) (found_of found.old)) }
    ensures numbered { OnOk result (IsNumbered found.new) }
{
    let num = found.bring(Binder::Var(word))?;
    let around = Brought::Inner(Binder::Var(word), num, scope);
    let inner = resolved_goal(alloc, declared, &around, inner, found)?;
    Ok(Goal::Exists(Var { num }, Box::new(alloc, inner)?))
}

/// `new a. ..` with numbers for its words.
#[cycle(goals)]
fn resolved_new<'a>(
    alloc: Global,
    declared: &Declarations<'_>,
    scope: &Brought<'_, 'a>,
    word: &'a str,
    inner: &GoalTree<'a>,
    found: &mut Identifiers<'a>,
) -> Result<Goal<Raw>, Memory>
    requires indexed { IsIndexed declared.now }
    requires small { IsSmall declared.now }
    requires numbered { IsNumbered found.old }
    ensures value { IfOk result (λ g. (goal_over raw_of g, found_of found.new)
        ≡ spec.resolved_goal (declared_of declared.now) (scope_of scope.now)
        (New_name word.now (goal_of_tree inner.now)) (found_of found.old)) }
    ensures numbered { OnOk result (IsNumbered found.new) }
{
    let num = found.bring(Binder::Word(word))?;
    let around = Brought::Inner(Binder::Word(word), num, scope);
    let inner = resolved_goal(alloc, declared, &around, inner, found)?;
    Ok(Goal::New(Name { sort: 0, num }, Box::new(alloc, inner)?))
}
