//! Terms and goals with numbers for their words, whose trees are let go meanwhile, so that their memory is used again
//! at once.
ghost use Rattle.std.specs.Prelude.{◌≡◌, [], IfOk, OnOk, map};
ghost use Rattle.std.specs.Option.{option_map};
ghost use Rattle.ap_defs.specs.Goals.{goal_over};
ghost use Rattle.ap_defs.specs.RawTerms.{raw_of};
ghost use Rattle.ap_trees.specs.Goals.{Equation};
ghost use Rattle.ap_trees.specs.Trees.{goal_of_tree, term_of, trees_of};
ghost use Rattle.ap_scopes.specs.Resolution as spec;
ghost use Rattle.ap_scopes.specs.Views.{IsIndexed, IsSmall, IsNumbered, declared_of, found_of};

use crate::declarations::Declarations;
use crate::goals::resolved_goal;
use crate::identifiers::{Brought, Identifiers};
use crate::terms::resolved_term;
use ap_defs::goals::Goal;
use ap_defs::lists::List;
use ap_defs::memory::Memory;
use ap_defs::terms::Raw;
use ap_spines::{above_tail, both_layer, close_goal, either_layer, raw_pair, turn_back};
use ap_trees::{GoalTree, TakenGoal, TakenTree, Tree};
use std::alloc::Global;

/// A term with numbers for its words, whose tree is let go as a whole.
fn own_part<'a>(
    alloc: Global,
    declared: &Declarations<'_>,
    tree: Tree<'a>,
    found: &mut Identifiers<'a>,
) -> Result<Raw, Memory>
    requires indexed { IsIndexed declared.now }
    requires small { IsSmall declared.now }
    requires numbered { IsNumbered found.old }
    ensures value { IfOk result (λ t. (raw_of t, found_of found.new)
        ≡ spec.resolved_term (declared_of declared.now) []
        (term_of tree.entry) (found_of found.old)) }
    ensures numbered { OnOk result (IsNumbered found.new) }
{
    let made = resolved_term(alloc, declared, &Brought::Nothing, &tree, found)?;
    drop(tree);
    Ok(made)
}

/// A term with numbers for its words. `Err` is want of memory.
///
/// Its tree is let go part by part, along the tails of lists and the right parts of pairs, and the term takes the memory of
/// these parts at once: so its way down is turned round, and in the end back.
#[tactic(auto, using(crate::proofs::Orders::made_is))]
fn own_term<'a>(
    alloc: Global,
    declared: &Declarations<'_>,
    tree: Tree<'a>,
    found: &mut Identifiers<'a>,
) -> Result<Raw, Memory>
    requires indexed { IsIndexed declared.now }
    requires small { IsSmall declared.now }
    requires numbered { IsNumbered found.old }
    ensures value { IfOk result (λ t. (raw_of t, found_of found.new)
        ≡ spec.resolved_term (declared_of declared.now) []
        (term_of tree.entry) (found_of found.old)) }
    ensures numbered { OnOk result (IsNumbered found.new) }
{
    let mut above = Raw::Unit;
    let mut rest = tree;
    'resolving: loop {
        match rest.apart() {
            TakenTree::Cell(head, tail) => {
                let first = own_part(alloc, declared, head, found)?;
                above = above_tail(alloc, above, first)?;
                rest = tail;
            }
            TakenTree::Pair(left, right) => {
                let first = own_part(alloc, declared, left, found)?;
                above = raw_pair(alloc, first, above)?;
                rest = right;
            }
            TakenTree::Whole(last) => {
                let last = own_part(alloc, declared, last, found)?;
                return Ok(turn_back(above, last));
            }
        }
    }
}

/// Terms with numbers for their words, whose trees are let go. `Err` is want of memory.
pub fn own_terms<'a>(
    alloc: Global,
    declared: &Declarations<'_>,
    trees: List<Tree<'a>>,
    found: &mut Identifiers<'a>,
) -> Result<List<Raw>, Memory>
    requires indexed { IsIndexed declared.now }
    requires small { IsSmall declared.now }
    requires numbered { IsNumbered found.old }
    ensures value { IfOk result (λ ts. (map raw_of ts, found_of found.new)
        ≡ spec.resolved_terms (declared_of declared.now) []
        (trees_of trees.entry) (found_of found.old)) }
    ensures numbered { OnOk result (IsNumbered found.new) }
{
    let trees = trees.into_vec();
    let mut terms = Vec::with_capacity(alloc, trees.len())?;
    for tree in trees {
        terms.push(own_term(alloc, declared, tree, found)?)?;
    }
    Ok(List::of(terms))
}

/// A goal with numbers for its words, whose tree is let go as a whole.
fn own_front<'a>(
    alloc: Global,
    declared: &Declarations<'_>,
    goal: GoalTree<'a>,
    found: &mut Identifiers<'a>,
) -> Result<Goal<Raw>, Memory>
    requires indexed { IsIndexed declared.now }
    requires small { IsSmall declared.now }
    requires numbered { IsNumbered found.old }
    ensures value { IfOk result (λ g. (goal_over raw_of g, found_of found.new)
        ≡ spec.resolved_goal (declared_of declared.now) []
        (goal_of_tree goal.entry) (found_of found.old)) }
    ensures numbered { OnOk result (IsNumbered found.new) }
{
    let made = resolved_goal(alloc, declared, &Brought::Nothing, &goal, found)?;
    drop(goal);
    Ok(made)
}

/// `t = u` with numbers for its words, whose trees are let go.
#[tactic(auto, using(crate::proofs::Orders::made_is, crate::proofs::Orders::in_order_is))]
fn own_sides<'a>(
    alloc: Global,
    declared: &Declarations<'_>,
    left: Tree<'a>,
    right: Tree<'a>,
    found: &mut Identifiers<'a>,
) -> Result<Goal<Raw>, Memory>
    requires indexed { IsIndexed declared.now }
    requires small { IsSmall declared.now }
    requires numbered { IsNumbered found.old }
    ensures value { IfOk result (λ g. (goal_over raw_of g, found_of found.new)
        ≡ spec.resolved_goal (declared_of declared.now) []
        (Equation (term_of left.entry) (term_of right.entry)) (found_of found.old)) }
    ensures numbered { OnOk result (IsNumbered found.new) }
{
    let left = own_term(alloc, declared, left, found)?;
    let right = own_term(alloc, declared, right, found)?;
    Ok(Goal::Equal(left, right))
}

/// A goal with numbers for its words. `Err` is want of memory.
///
/// Its tree is let go part by part, along what stands right of `,` and `;`, and through the sides of an equation there.
#[tactic(auto, using(crate::proofs::Orders::made_is))]
pub fn own_goal<'a>(
    alloc: Global,
    declared: &Declarations<'_>,
    goal: GoalTree<'a>,
    found: &mut Identifiers<'a>,
) -> Result<Goal<Raw>, Memory>
    requires indexed { IsIndexed declared.now }
    requires small { IsSmall declared.now }
    requires numbered { IsNumbered found.old }
    ensures value { IfOk result (λ g. (goal_over raw_of g, found_of found.new)
        ≡ spec.resolved_goal (declared_of declared.now) []
        (goal_of_tree goal.entry) (found_of found.old)) }
    ensures numbered { OnOk result (IsNumbered found.new) }
{
    let mut layers = Vec::new(alloc);
    let mut rest = goal;
    'resolving: loop {
        match rest.apart() {
            TakenGoal::Both(left, right) => {
                let left = own_front(alloc, declared, left, found)?;
                layers.push(both_layer(alloc, left)?)?;
                rest = right;
            }
            TakenGoal::Either(left, right) => {
                let left = own_front(alloc, declared, left, found)?;
                layers.push(either_layer(alloc, left)?)?;
                rest = right;
            }
            TakenGoal::Equal(left, right) => {
                let last = own_sides(alloc, declared, left, right, found)?;
                return close_goal(alloc, layers, last);
            }
            TakenGoal::Whole(last) => {
                let last = own_front(alloc, declared, last, found)?;
                return close_goal(alloc, layers, last);
            }
        }
    }
}

/// The body of a clause, whose tree is let go; a fact has none.
pub fn own_body<'a>(
    alloc: Global,
    declared: &Declarations<'_>,
    body: Option<GoalTree<'a>>,
    found: &mut Identifiers<'a>,
) -> Result<Goal<Raw>, Memory>
    requires indexed { IsIndexed declared.now }
    requires small { IsSmall declared.now }
    requires numbered { IsNumbered found.old }
    ensures value { IfOk result (λ g. (goal_over raw_of g, found_of found.new)
        ≡ spec.resolved_body (declared_of declared.now) (option_map goal_of_tree body.entry)
        (found_of found.old)) }
    ensures numbered { OnOk result (IsNumbered found.new) }
{
    match body {
        None => Ok(Goal::True),
        Some(body) => own_goal(alloc, declared, body, found),
    }
}
