// Reading a goal.
ghost use Rattle.std.specs.Prelude.{◌≡◌, ◌<◌, length, IfOk, Some};
ghost use Rattle.ap_trees.specs.Outcomes.{GivesPart};
ghost use Rattle.ap_trees.specs.Readers.{separated};
ghost use Rattle.ap_trees.specs.Symbols.{syms};
ghost use Rattle.ap_trees.specs.Trees.{goal_of_tree, goals_of};
ghost use Rattle.ap_syntax.specs.GoalReader as spec;
ghost use Rattle.ap_syntax.specs.GoalReader.{read_goal};
ghost use Rattle.ap_syntax.specs.Joins.{after_mark, read_joined, read_part};

use crate::flat::flat;
use crate::joining::{Join, after_mark, all_joined, begun};
use crate::marks::{after_exists, after_new, opened_ident, opened_variable};
use crate::matching::after_group;
use ap_trees::{GoalTree, ReadError, Symbol, after_close};
use std::alloc::Global;

/// A goal that begins the symbols, and what follows it.
pub fn goal<'a, 's>(
    alloc: Global,
    levels: usize,
    symbols: &'s [Symbol<'a>],
) -> Result<(GoalTree<'a>, &'s [Symbol<'a>]), ReadError>
    ensures value { GivesPart (λ r. (goal_of_tree r.0, syms r.1.now)) result (read_goal levels
        (syms symbols.now)) }
    ensures shorter { IfOk result (λ r. length r.1.now < length symbols.now) }
{
    any_goal(alloc, levels, symbols)
}

/// A goal that begins the symbols, unless it is too deep, and what follows it.
#[cycle(goals)]
#[tactic(auto, unfolding(crate::specs::GoalReader::read_goal))]
fn any_goal<'a, 's>(
    alloc: Global,
    levels: usize,
    symbols: &'s [Symbol<'a>],
) -> Result<(GoalTree<'a>, &'s [Symbol<'a>]), ReadError>
    ensures { GivesPart (λ r. (goal_of_tree r.0, syms r.1.now)) result (read_goal levels
        (syms symbols.now)) }
{
    if levels == 0 {
        return Err(ReadError::Grammar);
    }
    joined_goals(alloc, levels - 1, Join::Either, symbols)
}

/// One part or more, joined, and what follows.
#[cycle(goals)]
fn joined_goals<'a, 's>(
    alloc: Global,
    levels: usize,
    join: Join,
    symbols: &'s [Symbol<'a>],
) -> Result<(GoalTree<'a>, &'s [Symbol<'a>]), ReadError>
    ensures { GivesPart (λ r. (goal_of_tree r.0, syms r.1.now)) result (read_joined join
        (read_goal levels) (syms symbols.now)) }
{
    let (first, after) = part(alloc, levels, join, symbols)?;
    match after_mark(join, after) {
        Some(_) => longer_goal(alloc, levels, join, symbols, first, after),
        None => Ok((first, after)),
    }
}

/// A part of joined goals, and what follows it: a conjunction between semicolons, a simple goal between commas.
#[cycle(goals)]
fn part<'a, 's>(
    alloc: Global,
    levels: usize,
    join: Join,
    symbols: &'s [Symbol<'a>],
) -> Result<(GoalTree<'a>, &'s [Symbol<'a>]), ReadError>
    ensures { GivesPart (λ r. (goal_of_tree r.0, syms r.1.now)) result (read_part join
        (read_goal levels) (syms symbols.now)) }
{
    match join {
        Join::Both => simple(alloc, levels, symbols),
        Join::Either => joined_goals(alloc, levels, Join::Both, symbols),
    }
}

/// Two parts or more, joined, behind the first, and what follows.
#[cycle(goals)]
fn longer_goal<'a, 's>(
    alloc: Global,
    levels: usize,
    join: Join,
    symbols: &'s [Symbol<'a>],
    first: GoalTree<'a>,
    after: &'s [Symbol<'a>],
) -> Result<(GoalTree<'a>, &'s [Symbol<'a>]), ReadError>
    requires { read_part join (read_goal levels) (syms symbols.now)
        ≡ Some (goal_of_tree first, syms after.now) }
    ensures { GivesPart (λ r. (goal_of_tree r.0, syms r.1.now)) result (read_joined join
        (read_goal levels) (syms symbols.now)) }
{
    let (parts, rest) = further_parts(alloc, levels, join, symbols, first, after)?;
    let whole = all_joined(alloc, join, parts)?;
    Ok((whole, rest))
}

/// The parts that begin the symbols, with marks between, and what follows them, behind the first.
#[cycle(goals)]
fn further_parts<'a, 's>(
    alloc: Global,
    levels: usize,
    join: Join,
    symbols: &'s [Symbol<'a>],
    first: GoalTree<'a>,
    after: &'s [Symbol<'a>],
) -> Result<(Vec<GoalTree<'a>>, &'s [Symbol<'a>]), ReadError>
    requires { read_part join (read_goal levels) (syms symbols.now)
        ≡ Some (goal_of_tree first, syms after.now) }
    ensures { GivesPart (λ r. (goals_of r.0.items, syms r.1.now)) result (separated
        (after_mark join) (read_part join (read_goal levels)) (length symbols.now)
        (syms symbols.now)) }
{
    let (mut all, mut rest) = begun(alloc, first, after)?;
    while let Some(after) = after_mark(join, rest) {
        let (next, left) = part(alloc, levels, join, after)?;
        all.push(next)?;
        rest = left;
    }
    Ok((all, rest))
}

/// A simple goal that begins the symbols, and what follows it.
#[cycle(goals)]
fn simple<'a, 's>(
    alloc: Global,
    levels: usize,
    symbols: &'s [Symbol<'a>],
) -> Result<(GoalTree<'a>, &'s [Symbol<'a>]), ReadError>
    ensures { GivesPart (λ r. (goal_of_tree r.0, syms r.1.now)) result (spec.read_simple
        (read_goal levels) (syms symbols.now)) }
{
    match after_new(symbols) {
        Some(rest) => new_goal(alloc, levels, rest),
        None => match after_exists(symbols) {
            Some(rest) => exists_goal(alloc, levels, rest),
            None => match after_group(symbols) {
                Some(rest) => goal_inside(alloc, levels, rest),
                None => flat(alloc, symbols),
            },
        },
    }
}

/// A goal of a new name, behind `new`.
#[cycle(goals)]
#[tactic(auto, unfolding(crate::specs::GoalReader::new_goal))]
fn new_goal<'a, 's>(
    alloc: Global,
    levels: usize,
    symbols: &'s [Symbol<'a>],
) -> Result<(GoalTree<'a>, &'s [Symbol<'a>]), ReadError>
    ensures { GivesPart (λ r. (goal_of_tree r.0, syms r.1.now)) result (spec.new_goal
        (read_goal levels) (syms symbols.now)) }
{
    let Some((word, inside)) = opened_ident(symbols) else {
        return Err(ReadError::Grammar);
    };
    let (goal, rest) = goal_inside(alloc, levels, inside)?;
    Ok((GoalTree::New(word, Box::new(alloc, goal)?), rest))
}

/// A goal of some variable, behind `exists`.
#[cycle(goals)]
#[tactic(auto, unfolding(crate::specs::GoalReader::exists_goal))]
fn exists_goal<'a, 's>(
    alloc: Global,
    levels: usize,
    symbols: &'s [Symbol<'a>],
) -> Result<(GoalTree<'a>, &'s [Symbol<'a>]), ReadError>
    ensures { GivesPart (λ r. (goal_of_tree r.0, syms r.1.now)) result (spec.exists_goal
        (read_goal levels) (syms symbols.now)) }
{
    let Some((word, inside)) = opened_variable(symbols) else {
        return Err(ReadError::Grammar);
    };
    let (goal, rest) = goal_inside(alloc, levels, inside)?;
    Ok((GoalTree::Exists(word, Box::new(alloc, goal)?), rest))
}

/// A goal up to the `)` that closes it, and what follows that.
#[cycle(goals)]
#[tactic(auto, unfolding(crate::specs::GoalReader::goal_inside))]
fn goal_inside<'a, 's>(
    alloc: Global,
    levels: usize,
    symbols: &'s [Symbol<'a>],
) -> Result<(GoalTree<'a>, &'s [Symbol<'a>]), ReadError>
    ensures { GivesPart (λ r. (goal_of_tree r.0, syms r.1.now)) result (spec.goal_inside
        (read_goal levels) (syms symbols.now)) }
{
    let (goal, rest) = any_goal(alloc, levels, symbols)?;
    let rest = after_close(rest).ok_or(ReadError::Grammar)?;
    Ok((goal, rest))
}
