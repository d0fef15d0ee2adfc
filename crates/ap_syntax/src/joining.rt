// Goals that are joined by commas or semicolons.
ghost use Rattle.std.specs.Prelude.{◌≡◌, ◌<◌, [], ◌∷◌, length, vec_len, IfOk, IfSome};
ghost use Rattle.std.specs.Option.{option_map};
ghost use Rattle.ap_trees.specs.Outcomes.{GivesPart};
ghost use Rattle.ap_trees.specs.Symbols.{syms};
ghost use Rattle.ap_trees.specs.Trees.{goal_of_tree, goals_of};
ghost use Rattle.ap_syntax.specs.GoalReader.{joined_by};
ghost use Rattle.ap_syntax.specs.Joins as spec;

use crate::marks::after_semicolon;
use ap_trees::{GoalTree, ReadError, Symbol, after_comma};
use std::alloc::{AllocError, Global};

/// How goals are joined.
#[derive(Clone, Copy)]
pub enum Join {
    /// By commas: each of them has to hold.
    Both,
    /// By semicolons: one of them has to hold.
    Either,
}

/// The symbols after the mark that joins goals, if it comes first.
pub fn after_mark<'a, 's>(join: Join, symbols: &'s [Symbol<'a>]) -> Option<&'s [Symbol<'a>]>
    ensures value { option_map (λ r. syms r.now) result ≡ spec.after_mark join (syms symbols.now) }
    ensures shorter { IfSome result (λ r. length r.now < length symbols.now) }
{
    match join {
        Join::Both => after_comma(symbols),
        Join::Either => after_semicolon(symbols),
    }
}

/// Two goals joined.
fn joined<'a>(
    alloc: Global,
    join: Join,
    left: GoalTree<'a>,
    right: GoalTree<'a>,
) -> Result<GoalTree<'a>, AllocError>
    ensures { IfOk result (λ g. goal_of_tree g
        ≡ spec.joining join (goal_of_tree left.entry) (goal_of_tree right.entry)) }
{
    let left = Box::new(alloc, left)?;
    let right = Box::new(alloc, right)?;
    match join {
        Join::Both => Ok(GoalTree::Both(left, right)),
        Join::Either => Ok(GoalTree::Either(left, right)),
    }
}

/// One goal or more joined.
pub fn all_joined<'a>(
    alloc: Global,
    join: Join,
    mut parts: Vec<GoalTree<'a>>,
) -> Result<GoalTree<'a>, ReadError>
    ensures { GivesPart goal_of_tree result (joined_by (spec.joining join)
        (goals_of parts.entry.items)) }
{
    let Some(mut whole) = parts.pop() else {
        return Err(ReadError::Grammar);
    };
    while let Some(part) = parts.pop() {
        whole = joined(alloc, join, part, whole)?;
    }
    Ok(whole)
}

/// A goal alone as a list, and what follows it.
pub fn begun<'a, 's>(
    alloc: Global,
    first: GoalTree<'a>,
    after: &'s [Symbol<'a>],
) -> Result<(Vec<GoalTree<'a>>, &'s [Symbol<'a>]), AllocError>
    ensures first { IfOk result (λ r. r.0.items ≡ first.entry ∷ []) }
    ensures one { IfOk result (λ r. vec_len r.0 ≡ 1) }
    ensures behind { IfOk result (λ r. r.1.now ≡ after.now) }
{
    let mut all = Vec::new(alloc);
    all.push(first)?;
    Ok((all, after))
}
