// Goals without parts that are goals: atoms, equations and freshness goals.
ghost use Rattle.std.specs.Prelude.{◌≡◌, ◌<◌, ◌∷◌, length, IfOk, IfSome};
ghost use Rattle.ap_trees.specs.Goals as trees;
ghost use Rattle.ap_trees.specs.Outcomes.{GivesPart};
ghost use Rattle.ap_trees.specs.Symbols.{syms, Ident, Open};
ghost use Rattle.ap_trees.specs.Trees.{term_of, trees_of, goal_of_tree};
ghost use Rattle.ap_syntax.specs.GoalReader as spec;
ghost use Rattle.ap_syntax.specs.Marks as marks;

use crate::marks::{after_equal, after_fresh, ident};
use ap_defs::lists::List;
use ap_trees::{
    GoalTree, ReadError, Symbol, Tree, after_close, after_open, applied, term, term_list,
};
use std::alloc::Global;

/// The terms up to the `)` that closes them, and what follows it.
#[tactic(auto, unfolding(crate::specs::GoalReader::terms_inside))]
fn terms_inside<'a, 's>(
    alloc: Global,
    symbols: &'s [Symbol<'a>],
) -> Result<(Vec<Tree<'a>>, &'s [Symbol<'a>]), ReadError>
    ensures { GivesPart (λ r. (trees_of r.0.items, syms r.1.now)) result
        (spec.terms_inside (syms symbols.now)) }
{
    let (parts, rest) = term_list(alloc, symbols.len(), symbols)?;
    let rest = after_close(rest).ok_or(ReadError::Grammar)?;
    Ok((parts, rest))
}

/// The arguments of an atom, if it has any, and what follows them.
#[tactic(auto, unfolding(crate::specs::GoalReader::atom_arguments))]
fn atom_arguments<'a, 's>(
    alloc: Global,
    symbols: &'s [Symbol<'a>],
) -> Result<(Vec<Tree<'a>>, &'s [Symbol<'a>]), ReadError>
    ensures { GivesPart (λ r. (trees_of r.0.items, syms r.1.now)) result
        (spec.atom_arguments (syms symbols.now)) }
{
    match after_open(symbols) {
        Some(rest) => terms_inside(alloc, rest),
        None => Ok((Vec::new(alloc), symbols)),
    }
}

/// An atom: its word and its arguments.
pub struct Head<'a> {
    pub word: &'a str,
    pub args: Vec<Tree<'a>>,
}

/// An atom that begins the symbols, and what follows it.
#[tactic(auto, unfolding(crate::specs::GoalReader::read_atom))]
pub fn atom<'a, 's>(
    alloc: Global,
    symbols: &'s [Symbol<'a>],
) -> Result<(Head<'a>, &'s [Symbol<'a>]), ReadError>
    ensures value { GivesPart (λ r. ((r.0.word.now, trees_of r.0.args.items), syms r.1.now)) result
        (spec.read_atom (syms symbols.now)) }
    ensures shorter { IfOk result (λ r. length r.1.now < length symbols.now) }
{
    let Some((word, rest)) = ident(symbols) else {
        return Err(ReadError::Grammar);
    };
    let (args, rest) = atom_arguments(alloc, rest)?;
    Ok((Head { word, args }, rest))
}

/// An atom as a goal.
#[tactic(auto, unfolding(crate::specs::GoalReader::atom_goal))]
fn atom_goal<'a, 's>(
    alloc: Global,
    symbols: &'s [Symbol<'a>],
) -> Result<(GoalTree<'a>, &'s [Symbol<'a>]), ReadError>
    ensures { GivesPart (λ r. (goal_of_tree r.0, syms r.1.now)) result
        (spec.atom_goal (syms symbols.now)) }
{
    let (Head { word, args }, rest) = atom(alloc, symbols)?;
    Ok((GoalTree::Atom(word, List::of(args)), rest))
}

/// An equation, behind its `=`.
#[tactic(auto, unfolding(crate::specs::GoalReader::right_side))]
fn equation<'a, 's>(
    alloc: Global,
    left: Tree<'a>,
    symbols: &'s [Symbol<'a>],
) -> Result<(GoalTree<'a>, &'s [Symbol<'a>]), ReadError>
    ensures { GivesPart (λ r. (goal_of_tree r.0, syms r.1.now)) result (spec.right_side
        trees.Equation (term_of left.entry) (syms symbols.now)) }
{
    let (right, rest) = term(alloc, symbols.len(), symbols)?;
    Ok((GoalTree::Equal(left, right), rest))
}

/// A freshness goal, behind its `#`.
#[tactic(auto, unfolding(crate::specs::GoalReader::right_side))]
fn freshness<'a, 's>(
    alloc: Global,
    left: Tree<'a>,
    symbols: &'s [Symbol<'a>],
) -> Result<(GoalTree<'a>, &'s [Symbol<'a>]), ReadError>
    ensures { GivesPart (λ r. (goal_of_tree r.0, syms r.1.now)) result (spec.right_side
        trees.Freshness (term_of left.entry) (syms symbols.now)) }
{
    let (right, rest) = term(alloc, symbols.len(), symbols)?;
    Ok((GoalTree::Fresh(left, right), rest))
}

/// The terms up to the `)` that closes them, as deep as a term of which they are parts, and what follows it.
#[tactic(auto, unfolding(crate::specs::GoalReader::parts_inside))]
fn parts_inside<'a, 's>(
    alloc: Global,
    symbols: &'s [Symbol<'a>],
) -> Result<(Vec<Tree<'a>>, &'s [Symbol<'a>]), ReadError>
    ensures { GivesPart (λ r. (trees_of r.0.items, syms r.1.now)) result
        (spec.parts_inside (syms symbols.now)) }
{
    let (parts, rest) = term_list(alloc, symbols.len() + 1, symbols)?;
    let rest = after_close(rest).ok_or(ReadError::Grammar)?;
    Ok((parts, rest))
}

/// The goal of a word with these terms, behind its `)`: they are an atom's arguments, unless a mark follows.
fn goal_with<'a, 's>(
    alloc: Global,
    word: &'a str,
    parts: Vec<Tree<'a>>,
    symbols: &'s [Symbol<'a>],
) -> Result<(GoalTree<'a>, &'s [Symbol<'a>]), ReadError>
    ensures { GivesPart (λ r. (goal_of_tree r.0, syms r.1.now)) result
        (spec.applied_by word.entry.now (trees_of parts.entry.items) (syms symbols.now)
        (marks.after_equal (syms symbols.now)) (marks.after_fresh (syms symbols.now))) }
{
    match after_equal(symbols) {
        Some(rest) => {
            let left = applied(alloc, word, parts)?;
            equation(alloc, left, rest)
        }
        None => match after_fresh(symbols) {
            Some(rest) => {
                let left = applied(alloc, word, parts)?;
                freshness(alloc, left, rest)
            }
            None => Ok((GoalTree::Atom(word, List::of(parts)), symbols)),
        },
    }
}

/// An equation, a freshness goal or an atom that begins with a word and `(`, behind these.
#[tactic(auto, unfolding(crate::specs::GoalReader::applied_goal))]
fn applied_goal<'a, 's>(
    alloc: Global,
    word: &'a str,
    symbols: &'s [Symbol<'a>],
) -> Result<(GoalTree<'a>, &'s [Symbol<'a>]), ReadError>
    ensures { GivesPart (λ r. (goal_of_tree r.0, syms r.1.now)) result
        (spec.applied_goal word.entry.now (syms symbols.now)) }
{
    let (parts, rest) = parts_inside(alloc, symbols)?;
    goal_with(alloc, word, parts, rest)
}

/// An equation, a freshness goal or an atom that begins with a term.
#[tactic(auto, unfolding(crate::specs::GoalReader::read_flat))]
fn term_goal<'a, 's>(
    alloc: Global,
    symbols: &'s [Symbol<'a>],
) -> Result<(GoalTree<'a>, &'s [Symbol<'a>]), ReadError>
    ensures { GivesPart (λ r. (goal_of_tree r.0, syms r.1.now)) result
        (spec.read_flat (syms symbols.now)) }
{
    let (left, rest) = term(alloc, symbols.len(), symbols)?;
    match after_equal(rest) {
        Some(rest) => equation(alloc, left, rest),
        None => match after_fresh(rest) {
            Some(rest) => freshness(alloc, left, rest),
            None => atom_goal(alloc, symbols),
        },
    }
}

/// The word that is applied by what begins the symbols, and what follows its `(`.
fn applied_word<'a, 's>(symbols: &'s [Symbol<'a>]) -> Option<(&'a str, &'s [Symbol<'a>])>
    ensures { IfSome result (λ r. syms symbols.now ≡ Ident r.0.now ∷ Open ∷ syms r.1.now) }
{
    match symbols {
        [Symbol::Ident(word), Symbol::Open, inside @ ..] => Some((word, inside)),
        _ => None,
    }
}

/// An equation, a freshness goal or an atom.
pub fn flat<'a, 's>(
    alloc: Global,
    symbols: &'s [Symbol<'a>],
) -> Result<(GoalTree<'a>, &'s [Symbol<'a>]), ReadError>
    ensures { GivesPart (λ r. (goal_of_tree r.0, syms r.1.now)) result
        (spec.read_flat (syms symbols.now)) }
{
    match applied_word(symbols) {
        Some((word, inside)) => applied_goal(alloc, word, inside),
        None => term_goal(alloc, symbols),
    }
}
