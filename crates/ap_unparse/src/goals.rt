//! The text of goals.

ghost use Rattle.std.specs.Prelude.{◌≡◌, [], ◌∷◌, ◌++◌, codes, OnOk};
ghost use Rattle.ap_trees.specs.Trees.{term_of, trees_of, goal_of_tree};
ghost use Rattle.ap_unparse.specs.Written.{bytes_of};
ghost use Rattle.ap_unparse.specs.WrittenTerms.{written_term};
ghost use Rattle.ap_unparse.specs.WrittenGoals.{written_goal_at, further_terms, arguments_of, both_opening, both_closing, either_opening, either_closing};

use crate::closing::write_closers;
use crate::context::Context;
use crate::side::Side;
use crate::terms::write_tree;
use ap_defs::memory::Memory;
use ap_trees::{GoalTree, Tree};
use std::alloc::Global;

/// Writes further terms, each behind a comma.
fn write_further(alloc: Global, out: &mut Vec<u8>, terms: &[Tree<'_>]) -> Result<(), Memory>
    ensures { OnOk result (out.new.items
        ≡ out.old.items ++ bytes_of (further_terms (trees_of terms.now))) }
{
    for t in terms {
        out.push(b',')?;
        write_tree(alloc, out, t, Context::Whole)?;
    }
    Ok(())
}

/// Writes arguments in parentheses, if there are any.
fn write_arguments(alloc: Global, out: &mut Vec<u8>, terms: &[Tree<'_>]) -> Result<(), Memory>
    ensures { OnOk result (out.new.items
        ≡ out.old.items ++ bytes_of (arguments_of (trees_of terms.now))) }
{
    let [first, others @ ..] = terms else {
        return Ok(());
    };
    out.push(b'(')?;
    write_tree(alloc, out, first, Context::Whole)?;
    write_further(alloc, out, others)?;
    out.push(b')')?;
    Ok(())
}

/// Writes two terms with a text between them.
fn write_relation(
    alloc: Global,
    out: &mut Vec<u8>,
    left: &Tree<'_>,
    sign: &[u8],
    right: &Tree<'_>,
) -> Result<(), Memory>
    ensures { OnOk result (out.new.items
        ≡ out.old.items
        ++ (bytes_of (written_term (term_of left.now))
        ++ (sign.now ++ bytes_of (written_term (term_of right.now))))) }
{
    write_tree(alloc, out, left, Context::Whole)?;
    out.extend_from_slice(sign)?;
    write_tree(alloc, out, right, Context::Whole)
}

/// Writes what stands before a goal joined by `,`, and keeps what will stand behind it.
fn begin_both(out: &mut Vec<u8>, closers: &mut Vec<u8>, side: Side) -> Result<(), Memory>
    ensures written { OnOk result (out.new.items ≡ out.old.items ++ both_opening side) }
    ensures kept { OnOk result (closers.new.items ≡ closers.old.items ++ both_closing side) }
{
    if let Side::OnLeft = side {
        out.push(b'(')?;
        closers.push(b')')?;
    }
    Ok(())
}

/// Writes what stands before a goal joined by `;`, and keeps what will stand behind it.
fn begin_either(out: &mut Vec<u8>, closers: &mut Vec<u8>, side: Side) -> Result<(), Memory>
    ensures written { OnOk result (out.new.items ≡ out.old.items ++ either_opening side) }
    ensures kept { OnOk result (closers.new.items ≡ closers.old.items ++ either_closing side) }
{
    if let Side::Alone = side {
        return Ok(());
    }
    out.push(b'(')?;
    closers.push(b')')?;
    Ok(())
}

/// Writes what stands before the goal inside `new` or `exists`.
fn begin_binder(out: &mut Vec<u8>, keyword: &[u8], word: &str) -> Result<(), Memory>
    ensures { OnOk result (out.new.items
        ≡ out.old.items ++ (keyword.now ++ (word.now ++ codes " ("))) }
{
    out.extend_from_slice(keyword)?;
    out.extend_from_slice(word.as_bytes())?;
    out.extend_from_slice(b" (")?;
    Ok(())
}

/// Writes a goal where it stands.
///
/// It goes on along the right part of `,` and of `;` and inside `new` and `exists`, and calls itself on
/// left parts alone.
pub fn write_goal(
    alloc: Global,
    out: &mut Vec<u8>,
    g: &GoalTree<'_>,
    mut side: Side,
) -> Result<(), Memory>
    ensures { OnOk result (out.new.items
        ≡ out.old.items ++ bytes_of (written_goal_at side (goal_of_tree g.now))) }
{
    let mut closers = Vec::new(alloc);
    let mut rest = g;
    loop {
        match rest {
            GoalTree::Atom(word, terms) => {
                out.extend_from_slice(word.as_bytes())?;
                write_arguments(alloc, out, terms.items())?;
                write_closers(out, closers)?;
                return Ok(());
            }
            GoalTree::Equal(left, right) => {
                write_relation(alloc, out, left, b" = ", right)?;
                write_closers(out, closers)?;
                return Ok(());
            }
            GoalTree::Fresh(left, right) => {
                write_relation(alloc, out, left, b" # ", right)?;
                write_closers(out, closers)?;
                return Ok(());
            }
            GoalTree::Both(left, right) => {
                begin_both(out, &mut closers, side)?;
                write_goal(alloc, out, left, Side::OnLeft)?;
                out.extend_from_slice(b", ")?;
                side = Side::BehindComma;
                rest = right;
            }
            GoalTree::Either(left, right) => {
                begin_either(out, &mut closers, side)?;
                write_goal(alloc, out, left, Side::OnLeft)?;
                out.extend_from_slice(b" ; ")?;
                side = Side::Alone;
                rest = right;
            }
            GoalTree::Exists(word, inner) => {
                begin_binder(out, b"exists ", word)?;
                closers.push(b')')?;
                side = Side::Alone;
                rest = inner;
            }
            GoalTree::New(word, inner) => {
                begin_binder(out, b"new ", word)?;
                closers.push(b')')?;
                side = Side::Alone;
                rest = inner;
            }
        }
    }
}
