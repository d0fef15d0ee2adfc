//! Whether a place of a table stands within itself.

ghost use Rattle.std.specs.Prelude.{◌≡◌, ℕ, ◌<◌, ◌≤◌, ◌+◌, ◌++◌, ◌∷◌, [], slice_set, length, true, false, MatchOption, IfOk, OnOk, IfErr};
ghost use Rattle.ap_types.specs.Triangular.{shapes_of_nodes, AreFormed, IsSettledTable};
ghost use Rattle.ap_types.specs.Walking.{IsPart, walk_mark_at, is_left, is_unvisited, IsWalk, AreInOrder, PassesAlong, HasLeft, NoneFits};

use crate::errors::TypesError;
use crate::nodes::Node;
use ap_defs::memory::Memory;
use std::alloc::Global;

/// Whether a walk has not come to a place, has entered it, or has left it.
#[derive(Clone, Copy)]
pub(crate) enum Mark {
    New,
    Entered,
    Left,
}

/// The marks of places, those that were left in the order in which they were, and the path to the place where
/// the walk is, each place a part of the one before.
#[derive(Drop)]
struct Walk {
    marks: Vec<Mark>,
    order: Vec<u32>,
    path: Vec<usize>,
}

/// Whether a place was left.
fn is_left(marks: &[Mark], x: usize) -> bool
    ensures { result ≡ is_left (walk_mark_at marks.now x) }
{
    x < marks.len() && matches!(marks[x], Mark::Left)
}

/// Whether a place is new.
fn is_new(marks: &[Mark], x: usize) -> bool
    ensures { result ≡ is_unvisited (walk_mark_at marks.now x) }
{
    x >= marks.len() || matches!(marks[x], Mark::New)
}

/// A part of a place that was not left.
fn waiting_part(nodes: &[Node], marks: &[Mark], x: usize) -> Option<usize>
    requires { x < length nodes.now }
    ensures { MatchOption result ((c : ℕ) → IsPart (shapes_of_nodes nodes.now) x c →
        is_left (walk_mark_at marks.now c) ≡ true) (λ c. IsPart (shapes_of_nodes nodes.now) x c
        × (is_left (walk_mark_at marks.now c) ≡ false)) }
{
    match nodes[x] {
        Node::Place(y) => {
            if y == x || is_left(marks, y) {
                None
            } else {
                Some(y)
            }
        }
        Node::Unit | Node::Names(_) | Node::Base(_) => None,
        Node::List(y) => { if is_left(marks, y) { None } else { Some(y) } }
        Node::Pair(y, z) | Node::Abs(y, z) => {
            if !is_left(marks, y) {
                Some(y)
            } else if !is_left(marks, z) {
                Some(z)
            } else {
                None
            }
        }
    }
}

/// Enters a place.
fn enter(walk: &mut Walk, x: usize) -> Result<(), Memory>
    requires { x < length walk.old.marks.items }
    ensures marks { OnOk result (walk.new.marks.items
        ≡ slice_set walk.old.marks.items x Mark.Entered) }
    ensures order { OnOk result (walk.new.order.items ≡ walk.old.order.items) }
    ensures path { OnOk result (walk.new.path.items ≡ walk.old.path.items ++ x ∷ []) }
{
    walk.marks[x] = Mark::Entered;
    walk.path.push(x)?;
    Ok(())
}

/// Leaves a place. A place whose number is above the greatest `u32` counts as want of memory.
fn leave(walk: &mut Walk, x: usize) -> Result<(), Memory>
    requires { x < length walk.old.marks.items }
    ensures marks { OnOk result (walk.new.marks.items
        ≡ slice_set walk.old.marks.items x Mark.Left) }
    ensures order { OnOk result (walk.new.order.items ≡ walk.old.order.items ++ x ∷ []) }
    ensures path { OnOk result (walk.new.path.items ≡ walk.old.path.items) }
{
    let Ok(place) = u32::try_from(x) else {
        return Err(Memory);
    };
    walk.marks[x] = Mark::Left;
    walk.order.push(place)?;
    Ok(())
}

/// Goes back from the last place of a path where its parts were left, or else on to one of them; that
/// one stands on the path already where it was entered.
fn pass(nodes: &[Node], walk: &mut Walk, last: usize) -> Result<(), TypesError>
    requires formed { AreFormed (shapes_of_nodes nodes.now) }
    requires walk { IsWalk (shapes_of_nodes nodes.now) walk.old.marks.items walk.old.order.items
        (walk.old.path.items ++ last ∷ []) }
    ensures ok { OnOk result (PassesAlong (shapes_of_nodes nodes.now) walk.old.marks.items
        (walk.old.path.items ++ last ∷ []) walk.new.marks.items walk.new.order.items
        walk.new.path.items) }
    ensures clash { IfErr result (λ e. e ≡ TypesError.Clash →
        NoneFits (shapes_of_nodes nodes.now)) }
{
    let marks = walk.marks.as_slice();
    if is_left(marks, last) {
        return Ok(());
    }
    match waiting_part(nodes, marks, last) {
        None => leave(walk, last)?,
        Some(c) => {
            if !is_new(marks, c) {
                return Err(TypesError::Clash);
            }
            walk.path.push(last)?;
            enter(walk, c)?;
        }
    }
    Ok(())
}

/// Leaves a place and all that stands within it.
fn explore_parts(nodes: &[Node], walk: &mut Walk, start: usize) -> Result<(), TypesError>
    requires formed { AreFormed (shapes_of_nodes nodes.now) }
    requires within { start < length nodes.now }
    requires walk { IsWalk (shapes_of_nodes nodes.now) walk.old.marks.items walk.old.order.items
        [] }
    requires path { walk.old.path.items ≡ [] }
    ensures left { OnOk result (HasLeft (shapes_of_nodes nodes.now) walk.old.marks.items start
        walk.new.marks.items walk.new.order.items) }
    ensures path { OnOk result (walk.new.path.items ≡ []) }
    ensures clash { IfErr result (λ e. e ≡ TypesError.Clash →
        NoneFits (shapes_of_nodes nodes.now)) }
{
    walk.path.push(start)?;
    'steps: while let Some(last) = walk.path.pop() {
        pass(nodes, walk, last)?;
    }
    Ok(())
}

/// Leaves a place and all that stands within it. A place whose parts were left is left at once.
fn explore(nodes: &[Node], walk: &mut Walk, start: usize) -> Result<(), TypesError>
    requires formed { AreFormed (shapes_of_nodes nodes.now) }
    requires within { start < length nodes.now }
    requires walk { IsWalk (shapes_of_nodes nodes.now) walk.old.marks.items walk.old.order.items
        [] }
    requires path { walk.old.path.items ≡ [] }
    ensures left { OnOk result (HasLeft (shapes_of_nodes nodes.now) walk.old.marks.items start
        walk.new.marks.items walk.new.order.items) }
    ensures path { OnOk result (walk.new.path.items ≡ []) }
    ensures clash { IfErr result (λ e. e ≡ TypesError.Clash →
        NoneFits (shapes_of_nodes nodes.now)) }
{
    let marks = walk.marks.as_slice();
    if is_left(marks, start) {
        return Ok(());
    }
    match waiting_part(nodes, marks, start) {
        None => {
            leave(walk, start)?;
            Ok(())
        }
        Some(_) => explore_parts(nodes, walk, start),
    }
}

/// All places, each behind its parts. Refuses a table in which a place stands within itself.
pub(crate) fn in_order(alloc: Global, nodes: &[Node]) -> Result<Vec<u32>, TypesError>
    requires { AreFormed (shapes_of_nodes nodes.now) }
    ensures ok { IfOk result (λ v. IsSettledTable (shapes_of_nodes nodes.now)) }
    ensures order { IfOk result (λ v. AreInOrder (shapes_of_nodes nodes.now) v.items) }
    ensures clash { IfErr result (λ e. e ≡ TypesError.Clash →
        NoneFits (shapes_of_nodes nodes.now)) }
{
    let mut walk = Walk {
        marks: vec![in alloc; Mark::New; nodes.len()]?,
        order: Vec::with_capacity(alloc, nodes.len())?,
        path: Vec::new(alloc),
    };
    for x in 0..nodes.len() {
        explore(nodes, &mut walk, x)?;
    }
    let Walk { order, .. } = walk;
    Ok(order)
}
