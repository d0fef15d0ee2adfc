//! Systems of type equations, as they grow.

ghost use Rattle.std.specs.Prelude.{◌≡◌, ℕ, ◌+◌, ◌++◌, ◌∷◌, [], length, IfOk, OnOk};
ghost use Rattle.ap_defs.specs.Types.{shape_of, hole, list, pair};
ghost use Rattle.ap_kinds.specs.Gathering.{near_for};
ghost use Rattle.ap_kinds.specs.Systems.{system_of, equate, with_name_hole, with_hole, system_refused, is_name_at, is_var_at, name_holes, started};

use crate::kinds::IdentKind;
use ap_defs::memory::Memory;
use ap_defs::terms::Shape;
use ap_types::growing::{near_base, open_table, put_entry, put_equation};
use ap_types::nodes::Node;
use std::alloc::Global;

/// For how many holes more than identifiers a system has room at first: most systems are small.
const MORE_HOLES: usize = 12;

/// What holes are so far, the equations that this does not say, the holes that must be name types, and the number of
/// the next hole.
#[derive(Drop)]
pub(crate) struct System {
    pub(crate) nodes: Vec<Node>,
    pub(crate) equations: Vec<(Shape, Shape)>,
    pub(crate) names: Vec<u64>,
    pub(crate) next: u64,
}

/// One more equation. It takes no room where it says what an open hole is.
pub(crate) fn equate(system: &mut System, left: Shape, right: Shape) -> Result<(), Memory>
    ensures { OnOk result (system_of system.new
        ≡ equate (shape_of left) (shape_of right) (system_of system.old)) }
{
    if put_equation(&mut system.nodes, &left, &right) {
        return Ok(());
    }
    system.equations.push((left, right))?;
    Ok(())
}

/// One more equation, of a shape and a pair of two holes.
pub(crate) fn equate_sides(
    alloc: Global,
    want: Shape,
    first: u64,
    second: u64,
    system: &mut System,
) -> Result<(), Memory>
    ensures { OnOk result (system_of system.new
        ≡ equate (shape_of want) (pair (hole first) (hole second)) (system_of system.old)) }
{
    let sides = Node::Pair(first as usize, second as usize);
    if put_entry(&mut system.nodes, &want, sides) {
        return Ok(());
    }
    let left = Box::new(alloc, Shape::Hole(first))?;
    let right = Box::new(alloc, Shape::Hole(second))?;
    equate(system, want, Shape::Pair(left, right))
}

/// One more equation, of a shape and a list of the type of a hole.
pub(crate) fn equate_list(
    alloc: Global,
    want: Shape,
    element: u64,
    system: &mut System,
) -> Result<(), Memory>
    ensures { OnOk result (system_of system.new
        ≡ equate (shape_of want) (list (hole element)) (system_of system.old)) }
{
    if put_entry(&mut system.nodes, &want, Node::List(element as usize)) {
        return Ok(());
    }
    let other = Shape::List(Box::new(alloc, Shape::Hole(element))?);
    equate(system, want, other)
}

/// One more hole that must be a name type.
pub(crate) fn add_name(system: &mut System, x: u64) -> Result<(), Memory>
    ensures { OnOk result (system_of system.new ≡ with_name_hole x (system_of system.old)) }
{
    system.names.push(x)?;
    Ok(())
}

/// One more hole, by its number. No table has a place for the greatest number, which counts as want of
/// memory.
#[tactic(auto, using(ap_types::proofs::GrowLemmas::hole_pushed))]
pub(crate) fn new_hole(system: &mut System) -> Result<u64, Memory>
    ensures hole { IfOk result (λ x. x ≡ system.old.next) }
    ensures next { OnOk result (system.new.next ≡ system.old.next + 1) }
    ensures more { OnOk result (system_of system.new ≡ with_hole (system_of system.old)) }
{
    let hole = system.next;
    if hole == u64::MAX {
        return Err(Memory);
    }
    let place = system.nodes.len();
    system.nodes.push(Node::Place(place))?;
    system.next = hole + 1;
    Ok(hole)
}

/// A hole of which it is said already that it is of a data type, if one is given.
pub(crate) fn near_hole(system: &System, base: Option<u32>) -> Option<u64>
    ensures { result ≡ near_for (system_of system.now).table base }
{
    match base {
        None => None,
        Some(base) => match near_base(system.nodes.as_slice(), base) {
            None => None,
            Some(place) => Some(place as u64),
        },
    }
}

/// An equation that nothing solves.
pub(crate) fn refuse(system: &mut System) -> Result<(), Memory>
    ensures { OnOk result (system_of system.new ≡ system_refused (system_of system.old)) }
{
    equate(system, Shape::Unit, Shape::Names(0))
}

/// Whether a number is that of an identifier that is a name.
pub(crate) fn is_name_at(idents: &[IdentKind], number: u64) -> bool
    ensures { result ≡ is_name_at idents.now number }
{
    let place = number as usize;
    place < idents.len() && matches!(idents[place], IdentKind::Name)
}

/// Whether a number is that of an identifier that is a variable.
pub(crate) fn is_var_at(idents: &[IdentKind], number: u64) -> bool
    ensures { result ≡ is_var_at idents.now number }
{
    let place = number as usize;
    place < idents.len() && matches!(idents[place], IdentKind::Var)
}

/// The holes of the identifiers that are names.
fn name_holes(alloc: Global, idents: &[IdentKind]) -> Result<Vec<u64>, Memory>
    ensures { IfOk result (λ v. v.items ≡ name_holes 0 idents.now) }
{
    let mut holes = Vec::with_capacity(alloc, idents.len())?;
    for (i, ident) in idents.iter().enumerate() {
        if matches!(ident, IdentKind::Name) {
            holes.push(i as u64)?;
        }
    }
    Ok(holes)
}

/// The system in which the hole i is the type of the identifier i.
pub(crate) fn started(alloc: Global, idents: &[IdentKind]) -> Result<System, Memory>
    ensures { IfOk result (λ s. system_of s ≡ started idents.now) }
{
    let nodes = open_table(alloc, idents.len(), MORE_HOLES)?;
    let names = name_holes(alloc, idents)?;
    Ok(System {
        nodes,
        equations: Vec::new(alloc),
        names,
        next: idents.len() as u64,
    })
}
