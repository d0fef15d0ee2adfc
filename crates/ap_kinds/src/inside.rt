//! What is wanted of the terms inside applications and abstractions.

ghost use Rattle.std.specs.Prelude.{◌≡◌, map, IfOk, OnOk, MatchOption, Some, None};
ghost use Rattle.std.specs.Option.{option_map};
ghost use Rattle.ap_defs.specs.Types.{shape_of, type_of, constructor_of, hole};
ghost use Rattle.ap_defs.specs.Printing.{constructor_in};
ghost use Rattle.ap_types.specs.Triangular.{shapes_of_nodes};
ghost use Rattle.ap_kinds.specs.Systems.{system_of};
ghost use Rattle.ap_kinds.specs.Gathering.{wanting_of, whole, typed, new_element, cell_in_type, cell_wanted, inside_cell, inside_declared, inside_application, new_body, inside_abstraction};

use crate::systems::{System, equate, new_hole, refuse};
use crate::wants::{Wanted, meet, meet_list, wanted_all};
use ap_defs::goals::Constructor;
use ap_defs::memory::Memory;
use ap_defs::terms::{Shape, Ty, take_abs};
use ap_types::growing::list_at;
use ap_types::nodes::Node;
use std::alloc::Global;

/// What is wanted of the parts of a list cell with elements of a new hole.
fn new_element<'a>(
    alloc: Global,
    want: Wanted<'_>,
    system: &mut System,
) -> Result<Wanted<'a>, Memory>
    ensures want { IfOk result (λ w. wanting_of w
        ≡ (new_element (wanting_of want.entry) (system_of system.old)).want) }
    ensures system { OnOk result (system_of system.new
        ≡ (new_element (wanting_of want.entry) (system_of system.old)).system) }
{
    let element = new_hole(system)?;
    meet_list(alloc, want, element, system)?;
    Ok(Wanted::Cell(element))
}

/// What is wanted of the parts of a list cell, where a hole is wanted.
fn known_cell<'a>(nodes: &[Node], x: u64) -> Option<Wanted<'a>>
    ensures { option_map wanting_of result
        ≡ cell_wanted (shapes_of_nodes nodes.now) (whole (hole x)) }
{
    match list_at(nodes, x as usize) {
        Some(element) => Some(Wanted::Cell(element as u64)),
        None => None,
    }
}

/// What is wanted of the parts of a list cell, where a list of the type of a hole is wanted, or a hole.
fn hole_cell<'a>(nodes: &[Node], want: &Shape) -> Option<Wanted<'a>>
    ensures { option_map wanting_of result
        ≡ cell_wanted (shapes_of_nodes nodes.now) (whole (shape_of want.now)) }
{
    match want {
        Shape::Hole(x) => known_cell(nodes, *x),
        Shape::List(element) => match &**element {
            Shape::Hole(x) => Some(Wanted::Cell(*x)),
            _ => None,
        },
        _ => None,
    }
}

/// What is wanted of the parts of a list cell, where a list of a type is wanted.
fn type_cell<'a>(want: &'a Ty) -> Option<Wanted<'a>>
    ensures { option_map wanting_of result ≡ cell_in_type (type_of want.now) }
{
    match want {
        Ty::List(element) => Some(Wanted::TypeCell(element)),
        _ => None,
    }
}

/// What is wanted of the parts of a list cell, where a list of a type or of the type of a hole is wanted, or a hole.
fn cell_wanted<'a>(nodes: &[Node], want: &Wanted<'a>) -> Option<Wanted<'a>>
    ensures { option_map wanting_of result
        ≡ cell_wanted (shapes_of_nodes nodes.now) (wanting_of want.now) }
{
    match want {
        Wanted::ListOfHole(x) => Some(Wanted::Cell(*x)),
        Wanted::ListOf(t) => Some(Wanted::TypeCell(*t)),
        Wanted::Type(t) => type_cell(*t),
        Wanted::Whole(shape) => hole_cell(nodes, shape),
        _ => None,
    }
}

/// What is wanted of the parts of a list cell.
fn inside_cell<'a>(
    alloc: Global,
    want: Wanted<'a>,
    system: &mut System,
) -> Result<Wanted<'a>, Memory>
    ensures want { IfOk result (λ w. wanting_of w
        ≡ (inside_cell (wanting_of want.entry) (system_of system.old)).want) }
    ensures system { OnOk result (system_of system.new
        ≡ (inside_cell (wanting_of want.entry) (system_of system.old)).system) }
{
    match cell_wanted(system.nodes.as_slice(), &want) {
        Some(cell) => Ok(cell),
        None => new_element(alloc, want, system),
    }
}

/// The declared constructor with a number, of which 0 and 1 are none.
#[tactic(auto, using(crate::proofs::Lookups::constructor_found, crate::proofs::Lookups::constructor_low, crate::proofs::Lookups::constructor_past))]
pub(crate) fn declared_at(constructors: &[Constructor], f: u32) -> Option<&Constructor>
    ensures { MatchOption result (constructor_in (map constructor_of constructors.now) f ≡ None) (λ c.
        constructor_in (map constructor_of constructors.now) f ≡ Some (constructor_of c.now)) }
{
    let place = f as usize;
    if place < 2 || place - 2 >= constructors.len() {
        return None;
    }
    Some(&constructors[place - 2])
}

/// What is wanted of the arguments of a constructor that is to be declared.
fn inside_declared<'a>(
    alloc: Global,
    constructors: &'a [Constructor],
    f: u32,
    want: Wanted<'_>,
    system: &mut System,
) -> Result<Wanted<'a>, Memory>
    ensures want { IfOk result (λ w. wanting_of w
        ≡ (inside_declared (constructor_in (map constructor_of constructors.now) f)
        (wanting_of want.entry) (system_of system.old)).want) }
    ensures system { OnOk result (system_of system.new
        ≡ (inside_declared (constructor_in (map constructor_of constructors.now) f)
        (wanting_of want.entry) (system_of system.old)).system) }
{
    match declared_at(constructors, f) {
        None => {
            refuse(system)?;
            Ok(Wanted::Nothing)
        }
        Some(constructor) => {
            meet(alloc, want, Shape::Base(constructor.result), system)?;
            Ok(wanted_all(constructor.args.items()))
        }
    }
}

/// What is wanted of the argument of an application.
pub(crate) fn inside_application<'a>(
    alloc: Global,
    constructors: &'a [Constructor],
    f: u32,
    want: Wanted<'a>,
    system: &mut System,
) -> Result<Wanted<'a>, Memory>
    ensures want { IfOk result (λ w. wanting_of w
        ≡ (inside_application (map constructor_of constructors.now) f (wanting_of want.entry)
        (system_of system.old)).want) }
    ensures system { OnOk result (system_of system.new
        ≡ (inside_application (map constructor_of constructors.now) f (wanting_of want.entry)
        (system_of system.old)).system) }
{
    match f {
        0 => {
            let _cell = inside_cell(alloc, want, system)?;
            Ok(Wanted::Nothing)
        }
        1 => inside_cell(alloc, want, system),
        _ => inside_declared(alloc, constructors, f, want, system),
    }
}

/// What is wanted of the body of an abstraction that stands where no shape of one is wanted.
fn new_body<'a>(
    alloc: Global,
    binder: u64,
    want: Wanted<'_>,
    system: &mut System,
) -> Result<Wanted<'a>, Memory>
    ensures want { IfOk result (λ w. wanting_of w
        ≡ (new_body binder (wanting_of want.entry) (system_of system.old)).want) }
    ensures system { OnOk result (system_of system.new
        ≡ (new_body binder (wanting_of want.entry) (system_of system.old)).system) }
{
    let body = new_hole(system)?;
    let left = Box::new(alloc, Shape::Hole(binder))?;
    let right = Box::new(alloc, Shape::Hole(body))?;
    meet(alloc, want, Shape::Abs(left, right), system)?;
    Ok(Wanted::Whole(Shape::Hole(body)))
}

/// What is wanted of the body of an abstraction that stands where a shape is wanted.
#[tactic(auto, using(crate::proofs::TakenLemmas::no_abs_inside))]
fn body_of_shape<'a>(
    alloc: Global,
    binder: u64,
    want: Shape,
    system: &mut System,
) -> Result<Wanted<'a>, Memory>
    ensures want { IfOk result (λ w. wanting_of w
        ≡ (inside_abstraction binder (whole (shape_of want)) (system_of system.old)).want) }
    ensures system { OnOk result (system_of system.new
        ≡ (inside_abstraction binder (whole (shape_of want)) (system_of system.old)).system) }
{
    let mut shape = want;
    match take_abs(&mut shape) {
        Some((left, body)) => {
            equate(system, left, Shape::Hole(binder))?;
            Ok(Wanted::Whole(body))
        }
        None => new_body(alloc, binder, Wanted::Whole(shape), system),
    }
}

/// What is wanted of the body of an abstraction that stands where a type is wanted.
fn body_of_type<'a>(
    alloc: Global,
    binder: u64,
    want: &'a Ty,
    system: &mut System,
) -> Result<Wanted<'a>, Memory>
    ensures want { IfOk result (λ w. wanting_of w
        ≡ (inside_abstraction binder (typed (type_of want.now)) (system_of system.old)).want) }
    ensures system { OnOk result (system_of system.new
        ≡ (inside_abstraction binder (typed (type_of want.now)) (system_of system.old)).system) }
{
    match want {
        Ty::Abs(sort, body) => {
            equate(system, Shape::Names(*sort), Shape::Hole(binder))?;
            Ok(Wanted::Type(body))
        }
        other => new_body(alloc, binder, Wanted::Type(other), system),
    }
}

/// What is wanted of the body of an abstraction, by the hole of its binder.
pub(crate) fn inside_abstraction<'a>(
    alloc: Global,
    binder: u64,
    want: Wanted<'a>,
    system: &mut System,
) -> Result<Wanted<'a>, Memory>
    ensures want { IfOk result (λ w. wanting_of w
        ≡ (inside_abstraction binder (wanting_of want.entry) (system_of system.old)).want) }
    ensures system { OnOk result (system_of system.new
        ≡ (inside_abstraction binder (wanting_of want.entry) (system_of system.old)).system) }
{
    match want {
        Wanted::Whole(shape) => body_of_shape(alloc, binder, shape, system),
        Wanted::Type(t) => body_of_type(alloc, binder, t, system),
        other => new_body(alloc, binder, other, system),
    }
}
