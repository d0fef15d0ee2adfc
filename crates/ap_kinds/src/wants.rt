//! What is wanted of a term, and terms that stand there.

ghost use Rattle.std.specs.Prelude.{◌≡◌, ◌||◌, map, IfOk, OnOk};
ghost use Rattle.ap_defs.specs.Types.{shape_of, type_of, hole, list};
ghost use Rattle.ap_types.specs.Growing.{is_same};
ghost use Rattle.ap_kinds.specs.Systems.{system_of, shape_of_type};
ghost use Rattle.ap_kinds.specs.Gathering.{wanting_of, wanting_all, ends_between, equate_others, meet, meet_unit, meet_swapped, meet_name, meet_var};

use crate::kinds::IdentKind;
use crate::shapes::opened;
use crate::systems::{System, equate, equate_list, is_name_at, is_var_at, refuse};
use ap_defs::memory::Memory;
use ap_defs::terms::{Shape, Ty};
use std::alloc::Global;

/// What is wanted of a term: a shape; a type; a list of the type of a hole, or of a type; nothing, as of a
/// constructor without arguments; an argument of a type and those of the rest; or the parts of a list cell, whose
/// elements have the type of a hole, or a type. The tail of each cell is such a list, so it takes no box.
#[derive(Drop)]
pub(crate) enum Wanted<'a> {
    Whole(Shape),
    Type(&'a Ty),
    ListOfHole(u64),
    ListOf(&'a Ty),
    Nothing,
    More(&'a Ty, &'a [Ty]),
    Cell(u64),
    TypeCell(&'a Ty),
}

/// A list of a type, as a shape.
pub(crate) fn list_of(alloc: Global, t: &Ty) -> Result<Shape, Memory>
    ensures { IfOk result (λ s. shape_of s ≡ list (shape_of_type (type_of t.now))) }
{
    let element = opened(alloc, t)?;
    Ok(Shape::List(Box::new(alloc, element)?))
}

/// A list of the type of a hole, as a shape.
pub(crate) fn list_of_hole(alloc: Global, x: u64) -> Result<Shape, Memory>
    ensures { IfOk result (λ s. shape_of s ≡ list (hole x)) }
{
    Ok(Shape::List(Box::new(alloc, Shape::Hole(x))?))
}

/// What is wanted of the arguments of a constructor.
pub(crate) fn wanted_all<'a>(types: &'a [Ty]) -> Wanted<'a>
    ensures { wanting_of result ≡ wanting_all (map type_of types.now) }
{
    match types {
        [] => Wanted::Nothing,
        [t] => Wanted::Type(t),
        [t, rest @ ..] => Wanted::More(t, rest),
    }
}

/// Whether two shapes have no parts and are the same.
fn is_same(t: &Shape, u: &Shape) -> bool
    ensures { result ≡ is_same (shape_of t.now) (shape_of u.now) }
{
    match t {
        Shape::Hole(x) => match u {
            Shape::Hole(y) => *x == *y,
            _ => false,
        },
        Shape::Unit => matches!(u, Shape::Unit),
        Shape::Names(sort) => match u {
            Shape::Names(other) => *sort == *other,
            _ => false,
        },
        Shape::Base(data) => match u {
            Shape::Base(other) => *data == *other,
            _ => false,
        },
        _ => false,
    }
}

/// Whether the last equation that is left is one of two shapes, which have no parts.
#[tactic(auto, using(crate::proofs::LastLemmas::ends_in_none))]
fn ends_between(system: &System, t: &Shape, u: &Shape) -> bool
    ensures { result
        ≡ ends_between (shape_of t.now) (shape_of u.now) (system_of system.now).equations }
{
    match system.equations.as_slice().split_last() {
        None => false,
        Some((last, _)) => is_same(&last.0, t) && is_same(&last.1, u),
    }
}

/// Whether two shapes are the same by themselves, or by the last equation that is left.
fn are_same(system: &System, t: &Shape, u: &Shape) -> bool
    ensures { result ≡ (is_same (shape_of t.now) (shape_of u.now)
        || ends_between (shape_of t.now) (shape_of u.now) (system_of system.now).equations) }
{
    is_same(t, u) || ends_between(system, t, u)
}

/// Two shapes become the same. If they have no parts, that takes no equation where they are the same, or where the
/// last equation that is left says it, as at each element of a long list of another type.
fn equate_others(t: Shape, u: Shape, system: &mut System) -> Result<(), Memory>
    ensures { OnOk result (system_of system.new
        ≡ equate_others (shape_of t) (shape_of u) (system_of system.old)) }
{
    if are_same(system, &t, &u) {
        Ok(())
    } else {
        equate(system, t, u)
    }
}

/// Whether a type and a shape have no parts and are the same.
fn is_same_type(t: &Ty, u: &Shape) -> bool
    ensures { result ≡ is_same (shape_of_type (type_of t.now)) (shape_of u.now) }
{
    match t {
        Ty::Unit => matches!(u, Shape::Unit),
        Ty::Names(sort) => match u {
            Shape::Names(other) => *sort == *other,
            _ => false,
        },
        Ty::Base(data) => match u {
            Shape::Base(other) => *data == *other,
            _ => false,
        },
        _ => false,
    }
}

/// A term of the shape stands where a type is wanted.
fn meet_type(alloc: Global, t: &Ty, shape: Shape, system: &mut System) -> Result<(), Memory>
    ensures { OnOk result (system_of system.new
        ≡ equate_others (shape_of_type (type_of t.now)) (shape_of shape) (system_of system.old)) }
{
    if is_same_type(t, &shape) {
        return Ok(());
    }
    let wanted = opened(alloc, t)?;
    equate_others(wanted, shape, system)
}

/// A term of the shape stands where something is wanted.
pub(crate) fn meet(
    alloc: Global,
    want: Wanted<'_>,
    shape: Shape,
    system: &mut System,
) -> Result<(), Memory>
    ensures { OnOk result (system_of system.new
        ≡ meet (wanting_of want.entry) (shape_of shape) (system_of system.old)) }
{
    match want {
        Wanted::Whole(wanted) => equate_others(wanted, shape, system),
        Wanted::Type(t) => meet_type(alloc, t, shape, system),
        Wanted::ListOfHole(x) => {
            let wanted = list_of_hole(alloc, x)?;
            equate_others(wanted, shape, system)
        }
        Wanted::ListOf(t) => {
            let wanted = list_of(alloc, t)?;
            equate_others(wanted, shape, system)
        }
        _ => refuse(system),
    }
}

/// A shape and a list of the type of a hole become the same. That takes no box where the table says what an open hole is.
#[tactic(auto, using(crate::proofs::LastLemmas::list_others))]
fn equate_other_list(
    alloc: Global,
    want: Shape,
    element: u64,
    system: &mut System,
) -> Result<(), Memory>
    ensures { OnOk result (system_of system.new
        ≡ equate_others (shape_of want) (list (hole element)) (system_of system.old)) }
{
    equate_list(alloc, want, element, system)
}

/// A list of the type of a hole stands where something is wanted.
pub(crate) fn meet_list(
    alloc: Global,
    want: Wanted<'_>,
    element: u64,
    system: &mut System,
) -> Result<(), Memory>
    ensures { OnOk result (system_of system.new
        ≡ meet (wanting_of want.entry) (list (hole element)) (system_of system.old)) }
{
    match want {
        Wanted::Whole(wanted) => equate_other_list(alloc, wanted, element, system),
        other => {
            let shape = list_of_hole(alloc, element)?;
            meet(alloc, other, shape, system)
        }
    }
}

/// Unit stands where something is wanted.
pub(crate) fn meet_unit(alloc: Global, want: Wanted<'_>, system: &mut System) -> Result<(), Memory>
    ensures { OnOk result (system_of system.new
        ≡ meet_unit (wanting_of want.entry) (system_of system.old)) }
{
    match want {
        Wanted::Nothing => Ok(()),
        other => meet(alloc, other, Shape::Unit, system),
    }
}

/// A swapped term stands where something is wanted.
pub(crate) fn meet_swapped(want: &Wanted<'_>, system: &mut System) -> Result<(), Memory>
    ensures { OnOk result (system_of system.new
        ≡ meet_swapped (wanting_of want.now) (system_of system.old)) }
{
    match want {
        Wanted::Whole(_) | Wanted::Type(_) | Wanted::ListOfHole(_) | Wanted::ListOf(_) => Ok(()),
        _ => refuse(system),
    }
}

/// A name stands where something is wanted.
pub(crate) fn meet_name(
    alloc: Global,
    idents: &[IdentKind],
    number: u64,
    want: Wanted<'_>,
    system: &mut System,
) -> Result<(), Memory>
    ensures { OnOk result (system_of system.new
        ≡ meet_name idents.now number (wanting_of want.entry) (system_of system.old)) }
{
    if is_name_at(idents, number) {
        meet(alloc, want, Shape::Hole(number), system)
    } else {
        refuse(system)
    }
}

/// A variable stands where something is wanted.
pub(crate) fn meet_var(
    alloc: Global,
    idents: &[IdentKind],
    number: u64,
    want: Wanted<'_>,
    system: &mut System,
) -> Result<(), Memory>
    ensures { OnOk result (system_of system.new
        ≡ meet_var idents.now number (wanting_of want.entry) (system_of system.old)) }
{
    if is_var_at(idents, number) {
        meet(alloc, want, Shape::Hole(number), system)
    } else {
        refuse(system)
    }
}
