//! The type equations of terms.

ghost use Rattle.std.specs.Prelude.{◌≡◌, false, map, IfOk, IfSome, OnOk};
ghost use Rattle.ap_defs.specs.RawTerms.{raw_of, pair as raw_pair};
ghost use Rattle.ap_defs.specs.Types.{shape_of, type_of, constructor_of, hole, pair};
ghost use Rattle.ap_types.specs.Growing.{is_hole};
ghost use Rattle.ap_kinds.specs.Systems.{system_of, equate, with_hole};
ghost use Rattle.ap_kinds.specs.Gathering.{wanting_of, whole, typed, result_of, new_sides_at, new_sides, sides, meet_swapped, one_sort, name_place, inside_abstraction, gather_term, IsCellWanted};

use crate::inside::{declared_at, inside_abstraction, inside_application};
use crate::kinds::IdentKind;
use crate::places::{name_place, one_sort};
use crate::shapes::opened;
use crate::systems::{System, equate_sides, near_hole, new_hole, refuse};
use crate::wants::{
    Wanted, list_of, list_of_hole, meet_name, meet_swapped, meet_unit, meet_var, wanted_all,
};
use ap_defs::goals::Constructor;
use ap_defs::memory::Memory;
use ap_defs::terms::{Id, Raw, Shape, Ty, Under, take_pair};
use ap_types::growing::pair_at;
use std::alloc::Global;

/// What is wanted of the two sides of a pair.
#[derive(Drop)]
struct Sides<'a> {
    left: Wanted<'a>,
    right: Wanted<'a>,
}

/// The data type of a term, if it is an application of a declared constructor.
fn result_of(constructors: &[Constructor], t: &Raw) -> Option<u32>
    ensures { result ≡ result_of (map constructor_of constructors.now) (raw_of t.now) }
{
    match t {
        Raw::App(f, _) => match declared_at(constructors, *f) {
            None => None,
            Some(constructor) => Some(constructor.result),
        },
        Raw::Unit | Raw::Name(_) | Raw::Var(_) | Raw::Pair(_, _) => None,
        Raw::Under(under) => match &**under {
            Under::Abs(_, _) | Under::Swapped(_, _) => None,
        },
    }
}

/// What is wanted of the two sides of a pair that stands where a shape of no pair is wanted: a hole of the left side is
/// given, that of the right side is new.
fn right_side<'a>(
    alloc: Global,
    want: Shape,
    left: u64,
    system: &mut System,
) -> Result<Sides<'a>, Memory>
    ensures left { IfOk result (λ p. wanting_of p.left ≡ whole (hole left)) }
    ensures right { IfOk result (λ p. wanting_of p.right ≡ whole (hole system.old.next)) }
    ensures system { OnOk result (system_of system.new ≡ equate (shape_of want)
        (pair (hole left) (hole system.old.next)) (with_hole (system_of system.old))) }
{
    let right = new_hole(system)?;
    equate_sides(alloc, want, left, right, system)?;
    Ok(Sides {
        left: Wanted::Whole(Shape::Hole(left)),
        right: Wanted::Whole(Shape::Hole(right)),
    })
}

/// The same with a new hole for the left side, if none is given.
fn sides_at<'a>(
    alloc: Global,
    near: Option<u64>,
    want: Shape,
    system: &mut System,
) -> Result<Sides<'a>, Memory>
    ensures left { IfOk result (λ p. wanting_of p.left
        ≡ (new_sides_at near (shape_of want) (system_of system.old)).left) }
    ensures right { IfOk result (λ p. wanting_of p.right
        ≡ (new_sides_at near (shape_of want) (system_of system.old)).right) }
    ensures system { OnOk result (system_of system.new
        ≡ (new_sides_at near (shape_of want) (system_of system.old)).system) }
{
    match near {
        Some(left) => right_side(alloc, want, left, system),
        None => {
            let left = new_hole(system)?;
            right_side(alloc, want, left, system)
        }
    }
}

/// What is wanted of the two sides of a pair that stands where a shape of no pair is wanted. The data type of the left
/// side may be given.
fn new_sides<'a>(
    alloc: Global,
    base: Option<u32>,
    want: Shape,
    system: &mut System,
) -> Result<Sides<'a>, Memory>
    ensures left { IfOk result (λ p. wanting_of p.left
        ≡ (new_sides base (shape_of want) (system_of system.old)).left) }
    ensures right { IfOk result (λ p. wanting_of p.right
        ≡ (new_sides base (shape_of want) (system_of system.old)).right) }
    ensures system { OnOk result (system_of system.new
        ≡ (new_sides base (shape_of want) (system_of system.old)).system) }
{
    let near = near_hole(system, base);
    sides_at(alloc, near, want, system)
}

/// What is wanted of the two sides of a pair that stands where a hole is wanted.
fn sides_of_hole<'a>(
    alloc: Global,
    base: Option<u32>,
    x: u64,
    system: &mut System,
) -> Result<Sides<'a>, Memory>
    ensures left { IfOk result (λ p. wanting_of p.left
        ≡ (sides base (whole (hole x)) (system_of system.old)).left) }
    ensures right { IfOk result (λ p. wanting_of p.right
        ≡ (sides base (whole (hole x)) (system_of system.old)).right) }
    ensures system { OnOk result (system_of system.new
        ≡ (sides base (whole (hole x)) (system_of system.old)).system) }
{
    match pair_at(system.nodes.as_slice(), x as usize) {
        Some((left, right)) => Ok(Sides {
            left: Wanted::Whole(Shape::Hole(left as u64)),
            right: Wanted::Whole(Shape::Hole(right as u64)),
        }),
        None => new_sides(alloc, base, Shape::Hole(x), system),
    }
}

/// What is wanted of the two sides of a pair that stands where a shape is wanted that is no hole.
#[tactic(auto, using(crate::proofs::TakenLemmas::no_pair_sides))]
fn sides_of_other<'a>(
    alloc: Global,
    base: Option<u32>,
    want: Shape,
    system: &mut System,
) -> Result<Sides<'a>, Memory>
    requires { is_hole (shape_of want) ≡ false }
    ensures left { IfOk result (λ p. wanting_of p.left
        ≡ (sides base (whole (shape_of want)) (system_of system.old)).left) }
    ensures right { IfOk result (λ p. wanting_of p.right
        ≡ (sides base (whole (shape_of want)) (system_of system.old)).right) }
    ensures system { OnOk result (system_of system.new
        ≡ (sides base (whole (shape_of want)) (system_of system.old)).system) }
{
    let mut shape = want;
    match take_pair(&mut shape) {
        Some((left, right)) => Ok(Sides {
            left: Wanted::Whole(left),
            right: Wanted::Whole(right),
        }),
        None => new_sides(alloc, base, shape, system),
    }
}

/// What is wanted of the two sides of a pair that stands where a shape is wanted.
fn sides_of_shape<'a>(
    alloc: Global,
    base: Option<u32>,
    want: Shape,
    system: &mut System,
) -> Result<Sides<'a>, Memory>
    ensures left { IfOk result (λ p. wanting_of p.left
        ≡ (sides base (whole (shape_of want)) (system_of system.old)).left) }
    ensures right { IfOk result (λ p. wanting_of p.right
        ≡ (sides base (whole (shape_of want)) (system_of system.old)).right) }
    ensures system { OnOk result (system_of system.new
        ≡ (sides base (whole (shape_of want)) (system_of system.old)).system) }
{
    if let Shape::Hole(x) = &want {
        return sides_of_hole(alloc, base, *x, system);
    }
    sides_of_other(alloc, base, want, system)
}

/// What is wanted of the two sides of a pair that stands where a type is wanted.
fn sides_of_type<'a>(
    alloc: Global,
    base: Option<u32>,
    want: &'a Ty,
    system: &mut System,
) -> Result<Sides<'a>, Memory>
    ensures left { IfOk result (λ p. wanting_of p.left
        ≡ (sides base (typed (type_of want.now)) (system_of system.old)).left) }
    ensures right { IfOk result (λ p. wanting_of p.right
        ≡ (sides base (typed (type_of want.now)) (system_of system.old)).right) }
    ensures system { OnOk result (system_of system.new
        ≡ (sides base (typed (type_of want.now)) (system_of system.old)).system) }
{
    match want {
        Ty::Pair(left, right) => Ok(Sides {
            left: Wanted::Type(left),
            right: Wanted::Type(right),
        }),
        other => new_sides(alloc, base, opened(alloc, other)?, system),
    }
}

/// What is wanted of the two sides of a pair. The data type of the left side may be given.
fn pair_sides<'a>(
    alloc: Global,
    base: Option<u32>,
    want: Wanted<'a>,
    system: &mut System,
) -> Result<Sides<'a>, Memory>
    ensures left { IfOk result (λ p. wanting_of p.left
        ≡ (sides base (wanting_of want.entry) (system_of system.old)).left) }
    ensures right { IfOk result (λ p. wanting_of p.right
        ≡ (sides base (wanting_of want.entry) (system_of system.old)).right) }
    ensures system { OnOk result (system_of system.new
        ≡ (sides base (wanting_of want.entry) (system_of system.old)).system) }
{
    match want {
        Wanted::Whole(shape) => sides_of_shape(alloc, base, shape, system),
        Wanted::Type(t) => sides_of_type(alloc, base, t, system),
        Wanted::ListOfHole(x) => new_sides(alloc, base, list_of_hole(alloc, x)?, system),
        Wanted::ListOf(t) => new_sides(alloc, base, list_of(alloc, t)?, system),
        Wanted::Nothing => {
            refuse(system)?;
            Ok(Sides {
                left: Wanted::Nothing,
                right: Wanted::Nothing,
            })
        }
        Wanted::More(t, rest) => Ok(Sides {
            left: Wanted::Type(t),
            right: wanted_all(rest),
        }),
        Wanted::Cell(x) => Ok(Sides {
            left: Wanted::Whole(Shape::Hole(x)),
            right: Wanted::ListOfHole(x),
        }),
        Wanted::TypeCell(t) => Ok(Sides {
            left: Wanted::Type(t),
            right: Wanted::ListOf(t),
        }),
    }
}

/// What is wanted of the right side of a pair, and the equations of its left side.
#[cycle(terms)]
fn right_of_pair<'a>(
    alloc: Global,
    constructors: &'a [Constructor],
    idents: &[IdentKind],
    left: &Raw,
    want: Wanted<'a>,
    system: &mut System,
) -> Result<Wanted<'a>, Memory>
    ensures want { IfOk result (λ w. wanting_of w
        ≡ (sides (result_of (map constructor_of constructors.now) (raw_of left.now))
        (wanting_of want.entry) (system_of system.old)).right) }
    ensures system { OnOk result (system_of system.new
        ≡ gather_term (map constructor_of constructors.now) idents.now (raw_of left.now)
        (sides (result_of (map constructor_of constructors.now) (raw_of left.now))
        (wanting_of want.entry) (system_of system.old)).left
        (sides (result_of (map constructor_of constructors.now) (raw_of left.now))
        (wanting_of want.entry) (system_of system.old)).system) }
{
    let base = result_of(constructors, left);
    let wanted = pair_sides(alloc, base, want, system)?;
    gather_term(alloc, constructors, idents, left, wanted.left, system)?;
    Ok(wanted.right)
}

/// What is wanted of the body of an abstraction with a binder.
fn inside_binder<'a>(
    alloc: Global,
    idents: &[IdentKind],
    binder: Id,
    want: Wanted<'a>,
    system: &mut System,
) -> Result<Wanted<'a>, Memory>
    ensures want { IfOk result (λ w. wanting_of w
        ≡ (inside_abstraction (name_place idents.now binder (system_of system.old)).hole
        (wanting_of want.entry)
        (name_place idents.now binder (system_of system.old)).system).want) }
    ensures system { OnOk result (system_of system.new
        ≡ (inside_abstraction (name_place idents.now binder (system_of system.old)).hole
        (wanting_of want.entry)
        (name_place idents.now binder (system_of system.old)).system).system) }
{
    let hole = name_place(idents, binder, system)?;
    inside_abstraction(alloc, hole, want, system)
}

/// Where a swapped term stands.
fn meet_swapping(
    idents: &[IdentKind],
    i: Id,
    j: Id,
    want: &Wanted<'_>,
    system: &mut System,
) -> Result<(), Memory>
    ensures { OnOk result (system_of system.new ≡ meet_swapped (wanting_of want.now)
        (one_sort idents.now i j (system_of system.old))) }
{
    one_sort(idents, i, j, system)?;
    meet_swapped(want, system)
}

/// The parts of a list cell, and what is wanted of its element.
#[derive(Drop)]
struct ListCell<'a, 't> {
    element: Wanted<'a>,
    left: &'t Raw,
    right: &'t Raw,
}

/// The parts of a list cell where a list of the type of a hole is wanted, or of a type: the same is wanted of its tail.
#[tactic(auto, using(crate::proofs::TakenLemmas::cell_of_hole, crate::proofs::TakenLemmas::cell_of_type))]
fn list_cell<'a, 't>(f: u32, want: &Wanted<'a>, argument: &'t Raw) -> Option<ListCell<'a, 't>>
    ensures parts { IfSome result (λ c. raw_of argument.now
        ≡ raw_pair (raw_of c.left.now) (raw_of c.right.now)) }
    ensures wanted { IfSome result (λ c.
        IsCellWanted f (wanting_of want.now) (wanting_of c.element)) }
{
    if f != 1 {
        return None;
    }
    let Raw::Pair(left, right) = argument else {
        return None;
    };
    let element = match want {
        Wanted::ListOfHole(x) => Wanted::Whole(Shape::Hole(*x)),
        Wanted::ListOf(t) => Wanted::Type(*t),
        _ => return None,
    };
    Some(ListCell {
        element,
        left,
        right,
    })
}

/// The equations of a term, of which something is wanted.
///
/// It goes on along the right part of a pair, the argument of a constructor, the body of an abstraction
/// and what is swapped, and comes to itself on left parts of pairs alone.
#[cycle(terms)]
#[tactic(auto, using(crate::proofs::TakenLemmas::cell_gathered, crate::proofs::TakenLemmas::cell_smaller))]
pub(crate) fn gather_term<'a>(
    alloc: Global,
    constructors: &'a [Constructor],
    idents: &[IdentKind],
    t: &Raw,
    want: Wanted<'a>,
    system: &mut System,
) -> Result<(), Memory>
    ensures { OnOk result (system_of system.new
        ≡ gather_term (map constructor_of constructors.now) idents.now (raw_of t.now)
        (wanting_of want.entry) (system_of system.old)) }
{
    let mut now = want;
    let mut rest = t;
    loop {
        match rest {
            Raw::Unit => return meet_unit(alloc, now, system),
            Raw::Name(a) => return meet_name(alloc, idents, a.num, now, system),
            Raw::Var(x) => return meet_var(alloc, idents, x.num, now, system),
            Raw::Pair(left, right) => {
                now = right_of_pair(alloc, constructors, idents, left, now, system)?;
                rest = right;
            }
            Raw::App(f, argument) => match list_cell(*f, &now, argument) {
                Some(cell) => {
                    let ListCell {
                        element,
                        left,
                        right,
                    } = cell;
                    gather_term(alloc, constructors, idents, left, element, system)?;
                    rest = right;
                }
                None => {
                    now = inside_application(alloc, constructors, *f, now, system)?;
                    rest = argument;
                }
            },
            Raw::Under(under) => match &**under {
                Under::Abs(i, body) => {
                    now = inside_binder(alloc, idents, *i, now, system)?;
                    rest = body;
                }
                Under::Swapped(places, body) => {
                    meet_swapping(idents, places.left, places.right, &now, system)?;
                    rest = body;
                }
            },
        }
    }
}
