use ap_defs::goals::{Constructor, Signature};
use ap_defs::lists::{List, Text};
use ap_defs::memory::Memory;
use ap_defs::terms::{Assignment, Shape, Ty};
use ap_types::answers::{inhabited, may_hold};
use ap_types::equations::solved;
use ap_types::errors::TypesError;
use ap_types::holding::{holds, types_holding};
use ap_types::inhabitants::{Inhabitants, declare, is_inhabited, no_inhabitants};
use ap_values::solutions::{solve, value_of};
use std::alloc::Global;
use std::sync::Arc;

fn list(alloc: Global, of: Ty) -> Result<Ty, Memory> {
    Ok(Ty::List(Arc::new(alloc, of)?))
}

fn abstraction(alloc: Global, sort: u32, body: Ty) -> Result<Ty, Memory> {
    Ok(Ty::Abs(sort, Arc::new(alloc, body)?))
}

fn constructor(alloc: Global, args: Vec<Ty>, of: u32) -> Constructor {
    Constructor {
        text: Text::of(String::new(alloc)),
        args: List::of(args),
        result: of,
    }
}

fn variable(alloc: Global) -> Result<Constructor, Memory> {
    Ok(constructor(alloc, vec![in alloc; Ty::Names(0)]?, 0))
}

fn application(alloc: Global) -> Result<Constructor, Memory> {
    let args = vec![in alloc; Ty::Base(0), Ty::Base(0)]?;
    Ok(constructor(alloc, args, 0))
}

fn lambda(alloc: Global) -> Result<Constructor, Memory> {
    let args = vec![in alloc; abstraction(alloc, 0, Ty::Base(0))?]?;
    Ok(constructor(alloc, args, 0))
}

fn constructors(alloc: Global) -> Result<Vec<Constructor>, Memory> {
    let mut all = Vec::with_capacity(alloc, 3)?;
    all.push(variable(alloc)?)?;
    all.push(application(alloc)?)?;
    all.push(lambda(alloc)?)?;
    Ok(all)
}

fn two_words(alloc: Global) -> Result<Vec<Text>, Memory> {
    let words = vec![in alloc; Text::of(String::new(alloc)), Text::of(String::new(alloc))]?;
    Ok(words)
}

/// Two name types and two data types, of which the second has no constructor.
fn lambda_terms(alloc: Global) -> Result<Signature, Memory> {
    Ok(Signature {
        name_types: List::of(two_words(alloc)?),
        data_types: List::of(two_words(alloc)?),
        constructors: List::of(constructors(alloc)?),
        predicates: List::of(Vec::new(alloc)),
    })
}

/// Whether a type is inhabited for the lambda terms.
fn has_terms(alloc: Global, ty: &Ty) -> Result<bool, Memory> {
    inhabited(alloc, &lambda_terms(alloc)?, ty)
}

/// Whether there are lists of the empty data type, and abstractions in it.
fn empty_inside(alloc: Global) -> Result<(bool, bool), Memory> {
    let lists = has_terms(alloc, &list(alloc, Ty::Base(1))?)?;
    let abstractions = has_terms(alloc, &abstraction(alloc, 0, Ty::Base(1))?)?;
    Ok((lists, abstractions))
}

#[test]
fn lambda_terms_are_inhabited(rt: HostRuntime) {
    let alloc = rt.alloc();
    assert!(rt; matches!(has_terms(alloc, &Ty::Base(0)), Ok(true)));
    assert!(rt; matches!(has_terms(alloc, &Ty::Base(1)), Ok(false)));
    assert!(rt; matches!(empty_inside(alloc), Ok((true, false))));
}

/// Whether terms of a type may have names of a sort free, for the lambda terms.
fn has_names(alloc: Global, ty: &Ty, sort: u32) -> Result<bool, Memory> {
    may_hold(alloc, &lambda_terms(alloc)?, ty, sort)
}

/// Whether lists of terms may have names free, and abstractions their own.
fn names_inside(alloc: Global) -> Result<(bool, bool), Memory> {
    let lists = has_names(alloc, &list(alloc, Ty::Base(0))?, 0)?;
    let abstractions = has_names(alloc, &abstraction(alloc, 1, Ty::Unit)?, 1)?;
    Ok((lists, abstractions))
}

#[test]
fn lambda_terms_may_hold_their_names(rt: HostRuntime) {
    let alloc = rt.alloc();
    assert!(rt; matches!(has_names(alloc, &Ty::Base(0), 0), Ok(true)));
    assert!(rt; matches!(has_names(alloc, &Ty::Base(0), 1), Ok(false)));
    assert!(rt; matches!(names_inside(alloc), Ok((true, false))));
}

/// Whether a type may hold names of the first sort, for the lambda terms, by a table.
fn is_in_table(alloc: Global, ty: &Ty) -> Result<bool, Memory> {
    let table = types_holding(alloc, &lambda_terms(alloc)?, 0)?;
    holds(alloc, &table, ty)
}

#[test]
fn a_table_answers_for_its_sort(rt: HostRuntime) {
    assert!(rt; matches!(is_in_table(rt.alloc(), &Ty::Base(0)), Ok(true)));
    assert!(rt; matches!(is_in_table(rt.alloc(), &Ty::Base(1)), Ok(false)));
}

fn pair(alloc: Global, left: Shape, right: Shape) -> Result<Shape, Memory> {
    Ok(Shape::Pair(Box::new(alloc, left)?, Box::new(alloc, right)?))
}

fn is_clash(answer: Result<Assignment, TypesError>) -> bool {
    match answer {
        Err(TypesError::Clash) => true,
        Err(TypesError::Memory) | Ok(_) => false,
    }
}

/// The holes of one equation that has hole 0 alone.
fn filled(alloc: Global, left: Shape, right: Shape) -> Result<Assignment, TypesError> {
    let equations = vec![in alloc; (left, right)]?;
    solve(alloc, equations, &[], 1)
}

fn is_hole(shape: &Shape, number: u64) -> bool {
    matches!(shape, Shape::Hole(x) if *x == number)
}

fn is_names(shape: &Shape, sort: u32) -> bool {
    matches!(shape, Shape::Names(s) if *s == sort)
}

fn are_unit(shapes: &[Shape]) -> bool {
    match shapes {
        [only] => matches!(only, Shape::Unit),
        _ => false,
    }
}

fn is_unit(answer: Result<Assignment, TypesError>) -> bool {
    match answer {
        Ok(filled) => are_unit(filled.holes.items()),
        Err(_) => false,
    }
}

#[test]
fn a_hole_is_filled(rt: HostRuntime) {
    let alloc = rt.alloc();
    assert!(rt; is_unit(filled(alloc, Shape::Hole(0), Shape::Unit)));
    assert!(rt; is_clash(filled(alloc, Shape::Unit, Shape::Names(0))));
}

/// Hole 1 is hole 0, which is a pair with hole 1.
fn endless(alloc: Global) -> Result<Vec<(Shape, Shape)>, Memory> {
    let around = pair(alloc, Shape::Unit, Shape::Hole(1))?;
    Ok(vec![in alloc; (Shape::Hole(1), Shape::Hole(0)), (Shape::Hole(0), around)]?)
}

fn endless_filled(alloc: Global) -> Result<Assignment, TypesError> {
    let equations = endless(alloc)?;
    solve(alloc, equations, &[], 1)
}

#[test]
fn a_hole_in_its_own_shape_is_a_clash(rt: HostRuntime) {
    assert!(rt; is_clash(endless_filled(rt.alloc())));
}

/// Whether hole 1, which must be a name type, is the one that there is.
fn is_only_name_type(alloc: Global) -> Result<bool, TypesError> {
    let only = solve(alloc, Vec::new(alloc), &[1], 1)?;
    match only.holes.items() {
        [first, second] => Ok(is_hole(first, 0) && is_names(second, 0)),
        _ => Ok(false),
    }
}

/// Whether hole 1, which must be a name type, stays open where there are two.
fn is_either_name_type(alloc: Global) -> Result<bool, TypesError> {
    let either = solve(alloc, Vec::new(alloc), &[1], 2)?;
    match either.holes.items() {
        [first, second] => Ok(is_hole(first, 0) && is_hole(second, 1)),
        _ => Ok(false),
    }
}

/// What there is where hole 1 must be a name type, and is the unit.
fn unit_for_name_type(alloc: Global) -> Result<Assignment, TypesError> {
    let equations = vec![in alloc; (Shape::Hole(1), Shape::Unit)]?;
    solve(alloc, equations, &[1], 2)
}

#[test]
fn holes_that_must_be_name_types(rt: HostRuntime) {
    let alloc = rt.alloc();
    assert!(rt; is_clash(solve(alloc, Vec::new(alloc), &[1], 0)));
    assert!(rt; matches!(is_only_name_type(alloc), Ok(true)));
    assert!(rt; matches!(is_either_name_type(alloc), Ok(true)));
    assert!(rt; is_clash(unit_for_name_type(alloc)));
}

/// Hole x is a pair of hole x - 1 with itself, for each x from 1 on.
fn doublings(alloc: Global, count: u64) -> Result<Vec<(Shape, Shape)>, Memory> {
    let mut equations = Vec::new(alloc);
    for x in 0..count {
        if x < u64::MAX {
            let twice = pair(alloc, Shape::Hole(x), Shape::Hole(x))?;
            equations.push((Shape::Hole(x + 1), twice))?;
        }
    }
    Ok(equations)
}

fn stand_once(alloc: Global) -> Result<bool, TypesError> {
    let equations = doublings(alloc, 200)?;
    let table = solved(alloc, equations, &[], 1)?;
    let first = value_of(alloc, &table, 0)?;
    Ok(table.holes == 201 && table.nodes.len() == 201 && is_hole(&first, 0))
}

fn doubled_unit(alloc: Global) -> Result<Assignment, TypesError> {
    let mut equations = doublings(alloc, 200)?;
    equations.push((Shape::Hole(200), Shape::Unit))?;
    solve(alloc, equations, &[], 1)
}

#[test]
fn shapes_that_double_stand_once(rt: HostRuntime) {
    assert!(rt; matches!(stand_once(rt.alloc()), Ok(true)));
    assert!(rt; is_clash(doubled_unit(rt.alloc())));
}

/// Data type x is made of data types x + 1 and x + 1, for each x below 50.
fn chain(alloc: Global) -> Result<Inhabitants, Memory> {
    let mut table = no_inhabitants(alloc);
    for x in 0..50 {
        let args = vec![in alloc; Ty::Base(x + 1), Ty::Base(x + 1)]?;
        declare(alloc, &mut table, &constructor(alloc, args, x))?;
    }
    Ok(table)
}

/// Whether the first data type is inhabited just from when the last has a constructor without arguments.
fn last_inhabits(alloc: Global) -> Result<bool, Memory> {
    let mut table = chain(alloc)?;
    let before = is_inhabited(alloc, &table, &Ty::Base(0))?;
    declare(alloc, &mut table, &constructor(alloc, Vec::new(alloc), 50))?;
    let other = is_inhabited(alloc, &table, &Ty::Base(51))?;
    let after = is_inhabited(alloc, &table, &Ty::Base(0))?;
    Ok(!before && !other && after)
}

#[test]
fn data_types_are_inhabited_from_the_last(rt: HostRuntime) {
    assert!(rt; matches!(last_inhabits(rt.alloc()), Ok(true)));
}
