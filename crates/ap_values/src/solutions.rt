//! Solutions of type equations, written out as shapes.

ghost use Rattle.std.specs.Prelude.{◌≡◌, ◌↔◌, length, map, IfOk, IfErr};
ghost use Rattle.ap_defs.specs.Types.{shape_of};
ghost use Rattle.ap_types.specs.Equations.{equation_of, hole_count, Filling, IsSolution, IsShapeInstance, GivesNames};
ghost use Rattle.ap_types.specs.Assignments.{AreNames, IsUnsolvable};
ghost use Rattle.ap_types.specs.Solving.{shape_at};
ghost use Rattle.ap_types.specs.Triangular.{shapes_of_nodes, IsSettledTable, assignment_of};

use crate::writing::value_in;
use ap_defs::lists::List;
use ap_defs::memory::Memory;
use ap_defs::terms::{Assignment, Shape};
use ap_types::equations::solved;
use ap_types::errors::TypesError;
use ap_types::solved::Solved;
use std::alloc::Global;

/// The shape of a hole in the assignment that a table stands for, written out. `Err` is want of memory.
pub fn value_of(alloc: Global, solved: &Solved, hole: usize) -> Result<Shape, Memory>
    requires { IsSettledTable (shapes_of_nodes solved.now.nodes.items) }
    ensures { IfOk result (λ t. shape_of t ≡ shape_at (assignment_of solved.now) hole) }
{
    if hole >= solved.holes {
        return Ok(Shape::Hole(hole as u64));
    }
    value_in(alloc, solved.nodes.as_slice(), hole)
}

/// The assignment that a table stands for, written out. `Err` is want of memory.
pub fn written_out(alloc: Global, solved: &Solved) -> Result<Vec<Shape>, Memory>
    requires { IsSettledTable (shapes_of_nodes solved.now.nodes.items) }
    ensures { IfOk result (λ v. map shape_of v.items ≡ assignment_of solved.now) }
{
    let mut shapes = Vec::new(alloc);
    for x in 0..solved.holes {
        shapes.push(value_in(alloc, solved.nodes.as_slice(), x)?)?;
    }
    Ok(shapes)
}

/// The most general assignment of types to the holes of equations.
///
/// The holes are the numbers from 0 to the greatest that stands in `equations` or `names`; those in
/// `names` are to be name types, of which `name_types` are declared. The assignment has a shape for each
/// hole, in order; a hole that is left in it is undetermined. Where one name type is declared, a hole in
/// `names` that nothing else fixes is that one. `Clash` comes exactly where no assignment solves the
/// equations; `Memory` is want of memory. The left part of an abstraction is not forced to be a name
/// type by itself. This is first-order unification after Robinson, over a table in which equal parts
/// stand once, after Huet; the shapes that are given may be exponentially larger than the equations.
pub fn solve(
    alloc: Global,
    equations: Vec<(Shape, Shape)>,
    names: &[u64],
    name_types: u32,
) -> Result<Assignment, TypesError>
    ensures in_order { IfOk result (λ a. length a.holes
        ≡ hole_count (map equation_of equations.items) names.now) }
    ensures most_general { IfOk result (λ a. (f : Filling) →
        IsSolution (map equation_of equations.items) names.now name_types f
        ↔ (IsShapeInstance (map shape_of a.holes) f × GivesNames name_types f names.now)) }
    ensures constrained { IfOk result (λ a. AreNames name_types (map shape_of a.holes) names.now) }

    // An assignment that is given has a solution, so a clash is never left out.
    ensures solvable { IfOk result (λ a. (f : Filling)
        × IsSolution (map equation_of equations.items) names.now name_types f) }
    ensures clash { IfErr result (λ e. e ≡ TypesError.Clash →
        IsUnsolvable (map equation_of equations.items) names.now name_types) }
{
    let solved = solved(alloc, equations, names, name_types)?;
    let holes = written_out(alloc, &solved)?;
    Ok(Assignment {
        holes: List::of(holes),
    })
}
