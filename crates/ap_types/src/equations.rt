//! Equations of types.

ghost use Rattle.std.specs.Prelude.{◌≡◌, ◌↔◌, ℕ, ◌+◌, ◌≤◌, ◌++◌, [], ◌∷◌, length, map, max, IsTrue, IfOk, IfErr};
ghost use Rattle.ap_defs.specs.Types.{shape_of};
ghost use Rattle.ap_types.specs.Equations.{equation_of, bound_of, equations_bound, names_bound, hole_count, Filling, IsSolution, IsShapeInstance, GivesNames};
ghost use Rattle.ap_types.specs.Assignments.{AreNames, IsUnsolvable, name_equation, name_equations, Narrows};
ghost use Rattle.ap_types.specs.Triangular.{shapes_of_nodes, AreFormed, IsSettledTable, assignment_of};
ghost use Rattle.ap_types.specs.Loading.{own_bound};
ghost use Rattle.ap_types.specs.Growing.{table_equations, IsTableSolution, IsTableUnsolvable};
ghost use Rattle.ap_types.specs.Joining.{ArePairsWithin, BeginsSystem, NeverAgree, LoadsSystem, Settles};
ghost use Rattle.ap_types.specs.Walking.{AreInOrder};

use crate::errors::TypesError;
use crate::joining::{join_all, shorten_all};
use crate::loading::{Loaded, load_all, load_name_equations, with_places};
use crate::nodes::Node;
use crate::parts::push_parts;
use crate::solved::{Solved, are_names_or_holes};
use crate::walking::in_order;
use ap_defs::memory::Memory;
use ap_defs::terms::Shape;
use std::alloc::Global;

/// The greater of two numbers.
fn greater(a: usize, b: usize) -> usize
    ensures { result ≡ max a b }
{
    if a < b { b } else { a }
}

/// One more than a hole's number. No table has a place for the greatest number, which counts as want
/// of memory.
fn after(x: u64) -> Result<usize, Memory>
    ensures { IfOk result (λ n. n ≡ x + 1) }
{
    if x == u64::MAX {
        return Err(Memory);
    }
    Ok(x as usize + 1)
}

/// One more than a shape's number where it is a hole.
fn own_bound(t: &Shape) -> Result<usize, Memory>
    ensures { IfOk result (λ n. n ≡ own_bound (shape_of t.now)) }
{
    match t {
        Shape::Hole(x) => after(*x),
        _ => Ok(0),
    }
}

/// One more than the greatest hole of a shape. The parts that are left stand on a stack.
fn bound_in_parts(alloc: Global, t: &Shape) -> Result<usize, Memory>
    ensures { IfOk result (λ n. n ≡ bound_of (shape_of t.now)) }
{
    let mut bound = 0;
    let mut waiting = Vec::new(alloc);
    let mut part = t;
    'parts: loop {
        bound = greater(bound, own_bound(part)?);
        push_parts(&mut waiting, part)?;
        let Some(next) = waiting.pop() else {
            return Ok(bound);
        };
        part = next;
    }
}

/// One more than the greatest hole of a shape.
fn bound_in(alloc: Global, t: &Shape) -> Result<usize, Memory>
    ensures { IfOk result (λ n. n ≡ bound_of (shape_of t.now)) }
{
    match t {
        Shape::Hole(x) => after(*x),
        Shape::Unit | Shape::Names(_) | Shape::Base(_) => Ok(0),
        _ => bound_in_parts(alloc, t),
    }
}

/// One more than the greatest hole of equations.
fn bound_in_equations(alloc: Global, equations: &[(Shape, Shape)]) -> Result<usize, Memory>
    ensures { IfOk result (λ n. n ≡ equations_bound (map equation_of equations.now)) }
{
    let mut bound = 0;
    for e in equations {
        let left = bound_in(alloc, &e.0)?;
        let right = bound_in(alloc, &e.1)?;
        bound = greater(bound, greater(left, right));
    }
    Ok(bound)
}

/// One more than the greatest of the holes that must be name types.
fn bound_in_names(names: &[u64]) -> Result<usize, Memory>
    ensures { IfOk result (λ n. n ≡ names_bound names.now) }
{
    let mut bound = 0;
    for x in names {
        let next = after(*x)?;
        bound = greater(bound, next);
    }
    Ok(bound)
}

/// A table that is begun, with the equations and those by which holes are the one name type put into it; its first
/// places are the holes.
fn load_system(
    alloc: Global,
    begun: Vec<Node>,
    equations: &[(Shape, Shape)],
    names: &[u64],
    name_types: u32,
    holes: usize,
) -> Result<Loaded, Memory>
    requires formed { AreFormed (shapes_of_nodes begun.items) }
    requires holes { hole_count (table_equations 0 (shapes_of_nodes begun.items)
        ++ map equation_of equations.now) names.now ≤ holes }
    ensures { IfOk result (λ l. LoadsSystem (table_equations 0 (shapes_of_nodes begun.items)
        ++ map equation_of equations.now) (name_equations name_types names.now) holes
        (shapes_of_nodes l.nodes.items) l.pairs.items) }
{
    let nodes = with_places(begun, holes)?;
    let pairs = Vec::with_capacity(alloc, equations.len())?;
    let loaded = load_all(alloc, Loaded { nodes, pairs }, equations)?;
    load_name_equations(alloc, loaded, names, name_types)
}

/// The table in which the pairs of places have become alike, and its places, each behind its parts.
fn settled(alloc: Global, loaded: Loaded) -> Result<(Vec<Node>, Vec<u32>), TypesError>
    requires formed { AreFormed (shapes_of_nodes loaded.nodes.items) }
    requires within { ArePairsWithin (length loaded.nodes.items) loaded.pairs.items }
    ensures ok { IfOk result (λ r. Settles (shapes_of_nodes loaded.nodes.items) loaded.pairs.items
        (shapes_of_nodes r.0.items)) }
    ensures order { IfOk result (λ r. AreInOrder (shapes_of_nodes r.0.items) r.1.items) }
    ensures clash { IfErr result (λ e. e ≡ TypesError.Clash →
        NeverAgree (shapes_of_nodes loaded.nodes.items) loaded.pairs.items) }
{
    let mut nodes = join_all(loaded)?;
    shorten_all(&mut nodes);
    let order = in_order(alloc, nodes.as_slice())?;
    Ok((nodes, order))
}

/// A table of equations that is not solved yet, and how many of its first places are holes.
#[derive(Drop)]
struct Unsolved {
    loaded: Loaded,
    holes: usize,
}

/// A table that is begun, with the equations and those by which holes are the one name type put into it; its first
/// places are all holes that they have.
fn begun(
    alloc: Global,
    nodes: Vec<Node>,
    equations: &[(Shape, Shape)],
    names: &[u64],
    name_types: u32,
) -> Result<Unsolved, Memory>
    requires { AreFormed (shapes_of_nodes nodes.items) }
    ensures { IfOk result (λ b. BeginsSystem (table_equations 0 (shapes_of_nodes nodes.items)
        ++ map equation_of equations.now) names.now name_types b.holes
        (shapes_of_nodes b.loaded.nodes.items) b.loaded.pairs.items) }
{
    let in_equations = bound_in_equations(alloc, equations)?;
    let in_names = bound_in_names(names)?;
    let in_both = greater(in_equations, in_names);
    let places = nodes.len();
    let holes = greater(places, in_both);
    let loaded = load_system(alloc, nodes, equations, names, name_types, holes)?;
    Ok(Unsolved { loaded, holes })
}

/// The same for equations that are let go then, so that they don't stand beside what is made of their table.
fn begun_of(
    alloc: Global,
    nodes: Vec<Node>,
    equations: Vec<(Shape, Shape)>,
    names: &[u64],
    name_types: u32,
) -> Result<Unsolved, Memory>
    requires { AreFormed (shapes_of_nodes nodes.items) }
    ensures { IfOk result (λ b. BeginsSystem (table_equations 0 (shapes_of_nodes nodes.items)
        ++ map equation_of equations.items) names.now name_types b.holes
        (shapes_of_nodes b.loaded.nodes.items) b.loaded.pairs.items) }
{
    begun(alloc, nodes, equations.as_slice(), names, name_types)
}

/// A table that has every solution of a table that is begun and of equations, before it is tested whether the holes
/// that must be name types can be.
fn narrowed(
    alloc: Global,
    nodes: Vec<Node>,
    equations: Vec<(Shape, Shape)>,
    names: &[u64],
    name_types: u32,
) -> Result<Solved, TypesError>
    requires { AreFormed (shapes_of_nodes nodes.items) }
    ensures settled { IfOk result (λ s. IsSettledTable (shapes_of_nodes s.nodes.items)) }
    ensures order { IfOk result (λ s. AreInOrder (shapes_of_nodes s.nodes.items) s.order.items) }
    ensures holes { IfOk result (λ s. s.holes ≡ hole_count (table_equations 0
        (shapes_of_nodes nodes.items) ++ map equation_of equations.items) names.now) }
    ensures narrows { IfOk result (λ s. Narrows (table_equations 0 (shapes_of_nodes nodes.items)
        ++ map equation_of equations.items) names.now name_types (assignment_of s)) }
    ensures clash { IfErr result (λ e. e ≡ TypesError.Clash → IsUnsolvable (table_equations 0
        (shapes_of_nodes nodes.items) ++ map equation_of equations.items) names.now name_types) }
{
    let first = begun_of(alloc, nodes, equations, names, name_types)?;
    let Unsolved { loaded, holes } = first;
    let (nodes, order) = settled(alloc, loaded)?;
    Ok(Solved {
        nodes,
        order,
        holes,
    })
}

/// The most general assignment of types to the holes of a table that is begun and of equations, as a table.
///
/// As `solved`, where some equations were taken in as they came (`growing`).
pub fn solved_table(
    alloc: Global,
    nodes: Vec<Node>,
    equations: Vec<(Shape, Shape)>,
    names: &[u64],
    name_types: u32,
) -> Result<Solved, TypesError>
    requires { AreFormed (shapes_of_nodes nodes.items) }
    ensures settled { IfOk result (λ s. IsSettledTable (shapes_of_nodes s.nodes.items)) }
    ensures order { IfOk result (λ s. AreInOrder (shapes_of_nodes s.nodes.items) s.order.items) }
    ensures in_order { IfOk result (λ s. s.holes ≡ max (length nodes.items)
        (hole_count (map equation_of equations.items) names.now)) }
    ensures most_general { IfOk result (λ s. (f : Filling) →
        IsTableSolution (shapes_of_nodes nodes.items) (map equation_of equations.items) names.now
        name_types f
        ↔ (IsShapeInstance (assignment_of s) f × GivesNames name_types f names.now)) }
    ensures constrained { IfOk result (λ s. AreNames name_types (assignment_of s) names.now) }
    ensures solvable { IfOk result (λ s. (f : Filling)
        × IsTableSolution (shapes_of_nodes nodes.items) (map equation_of equations.items) names.now
        name_types f) }
    ensures clash { IfErr result (λ e. e ≡ TypesError.Clash → IsTableUnsolvable
        (shapes_of_nodes nodes.items) (map equation_of equations.items) names.now name_types) }
{
    if name_types == 0 && names.len() > 0 {
        return Err(TypesError::Clash);
    }
    let solved = narrowed(alloc, nodes, equations, names, name_types)?;
    if !are_names_or_holes(name_types, &solved, names) {
        return Err(TypesError::Clash);
    }
    Ok(solved)
}

/// The most general assignment of types to the holes of equations, as a table.
///
/// As `solve`, whose assignment it stands for; it takes room and, but for the following of links, time
/// as the equations do, which are let go once they stand in the table. `value_of` writes out the shape of a
/// hole.
pub fn solved(
    alloc: Global,
    equations: Vec<(Shape, Shape)>,
    names: &[u64],
    name_types: u32,
) -> Result<Solved, TypesError>
    ensures settled { IfOk result (λ s. IsSettledTable (shapes_of_nodes s.nodes.items)) }
    ensures order { IfOk result (λ s. AreInOrder (shapes_of_nodes s.nodes.items) s.order.items) }
    ensures in_order { IfOk result (λ s. s.holes
        ≡ hole_count (map equation_of equations.items) names.now) }
    ensures most_general { IfOk result (λ s. (f : Filling) →
        IsSolution (map equation_of equations.items) names.now name_types f
        ↔ (IsShapeInstance (assignment_of s) f × GivesNames name_types f names.now)) }
    ensures constrained { IfOk result (λ s. AreNames name_types (assignment_of s) names.now) }
    ensures solvable { IfOk result (λ s. (f : Filling)
        × IsSolution (map equation_of equations.items) names.now name_types f) }
    ensures clash { IfErr result (λ e. e ≡ TypesError.Clash →
        IsUnsolvable (map equation_of equations.items) names.now name_types) }
{
    solved_table(alloc, Vec::new(alloc), equations, names, name_types)
}
