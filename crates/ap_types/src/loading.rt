//! Shapes and equations put into a table.

ghost use Rattle.std.specs.Prelude.{◌≡◌, ℕ, ◌+◌, ◌<◌, ◌≤◌, ◌++◌, ◌∷◌, [], List, length, map, IfOk, OnOk};
ghost use Rattle.ap_defs.specs.Types.{shape_of, hole};
ghost use Rattle.ap_types.specs.Assignments.{name_equation, name_equations};
ghost use Rattle.ap_types.specs.Equations.{◌≐◌, equation_of, bound_of, equations_bound, names_bound};
ghost use Rattle.ap_types.specs.Solving.{shape_at};
ghost use Rattle.ap_types.specs.Triangular.{layer_of, shapes_of_nodes, AreFormed};
ghost use Rattle.ap_types.specs.Loading.{lent_shapes, taken, place_in, parts_taken, entry_in};
ghost use Rattle.ap_types.specs.Joining.{ArePairsWithin, Loads, LoadsAll};

use crate::growing::put_equation;
use crate::nodes::Node;
use ap_defs::memory::Memory;
use ap_defs::terms::Shape;
use std::alloc::Global;

/// A table, and pairs of its places that are to become alike.
#[derive(Drop)]
pub(crate) struct Loaded {
    pub(crate) nodes: Vec<Node>,
    pub(crate) pairs: Vec<(usize, usize)>,
}

/// A table with open places behind its own, so many in all.
pub(crate) fn with_places(nodes: Vec<Node>, count: usize) -> Result<Vec<Node>, Memory>
    requires { length nodes.items ≤ count }
    ensures same { IfOk result (λ v. (x : ℕ) → shape_at (shapes_of_nodes v.items) x
        ≡ shape_at (shapes_of_nodes nodes.items) x) }
    ensures len { IfOk result (λ v. length v.items ≡ count) }
{
    let mut wider = nodes;
    for x in wider.len()..count {
        wider.push(Node::Place(x))?;
    }
    Ok(wider)
}

/// The place of a part of a shape, where the places behind `first` are those of the parts in `waiting`: a
/// hole is the place of its number, and each other part waits for the next one. Numbers that are past the
/// greatest are refused as want of memory is.
fn place_of<'a>(first: usize, waiting: &mut Vec<&'a Shape>, t: &'a Shape) -> Result<usize, Memory>
    ensures place { IfOk result (λ x. x
        ≡ place_in (first + length waiting.old.items) (shape_of t.now)) }
    ensures waiting { OnOk result (lent_shapes waiting.new.items
        ≡ lent_shapes waiting.old.items ++ taken (shape_of t.now)) }
    ensures count { OnOk result (length waiting.new.items
        ≡ length waiting.old.items + length (taken (shape_of t.now))) }
{
    if let Shape::Hole(x) = t {
        return Ok(*x as usize);
    }
    let Some(place) = first.checked_add(waiting.len()) else {
        return Err(Memory);
    };
    waiting.push(t)?;
    Ok(place)
}

/// The entry of a shape. Its parts wait for their places.
fn entry_of<'a>(first: usize, waiting: &mut Vec<&'a Shape>, t: &'a Shape) -> Result<Node, Memory>
    ensures entry { IfOk result (λ n. layer_of n
        ≡ entry_in (first + length waiting.old.items) (shape_of t.now)) }
    ensures waiting { OnOk result (lent_shapes waiting.new.items
        ≡ lent_shapes waiting.old.items ++ parts_taken (shape_of t.now)) }
{
    match t {
        Shape::Hole(x) => Ok(Node::Place(*x as usize)),
        Shape::Unit => Ok(Node::Unit),
        Shape::Names(sort) => Ok(Node::Names(*sort)),
        Shape::Base(base) => Ok(Node::Base(*base)),
        Shape::Pair(left, right) => {
            let left = place_of(first, waiting, left)?;
            let right = place_of(first, waiting, right)?;
            Ok(Node::Pair(left, right))
        }
        Shape::List(element) => {
            let element = place_of(first, waiting, element)?;
            Ok(Node::List(element))
        }
        Shape::Abs(left, right) => {
            let left = place_of(first, waiting, left)?;
            let right = place_of(first, waiting, right)?;
            Ok(Node::Abs(left, right))
        }
    }
}

/// Puts a shape into a table, and gives its place; a hole is the place of its number. Each entry takes the
/// next place, and its parts wait for theirs behind all that wait already.
fn load_parts(alloc: Global, nodes: &mut Vec<Node>, t: &Shape) -> Result<usize, Memory>
    requires formed { AreFormed (shapes_of_nodes nodes.old.items) }
    requires bound { bound_of (shape_of t.now) ≤ length nodes.old.items }
    ensures { IfOk result (λ x. Loads (shapes_of_nodes nodes.old.items) (shape_of t.now)
        (shapes_of_nodes nodes.new.items) x) }
{
    let first = nodes.len();
    let mut waiting = Vec::new(alloc);
    let start = place_of(first, &mut waiting, t)?;
    let mut next = 0;
    'parts: while next < waiting.len() {
        let part = waiting[next];
        let entry = entry_of(first, &mut waiting, part)?;
        nodes.push(entry)?;
        next += 1;
    }
    Ok(start)
}

/// Puts the entry of a shape without parts into a table, and gives its place.
fn load_plain(nodes: &mut Vec<Node>, entry: Node) -> Result<usize, Memory>
    ensures place { IfOk result (λ x. x ≡ length nodes.old.items) }
    ensures pushed { OnOk result (nodes.new.items ≡ nodes.old.items ++ entry ∷ []) }
{
    let place = nodes.len();
    nodes.push(entry)?;
    Ok(place)
}

/// Puts a shape into a table, and gives its place; a hole is the place of its number.
#[tactic(auto, using(crate::proofs::PlainLemmas::loads_hole, crate::proofs::PlainLemmas::loads_unit, crate::proofs::PlainLemmas::loads_names, crate::proofs::PlainLemmas::loads_base))]
fn load(alloc: Global, nodes: &mut Vec<Node>, t: &Shape) -> Result<usize, Memory>
    requires formed { AreFormed (shapes_of_nodes nodes.old.items) }
    requires bound { bound_of (shape_of t.now) ≤ length nodes.old.items }
    ensures { IfOk result (λ x. Loads (shapes_of_nodes nodes.old.items) (shape_of t.now)
        (shapes_of_nodes nodes.new.items) x) }
{
    match t {
        Shape::Hole(x) => Ok(*x as usize),
        Shape::Unit => load_plain(nodes, Node::Unit),
        Shape::Names(sort) => load_plain(nodes, Node::Names(*sort)),
        Shape::Base(base) => load_plain(nodes, Node::Base(*base)),
        _ => load_parts(alloc, nodes, t),
    }
}

/// Puts both sides of an equation into a table, with the pair of their places.
fn load_sides(alloc: Global, loaded: Loaded, left: &Shape, right: &Shape) -> Result<Loaded, Memory>
    requires formed { AreFormed (shapes_of_nodes loaded.nodes.items) }
    requires left { bound_of (shape_of left.now) ≤ length loaded.nodes.items }
    requires right { bound_of (shape_of right.now) ≤ length loaded.nodes.items }
    requires within { ArePairsWithin (length loaded.nodes.items) loaded.pairs.items }
    ensures { IfOk result (λ l. LoadsAll (shapes_of_nodes loaded.nodes.items) loaded.pairs.items
        ((shape_of left.now ≐ shape_of right.now) ∷ []) (shapes_of_nodes l.nodes.items)
        l.pairs.items) }
{
    let Loaded {
        mut nodes,
        mut pairs,
    } = loaded;
    let left = load(alloc, &mut nodes, left)?;
    let right = load(alloc, &mut nodes, right)?;
    pairs.push((left, right))?;
    Ok(Loaded { nodes, pairs })
}

/// Puts an equation into a table: it is taken in where it says what an open hole is, which takes no further place and
/// leaves no pair; else both sides stand there, with the pair of their places.
fn load_equation(
    alloc: Global,
    loaded: Loaded,
    left: &Shape,
    right: &Shape,
) -> Result<Loaded, Memory>
    requires formed { AreFormed (shapes_of_nodes loaded.nodes.items) }
    requires left { bound_of (shape_of left.now) ≤ length loaded.nodes.items }
    requires right { bound_of (shape_of right.now) ≤ length loaded.nodes.items }
    requires within { ArePairsWithin (length loaded.nodes.items) loaded.pairs.items }
    ensures { IfOk result (λ l. LoadsAll (shapes_of_nodes loaded.nodes.items) loaded.pairs.items
        ((shape_of left.now ≐ shape_of right.now) ∷ []) (shapes_of_nodes l.nodes.items)
        l.pairs.items) }
{
    let Loaded { mut nodes, pairs } = loaded;
    if put_equation(&mut nodes, left, right) {
        return Ok(Loaded { nodes, pairs });
    }
    load_sides(alloc, Loaded { nodes, pairs }, left, right)
}

/// Puts equations into a table, with the pairs of their sides' places.
pub(crate) fn load_all(
    alloc: Global,
    loaded: Loaded,
    equations: &[(Shape, Shape)],
) -> Result<Loaded, Memory>
    requires formed { AreFormed (shapes_of_nodes loaded.nodes.items) }
    requires bound { equations_bound (map equation_of equations.now) ≤ length loaded.nodes.items }
    requires within { ArePairsWithin (length loaded.nodes.items) loaded.pairs.items }
    ensures { IfOk result (λ l. LoadsAll (shapes_of_nodes loaded.nodes.items) loaded.pairs.items
        (map equation_of equations.now) (shapes_of_nodes l.nodes.items) l.pairs.items) }
{
    let mut all = loaded;
    for e in equations {
        all = load_equation(alloc, all, &e.0, &e.1)?;
    }
    Ok(all)
}

/// Puts the equation by which a hole is the one name type into a table.
fn load_name(alloc: Global, loaded: Loaded, x: u64) -> Result<Loaded, Memory>
    requires formed { AreFormed (shapes_of_nodes loaded.nodes.items) }
    requires bound { x < length loaded.nodes.items }
    requires within { ArePairsWithin (length loaded.nodes.items) loaded.pairs.items }
    ensures { IfOk result (λ l. LoadsAll (shapes_of_nodes loaded.nodes.items) loaded.pairs.items
        (name_equation x ∷ []) (shapes_of_nodes l.nodes.items) l.pairs.items) }
{
    load_equation(alloc, loaded, &Shape::Hole(x), &Shape::Names(0))
}

/// Puts the equations by which holes are the one name type into a table.
fn load_names(alloc: Global, loaded: Loaded, names: &[u64]) -> Result<Loaded, Memory>
    requires formed { AreFormed (shapes_of_nodes loaded.nodes.items) }
    requires bound { names_bound names.now ≤ length loaded.nodes.items }
    requires within { ArePairsWithin (length loaded.nodes.items) loaded.pairs.items }
    ensures { IfOk result (λ l. LoadsAll (shapes_of_nodes loaded.nodes.items) loaded.pairs.items
        (map name_equation names.now) (shapes_of_nodes l.nodes.items) l.pairs.items) }
{
    let mut all = loaded;
    for x in names {
        all = load_name(alloc, all, *x)?;
    }
    Ok(all)
}

/// Puts the equations by which holes are the one name type, where one is declared, into a table.
pub(crate) fn load_name_equations(
    alloc: Global,
    loaded: Loaded,
    names: &[u64],
    name_types: u32,
) -> Result<Loaded, Memory>
    requires formed { AreFormed (shapes_of_nodes loaded.nodes.items) }
    requires bound { names_bound names.now ≤ length loaded.nodes.items }
    requires within { ArePairsWithin (length loaded.nodes.items) loaded.pairs.items }
    ensures { IfOk result (λ l. LoadsAll (shapes_of_nodes loaded.nodes.items) loaded.pairs.items
        (name_equations name_types names.now) (shapes_of_nodes l.nodes.items) l.pairs.items) }
{
    if name_types == 1 {
        return load_names(alloc, loaded, names);
    }
    Ok(loaded)
}
