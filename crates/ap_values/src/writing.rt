//! Shapes that are written out of a table.
//!
//! A shape can be as deep as its table is long, on either side. So what stands round the part that comes
//! next is kept as a list of layers, of which the first is outermost.

ghost use Rattle.std.specs.Prelude.{◌≡◌, ℕ, ◌++◌, ◌∷◌, [], IfOk};
ghost use Rattle.ap_defs.specs.Types.{shape_of, pair, abs};
ghost use Rattle.ap_types.specs.Equations.{Filling};
ghost use Rattle.ap_types.specs.Triangular.{shapes_of_nodes, value_of, IsSettledTable};
ghost use Rattle.ap_types.specs.Entries.{IsEntryOf};
ghost use Rattle.ap_values.specs.Writing.{GoesOn};

use ap_defs::memory::Memory;
use ap_defs::terms::Shape;
use ap_types::entries::entry_at;
use ap_types::nodes::Node;
use std::alloc::Global;

/// What stands round a part of a shape: the part is the first of two, and the second one is that of a
/// place; or it is the second behind a shape; or it is the elements of a list.
#[derive(Drop)]
pub(crate) enum Layer {
    FirstOfPair(usize),
    SecondOfPair(Shape),
    FirstOfAbs(usize),
    SecondOfAbs(Shape),
    List,
}

/// What comes next within the layers: the shape of a place, or one that was made.
#[derive(Drop)]
pub(crate) enum Next {
    Place(usize),
    Made(Shape),
}

/// A pair.
fn pair_of(alloc: Global, left: Shape, right: Shape) -> Result<Shape, Memory>
    ensures { IfOk result (λ t. shape_of t ≡ pair (shape_of left) (shape_of right)) }
{
    let left = Box::new(alloc, left)?;
    Ok(Shape::Pair(left, Box::new(alloc, right)?))
}

/// An abstraction.
fn abstraction_of(alloc: Global, left: Shape, right: Shape) -> Result<Shape, Memory>
    ensures { IfOk result (λ t. shape_of t ≡ abs (shape_of left) (shape_of right)) }
{
    let left = Box::new(alloc, left)?;
    Ok(Shape::Abs(left, Box::new(alloc, right)?))
}

/// Goes on to the first part of an entry, within one more layer, or makes the shape of one without parts.
fn go_down(layers: &mut Vec<Layer>, entry: Node) -> Result<Next, Memory>
    ensures { IfOk result (λ next. (f : Filling) (x : ℕ) → IsEntryOf f x entry →
        GoesOn f layers.old.items (Next.Place x) layers.new.items next) }
{
    match entry {
        Node::Place(x) => Ok(Next::Made(Shape::Hole(x as u64))),
        Node::Unit => Ok(Next::Made(Shape::Unit)),
        Node::Names(sort) => Ok(Next::Made(Shape::Names(sort))),
        Node::Base(base) => Ok(Next::Made(Shape::Base(base))),
        Node::Pair(y, z) => {
            layers.push(Layer::FirstOfPair(z))?;
            Ok(Next::Place(y))
        }
        Node::List(y) => {
            layers.push(Layer::List)?;
            Ok(Next::Place(y))
        }
        Node::Abs(y, z) => {
            layers.push(Layer::FirstOfAbs(z))?;
            Ok(Next::Place(y))
        }
    }
}

/// Puts a shape that was made into the innermost layer, or goes on to the second part there.
fn put_in(alloc: Global, layers: &mut Vec<Layer>, layer: Layer, made: Shape) -> Result<Next, Memory>
    ensures { IfOk result (λ next. (f : Filling) →
        GoesOn f (layers.old.items ++ layer ∷ []) (Next.Made made) layers.new.items next) }
{
    match layer {
        Layer::FirstOfPair(z) => {
            layers.push(Layer::SecondOfPair(made))?;
            Ok(Next::Place(z))
        }
        Layer::SecondOfPair(left) => Ok(Next::Made(pair_of(alloc, left, made)?)),
        Layer::FirstOfAbs(z) => {
            layers.push(Layer::SecondOfAbs(made))?;
            Ok(Next::Place(z))
        }
        Layer::SecondOfAbs(left) => Ok(Next::Made(abstraction_of(alloc, left, made)?)),
        Layer::List => Ok(Next::Made(Shape::List(Box::new(alloc, made)?))),
    }
}

/// The shape of a place, written out.
pub(crate) fn value_in(alloc: Global, nodes: &[Node], x: usize) -> Result<Shape, Memory>
    requires { IsSettledTable (shapes_of_nodes nodes.now) }
    ensures { IfOk result (λ t. shape_of t ≡ value_of (shapes_of_nodes nodes.now) x) }
{
    let mut layers = Vec::new(alloc);
    let mut now = Next::Place(x);
    'writing: loop {
        match now {
            Next::Place(at) => now = go_down(&mut layers, entry_at(nodes, at))?,
            Next::Made(made) => {
                let Some(layer) = layers.pop() else {
                    return Ok(made);
                };
                now = put_in(alloc, &mut layers, layer, made)?;
            }
        }
    }
}
