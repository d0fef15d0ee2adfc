//! Types as shapes without holes.

ghost use Rattle.std.specs.Prelude.{◌≡◌, IfOk};
ghost use Rattle.ap_defs.specs.Types.{shape_of, type_of};
ghost use Rattle.ap_kinds.specs.Systems.{shape_of_type};
ghost use Rattle.ap_kinds.specs.Layers.{shape_in, shape_within};

use ap_defs::memory::Memory;
use ap_defs::terms::{Shape, Ty};
use std::alloc::Global;

/// What stands round a part of a shape: the part is right of a shape in a pair, the elements of a list,
/// or the body of an abstraction over a name type.
#[derive(Drop)]
pub(crate) enum ShapeLayer {
    Left(Shape),
    List,
    Abs(u32),
}

/// A shape in a layer.
fn shape_in(alloc: Global, layer: ShapeLayer, t: Shape) -> Result<Shape, Memory>
    ensures { IfOk result (λ u. shape_of u ≡ shape_in layer (shape_of t)) }
{
    match layer {
        ShapeLayer::Left(left) => {
            let left = Box::new(alloc, left)?;
            Ok(Shape::Pair(left, Box::new(alloc, t)?))
        }
        ShapeLayer::List => Ok(Shape::List(Box::new(alloc, t)?)),
        ShapeLayer::Abs(sort) => {
            let sort = Box::new(alloc, Shape::Names(sort))?;
            Ok(Shape::Abs(sort, Box::new(alloc, t)?))
        }
    }
}

/// A shape within layers, of which the first is outermost.
#[tactic(auto, using(crate::proofs::LayerLemmas::shape_within_last))]
fn close_shape(alloc: Global, mut layers: Vec<ShapeLayer>, t: Shape) -> Result<Shape, Memory>
    ensures { IfOk result (λ u. shape_of u ≡ shape_within layers.items (shape_of t)) }
{
    let mut made = t;
    while let Some(layer) = layers.pop() {
        made = shape_in(alloc, layer, made)?;
    }
    Ok(made)
}

/// A type as a shape without holes.
///
/// It goes on along the right part of a pair, the elements of a list and the body of an abstraction, and
/// calls itself on left parts of pairs alone.
#[tactic(auto, using(crate::proofs::LayerLemmas::shape_within_last))]
fn opened_parts(alloc: Global, t: &Ty) -> Result<Shape, Memory>
    ensures { IfOk result (λ s. shape_of s ≡ shape_of_type (type_of t.now)) }
{
    let mut layers = Vec::new(alloc);
    let mut rest = t;
    loop {
        match rest {
            Ty::Unit => return close_shape(alloc, layers, Shape::Unit),
            Ty::Names(sort) => return close_shape(alloc, layers, Shape::Names(*sort)),
            Ty::Base(data) => return close_shape(alloc, layers, Shape::Base(*data)),
            Ty::Pair(left, right) => {
                layers.push(ShapeLayer::Left(opened_parts(alloc, left)?))?;
                rest = right;
            }
            Ty::List(element) => {
                layers.push(ShapeLayer::List)?;
                rest = element;
            }
            Ty::Abs(sort, body) => {
                layers.push(ShapeLayer::Abs(*sort))?;
                rest = body;
            }
        }
    }
}

/// A type as a shape without holes. One without parts is made at once.
pub(crate) fn opened(alloc: Global, t: &Ty) -> Result<Shape, Memory>
    ensures { IfOk result (λ s. shape_of s ≡ shape_of_type (type_of t.now)) }
{
    match t {
        Ty::Unit => Ok(Shape::Unit),
        Ty::Names(sort) => Ok(Shape::Names(*sort)),
        Ty::Base(data) => Ok(Shape::Base(*data)),
        _ => opened_parts(alloc, t),
    }
}
