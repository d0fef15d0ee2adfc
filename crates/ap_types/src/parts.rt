//! The parts of shapes, for walks whose parts that are left stand on a stack.

ghost use Rattle.std.specs.Prelude.{◌≡◌, ◌++◌, OnOk};
ghost use Rattle.ap_defs.specs.Types.{shape_of};
ghost use Rattle.ap_types.specs.Loading.{lent_shapes, parts_of};

use ap_defs::memory::Memory;
use ap_defs::terms::Shape;

/// Puts the parts of a shape on a stack.
pub fn push_parts<'a>(waiting: &mut Vec<&'a Shape>, t: &'a Shape) -> Result<(), Memory>
    ensures { OnOk result (lent_shapes waiting.new.items
        ≡ lent_shapes waiting.old.items ++ parts_of (shape_of t.now)) }
{
    match t {
        Shape::Hole(_) | Shape::Unit | Shape::Names(_) | Shape::Base(_) => {}
        Shape::Pair(left, right) => {
            waiting.push(left)?;
            waiting.push(right)?;
        }
        Shape::List(element) => waiting.push(element)?,
        Shape::Abs(left, right) => {
            waiting.push(left)?;
            waiting.push(right)?;
        }
    }
    Ok(())
}
