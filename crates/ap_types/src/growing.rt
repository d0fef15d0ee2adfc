//! Tables that take in one equation after another, where it says what a hole is.

ghost use Rattle.std.specs.Prelude.{◌≡◌, ℕ, true, false, None, Some, MatchOption, IfOk};
ghost use Rattle.ap_defs.specs.Types.{shape_of, hole, pair};
ghost use Rattle.ap_types.specs.Solving.{shape_at};
ghost use Rattle.ap_types.specs.Triangular.{layer_of, shapes_of_nodes};
ghost use Rattle.ap_types.specs.Growing.{open_table, is_same, is_flat, can_stand, is_open_hole, put_hole, with_same, so_far, with_equation, pair_in, list_in, is_base_at, near_of, near_base};

use crate::nodes::Node;
use ap_defs::memory::Memory;
use ap_defs::terms::Shape;
use std::alloc::Global;

/// So many holes of which nothing is said, with room for some more.
pub fn open_table(alloc: Global, count: usize, more: usize) -> Result<Vec<Node>, Memory>
    ensures { IfOk result (λ v. shapes_of_nodes v.items ≡ open_table count) }
{
    let mut nodes = Vec::with_capacity(alloc, count.saturating_add(more))?;
    for x in 0..count {
        nodes.push(Node::Place(x))?;
    }
    Ok(nodes)
}

/// The places of two holes.
fn two_holes(left: &Shape, right: &Shape) -> Option<(usize, usize)>
    ensures { MatchOption result (is_flat (pair (shape_of left.now) (shape_of right.now)) ≡ false)
        (λ p. (shape_of left.now ≡ hole p.0) × (shape_of right.now ≡ hole p.1)) }
{
    match left {
        Shape::Hole(x) => match right {
            Shape::Hole(y) => Some((*x as usize, *y as usize)),
            _ => None,
        },
        _ => None,
    }
}

/// The entry of a shape whose parts are holes, if it is one.
pub(crate) fn entry_of_holes(t: &Shape) -> Option<Node>
    ensures { MatchOption result (is_flat (shape_of t.now) ≡ false)
        (λ n. layer_of n ≡ shape_of t.now) }
{
    match t {
        Shape::Hole(x) => Some(Node::Place(*x as usize)),
        Shape::Unit => Some(Node::Unit),
        Shape::Names(sort) => Some(Node::Names(*sort)),
        Shape::Base(base) => Some(Node::Base(*base)),
        Shape::Pair(left, right) => match two_holes(left, right) {
            Some((x, y)) => Some(Node::Pair(x, y)),
            None => None,
        },
        Shape::List(element) => match &**element {
            Shape::Hole(x) => Some(Node::List(*x as usize)),
            _ => None,
        },
        Shape::Abs(left, right) => match two_holes(left, right) {
            Some((x, y)) => Some(Node::Abs(x, y)),
            None => None,
        },
    }
}

/// The entry of a place, which is open past the end.
fn entry_or_hole(nodes: &[Node], x: usize) -> Node
    ensures { layer_of result ≡ shape_at (shapes_of_nodes nodes.now) x }
{
    if x < nodes.len() {
        nodes[x]
    } else {
        Node::Place(x)
    }
}

/// What is said of a shape so far, if its parts are holes.
fn so_far(nodes: &[Node], t: &Shape) -> Option<Node>
    ensures { MatchOption result
        (is_flat (so_far (shapes_of_nodes nodes.now) (shape_of t.now)) ≡ false)
        (λ n. layer_of n ≡ so_far (shapes_of_nodes nodes.now) (shape_of t.now)) }
{
    match t {
        Shape::Hole(x) => Some(entry_or_hole(nodes, *x as usize)),
        _ => entry_of_holes(t),
    }
}

/// The sides of an entry that is a pair.
fn pair_in(entry: Node) -> Option<(usize, usize)>
    ensures { result ≡ pair_in (layer_of entry) }
{
    match entry {
        Node::Pair(left, right) => Some((left, right)),
        _ => None,
    }
}

/// The sides of the pair that a place is, if a table says that it is one.
pub fn pair_at(nodes: &[Node], x: usize) -> Option<(usize, usize)>
    ensures { result ≡ pair_in (shape_at (shapes_of_nodes nodes.now) x) }
{
    let entry = entry_or_hole(nodes, x);
    pair_in(entry)
}

/// The element of an entry that is a list.
fn list_in(entry: Node) -> Option<usize>
    ensures { result ≡ list_in (layer_of entry) }
{
    match entry {
        Node::List(element) => Some(element),
        _ => None,
    }
}

/// The element of the list that a place is, if a table says that it is one.
pub fn list_at(nodes: &[Node], x: usize) -> Option<usize>
    ensures { result ≡ list_in (shape_at (shapes_of_nodes nodes.now) x) }
{
    let entry = entry_or_hole(nodes, x);
    list_in(entry)
}

/// Whether a table says of a place that it is of a data type.
fn is_base_at(nodes: &[Node], base: u32, x: usize) -> bool
    ensures { result ≡ is_base_at (shapes_of_nodes nodes.now) base x }
{
    is_same(entry_or_hole(nodes, x), Node::Base(base))
}

/// A place with an entry, if that is a data type; or the left side of the entry, if that is a pair whose left side is of
/// the data type.
fn near_of(nodes: &[Node], base: u32, place: usize, entry: Node) -> Option<usize>
    ensures { result ≡ near_of (shapes_of_nodes nodes.now) base place (layer_of entry) }
{
    match entry {
        Node::Base(other) => { if other == base { Some(place) } else { None } }
        Node::Pair(left, _) => {
            if is_base_at(nodes, base, left) {
                Some(left)
            } else {
                None
            }
        }
        _ => None,
    }
}

/// A place of which a table says that it is of a data type, by its last place but one.
pub fn near_base(nodes: &[Node], base: u32) -> Option<usize>
    ensures { result ≡ near_base (shapes_of_nodes nodes.now) base }
{
    let place = nodes.len().saturating_sub(2);
    let entry = entry_or_hole(nodes, place);
    near_of(nodes, base, place, entry)
}

/// Whether two entries have no parts and are the same.
fn is_same(keep: Node, other: Node) -> bool
    ensures { result ≡ is_same (layer_of keep) (layer_of other) }
{
    match keep {
        Node::Place(x) => match other {
            Node::Place(y) => x == y,
            _ => false,
        },
        Node::Unit => matches!(other, Node::Unit),
        Node::Names(sort) => match other {
            Node::Names(second) => sort == second,
            _ => false,
        },
        Node::Base(base) => match other {
            Node::Base(second) => base == second,
            _ => false,
        },
        _ => false,
    }
}

/// Whether a table of so many places can have an entry at a place.
fn can_stand(count: usize, x: usize, entry: Node) -> bool
    ensures { result ≡ can_stand count x (layer_of entry) }
{
    match entry {
        Node::Place(y) => y <= x,
        Node::Unit | Node::Names(_) | Node::Base(_) => true,
        Node::List(y) => y < count,
        Node::Pair(y, z) | Node::Abs(y, z) => y < count && z < count,
    }
}

/// Whether an entry is that of an open place.
fn is_open(x: usize, entry: Node) -> bool
    ensures { result ≡ is_open_hole x (layer_of entry) }
{
    match entry {
        Node::Place(y) => x == y,
        _ => false,
    }
}

/// Puts an entry at the place of a hole, where it can stand, and answers whether it stands there.
fn put_at(nodes: &mut Vec<Node>, x: usize, entry: Node) -> bool
    ensures put { result ≡ true →
        put_hole (shapes_of_nodes nodes.old.items) (hole x) (layer_of entry)
        ≡ Some (shapes_of_nodes nodes.new.items) }
    ensures none { result ≡ false →
        put_hole (shapes_of_nodes nodes.old.items) (hole x) (layer_of entry) ≡ None }
    ensures kept { result ≡ false → nodes.new.items ≡ nodes.old.items }
{
    let places = nodes.as_slice();
    let count = places.len();
    if x >= count {
        return false;
    }
    let now = entry_or_hole(places, x);
    if is_same(now, entry) {
        return true;
    }
    if !is_open(x, now) {
        return false;
    }
    if !can_stand(count, x, entry) {
        return false;
    }
    nodes[x] = entry;
    true
}

/// The same where the first entry is a place.
fn put(nodes: &mut Vec<Node>, place: Node, entry: Node) -> bool
    ensures put { result ≡ true → put_hole (shapes_of_nodes nodes.old.items) (layer_of place)
        (layer_of entry) ≡ Some (shapes_of_nodes nodes.new.items) }
    ensures none { result ≡ false →
        put_hole (shapes_of_nodes nodes.old.items) (layer_of place) (layer_of entry) ≡ None }
    ensures kept { result ≡ false → nodes.new.items ≡ nodes.old.items }
{
    match place {
        Node::Place(x) => put_at(nodes, x, entry),
        _ => false,
    }
}

/// Makes two entries the same, where one can be put for the other, and answers whether they are.
fn put_same(nodes: &mut Vec<Node>, first: Node, second: Node) -> bool
    ensures put { result ≡ true → with_same (shapes_of_nodes nodes.old.items) (layer_of first)
        (layer_of second) ≡ Some (shapes_of_nodes nodes.new.items) }
    ensures none { result ≡ false →
        with_same (shapes_of_nodes nodes.old.items) (layer_of first) (layer_of second) ≡ None }
    ensures kept { result ≡ false → nodes.new.items ≡ nodes.old.items }
{
    if is_same(first, second) {
        return true;
    }
    if put(nodes, first, second) {
        return true;
    }
    put(nodes, second, first)
}

/// Takes in that a shape is the same as an entry, where a table can say so, and answers whether it does.
pub fn put_entry(nodes: &mut Vec<Node>, left: &Shape, right: Node) -> bool
    ensures put { result ≡ true → with_equation (shapes_of_nodes nodes.old.items)
        (shape_of left.now) (layer_of right) ≡ Some (shapes_of_nodes nodes.new.items) }
    ensures none { result ≡ false → with_equation (shapes_of_nodes nodes.old.items)
        (shape_of left.now) (layer_of right) ≡ None }
    ensures kept { result ≡ false → nodes.new.items ≡ nodes.old.items }
{
    let Some(first) = so_far(nodes.as_slice(), left) else {
        return false;
    };
    put_same(nodes, first, right)
}

/// Takes in an equation, where a table can say it, and answers whether it does.
pub fn put_equation(nodes: &mut Vec<Node>, left: &Shape, right: &Shape) -> bool
    ensures put { result ≡ true → with_equation (shapes_of_nodes nodes.old.items)
        (shape_of left.now) (shape_of right.now) ≡ Some (shapes_of_nodes nodes.new.items) }
    ensures none { result ≡ false → with_equation (shapes_of_nodes nodes.old.items)
        (shape_of left.now) (shape_of right.now) ≡ None }
    ensures kept { result ≡ false → nodes.new.items ≡ nodes.old.items }
{
    match entry_of_holes(right) {
        Some(entry) => put_entry(nodes, left, entry),
        None => false,
    }
}
