//! The entries of tables that stand for shapes.

/// An entry of a table: the place that stands for this one, or a shape whose parts are places. A place
/// that stands for itself is open. Places that are alike can be one place, so a table is smaller than
/// the shapes that it stands for.
#[derive(Clone, Copy)]
pub enum Node {
    Place(usize),
    Unit,
    Names(u32),
    Base(u32),
    Pair(usize, usize),
    List(usize),
    Abs(usize, usize),
}
