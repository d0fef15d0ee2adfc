//! Solved equations, whose shapes are read off a table.

ghost use Rattle.std.specs.Prelude.{◌≤◌, IsTrue, ◌↔◌};
ghost use Rattle.ap_types.specs.Equations.{names_bound};
ghost use Rattle.ap_types.specs.Assignments.{IsNameOrHole, AreNamesOrHoles};
ghost use Rattle.ap_types.specs.Triangular.{shapes_of_nodes, value_of, IsSettledTable, assignment_of};

use crate::entries::entry_at;
use crate::nodes::Node;

/// The most general assignment of equations that have one, as a table in which equal parts can stand
/// once: it takes no more room than the equations, where the shapes written out may be exponentially
/// larger. The first `holes` places are the holes; in `order` each place stands behind its parts.
#[derive(Drop)]
pub struct Solved {
    pub nodes: Vec<Node>,
    pub order: Vec<u32>,
    pub holes: usize,
}

/// Whether a place stands for a declared name type or an open place.
fn is_name_or_hole(name_types: u32, nodes: &[Node], x: usize) -> bool
    requires { IsSettledTable (shapes_of_nodes nodes.now) }
    ensures { IsTrue result ↔ IsNameOrHole name_types (value_of (shapes_of_nodes nodes.now) x) }
{
    match entry_at(nodes, x) {
        Node::Place(_) => true,
        Node::Names(sort) => sort < name_types,
        _ => false,
    }
}

/// Whether each of these holes has a declared name type or a hole for its shape.
pub(crate) fn are_names_or_holes(name_types: u32, solved: &Solved, names: &[u64]) -> bool
    requires settled { IsSettledTable (shapes_of_nodes solved.now.nodes.items) }
    requires bound { names_bound names.now ≤ solved.now.holes }
    ensures { IsTrue result ↔ AreNamesOrHoles name_types (assignment_of solved.now) names.now }
{
    for x in names {
        if !is_name_or_hole(name_types, solved.nodes.as_slice(), *x as usize) {
            return false;
        }
    }
    true
}
