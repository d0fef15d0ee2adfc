//! Entries of a table.

ghost use Rattle.ap_types.specs.Triangular.{shapes_of_nodes, value_of, IsSettledTable};
ghost use Rattle.ap_types.specs.Entries.{IsEntryOf};

use crate::joining::link_of;
use crate::nodes::Node;

/// The entry that stands for a place, which is itself a place only where that is open.
pub fn entry_at(nodes: &[Node], x: usize) -> Node
    requires { IsSettledTable (shapes_of_nodes nodes.now) }
    ensures { IsEntryOf (value_of (shapes_of_nodes nodes.now)) x result }
{
    if x >= nodes.len() {
        return Node::Place(x);
    }
    let mut at = x;
    let mut next = link_of(nodes, at);
    'links: while next != at {
        at = next;
        next = link_of(nodes, at);
    }
    nodes[at]
}
