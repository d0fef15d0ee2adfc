//! Where branches stand.

ghost use Rattle.std.specs.Prelude.{◌≡◌, IfOk};
ghost use Rattle.ap_defs.specs.Goals.{program_in};
ghost use Rattle.ap_machine.specs.Below.{AreClausesBelow};
ghost use Rattle.ap_turns.specs.Standings.{IsChoosing, IsNamedNode, path_of_standing, width_of_standing};

use crate::kept::kept_at;
use ap_defs::lists::List;
use ap_defs::memory::Memory;
use ap_defs::paths::{Node, Out};
use ap_index::predicate::Predicate;
use ap_machine::machine::Machine;
use std::alloc::Global;

/// Where a branch stands: before a choice among so many, at an output, or where the search fails,
/// with the path.
#[derive(Drop)]
pub enum Standing<'a> {
    Choosing(u32, Machine<'a>),
    Ended(Out),
    Failed(Vec<u32>),
}

/// The choices on the way to where a branch stands.
pub fn path_of<'s>(standing: &'s Standing<'_>) -> &'s [u32]
    ensures { result.now ≡ path_of_standing standing.now }
{
    match standing {
        Standing::Choosing(_, machine) => machine.path.as_slice(),
        Standing::Ended(out) => match out {
            Out::Found(path, _) => path.choices(),
            Out::Cut(path) => path.choices(),
            Out::Stuck(path) => path.choices(),
        },
        Standing::Failed(path) => path.as_slice(),
    }
}

/// Among how many ways the search chooses where it stands, if it does.
pub fn width_of(standing: &Standing<'_>) -> Option<u32>
    ensures { result ≡ width_of_standing standing.now }
{
    match standing {
        Standing::Choosing(width, _) => Some(*width),
        Standing::Ended(_) => None,
        Standing::Failed(_) => None,
    }
}

/// The node of where a search stands.
pub fn node_of<'a>(
    alloc: Global,
    clauses: &'a [Predicate<'a>],
    standing: &Standing<'a>,
) -> Result<Node, Memory>
    requires clauses { AreClausesBelow (program_in clauses.now) }
    requires choosing { IsChoosing (program_in clauses.now) standing.now }
    ensures { IfOk result (λ n. IsNamedNode (program_in clauses.now) n standing.now) }
{
    match standing {
        Standing::Choosing(width, machine) => {
            let kept = kept_at(alloc, clauses, machine)?;
            Ok(Node::Choice(*width, List::of(kept)))
        }
        Standing::Ended(out) => match out {
            Out::Found(_, _) => Ok(Node::Answer),
            Out::Cut(_) => Ok(Node::Cut),
            Out::Stuck(_) => Ok(Node::Stuck),
        },
        Standing::Failed(_) => Ok(Node::Failed),
    }
}
