//! Searches up to their first choice or their end.

ghost use Rattle.std.specs.Prelude.{◌≡◌, ◌^◌, ◌<◌, [], IfOk, length, take};
ghost use Rattle.ap_defs.specs.Goals.{Clauses, program_in};
ghost use Rattle.ap_defs.specs.Types.{locals_of};
ghost use Rattle.ap_search.specs.Records.{Answering};
ghost use Rattle.ap_machine.specs.Unbound.{answer_by_unbound};
ghost use Rattle.ap_machine.specs.Below.{AreClausesBelow};
ghost use Rattle.ap_turns.specs.Standings.{IsChoosing, marks_of_standing, path_of_standing};
ghost use Rattle.ap_turns.specs.Marks.{marks_from};
ghost use Rattle.ap_machine.specs.Machines.{position_of};

use crate::choices::choice_at;
use ap_defs::goals::Local;
use ap_defs::memory::Memory;
use ap_index::predicate::Predicate;
use ap_machine::machine::Machine;
use ap_turns::ends::out_at;
use ap_turns::standing::Standing;
use ap_turns::turns::{Turn, take_turn};
use std::alloc::Global;

/// The search failed with the first so many of the choices on the way to a machine.
fn failed_at<'a>(machine: Machine<'a>, made: usize) -> Standing<'a>
    ensures marks { (program : Clauses) (answering : Answering) →
        marks_of_standing program answering result ≡ [] }
    ensures path { path_of_standing result ≡ take made machine.entry.path.items }
    ensures choosing { (program : Clauses) → IsChoosing program result }
{
    let mut path = machine.into_path();
    path.truncate(made);
    Standing::Failed(path)
}

/// The search from a machine up to its first choice or its end.
pub fn advance<'a>(
    alloc: Global,
    clauses: &'a [Predicate<'a>],
    locals: &[Local],
    machine: Machine<'a>,
) -> Result<Standing<'a>, Memory>
    requires clauses { AreClausesBelow (program_in clauses.now) }
    requires locals { length locals.now < 2 ^ 64 }
    ensures marks { IfOk result (λ s. marks_of_standing (program_in clauses.now)
        (answer_by_unbound (locals_of locals.now)) s
        ≡ marks_from (program_in clauses.now) (answer_by_unbound (locals_of locals.now))
        (position_of machine.entry)) }
    ensures path { IfOk result (λ s. path_of_standing s ≡ machine.entry.path.items) }
    ensures choosing { IfOk result (λ s. IsChoosing (program_in clauses.now) s) }
{
    let made = machine.path.len();
    let mut here = machine;
    'advancing: loop {
        match choice_at(clauses, &here) {
            Some(width) => return Ok(Standing::Choosing(width, here)),
            None => match take_turn(alloc, clauses, locals, &mut here)? {
                Turn::Ends(end) => return Ok(Standing::Ended(out_at(here.into_path(), end))),
                Turn::Fails => return Ok(failed_at(here, made)),
                Turn::Goes => {}
            },
        }
    }
}
