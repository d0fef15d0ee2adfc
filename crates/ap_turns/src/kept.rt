//! The ways that a choice keeps.

ghost use Rattle.std.specs.Prelude.{◌≡◌, IfOk, IfSome};
ghost use Rattle.ap_defs.specs.Goals.{clauses_of, program_in};
ghost use Rattle.ap_defs.specs.HeadKeys.{kept_from};
ghost use Rattle.ap_defs.specs.Renaming.{IsGoalBelow};
ghost use Rattle.ap_machine.specs.Below.{AreClausesBelow};
ghost use Rattle.ap_turns.specs.Marks.{told_of, told_of_goal};
ghost use Rattle.ap_machine.specs.Machines.{position_of};
ghost use Rattle.ap_machine.specs.Views.{state_in, waiting_of};
ghost use Rattle.ap_store.specs.Views.{present};

use crate::clauses::candidates_at;
use crate::heads::key_of_atom;
use ap_defs::goals::Goal;
use ap_defs::memory::Memory;
use ap_index::predicate::Predicate;
use ap_machine::frames::Frame;
use ap_machine::machine::Machine;
use ap_store::store::Store;
use std::alloc::Global;

/// The numbers of the clauses of a predicate whose head key is wild or this one; all where this is wild.
fn kept_of_predicate<'a>(
    alloc: Global,
    clauses: &'a [Predicate<'a>],
    pred: u32,
    key: u64,
) -> Result<Vec<u32>, Memory>
    requires { AreClausesBelow (program_in clauses.now) }
    ensures { IfOk result (λ v. v.items
        ≡ kept_from key 1 (clauses_of (program_in clauses.now) pred)) }
{
    let mut kept = Vec::new(alloc);
    if let Some(candidates) = candidates_at(clauses, pred) {
        candidates.kids(alloc, key, &mut kept)?;
    }
    Ok(kept)
}

/// The ways that the goal of a frame keeps, if it chooses: of an atom the clauses whose head key is wild
/// or that of its first argument under the bindings, and of a disjunction both sides.
fn kept_of_frame<'a>(
    alloc: Global,
    clauses: &'a [Predicate<'a>],
    store: &Store<'a>,
    frame: &Frame<'a>,
) -> Result<Vec<u32>, Memory>
    requires clauses { AreClausesBelow (program_in clauses.now) }
    requires goal { IsGoalBelow (present store.now).next (waiting_of frame.now).goal }
    ensures { IfOk result (λ v. IfSome
        (told_of_goal (program_in clauses.now) (state_in store.now) frame.now.depth
        (waiting_of frame.now).goal) (λ c. v.items ≡ c.kept)) }
{
    match frame.goal {
        Goal::Atom(pred, args) => {
            let key = key_of_atom(alloc, store, args.items(), frame.base);
            kept_of_predicate(alloc, clauses, *pred, key)
        }
        Goal::Either(_, _) => Ok(Vec::from_array(alloc, [1, 2])?),
        Goal::True => Ok(Vec::new(alloc)),
        Goal::Equal(_, _) => Ok(Vec::new(alloc)),
        Goal::Fresh(_, _) => Ok(Vec::new(alloc)),
        Goal::Both(_, _) => Ok(Vec::new(alloc)),
        Goal::Exists(_, _) => Ok(Vec::new(alloc)),
        Goal::New(_, _) => Ok(Vec::new(alloc)),
    }
}

/// The ways that the first goal that waits keeps, if it chooses.
pub fn kept_at<'a>(
    alloc: Global,
    clauses: &'a [Predicate<'a>],
    machine: &Machine<'a>,
) -> Result<Vec<u32>, Memory>
    requires { AreClausesBelow (program_in clauses.now) }
    ensures { IfOk result (λ v. IfSome
        (told_of (program_in clauses.now) (position_of machine.now).state
        (position_of machine.now).waiting) (λ c. v.items ≡ c.kept)) }
{
    match machine.goals.peek() {
        None => Ok(Vec::new(alloc)),
        Some(frame) => kept_of_frame(alloc, clauses, &machine.store, &frame),
    }
}
