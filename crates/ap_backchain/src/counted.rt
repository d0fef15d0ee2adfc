//! Searches that make at most so many choices.

ghost use Rattle.std.specs.Prelude.{◌≡◌, ◌+◌, ◌<◌, ◌≤◌, None, Some, IfOk, IfSome, map};
ghost use Rattle.ap_defs.specs.Answers.{outs_of};
ghost use Rattle.ap_defs.specs.Goals.{program_in};
ghost use Rattle.ap_machine.specs.Asking.{answering_of};
ghost use Rattle.ap_machine.specs.Below.{AreClausesBelow};
ghost use Rattle.ap_backchain.specs.Ends.{kept_out};
ghost use Rattle.ap_turns.specs.Marks.{choices_from, choices_here};
ghost use Rattle.ap_machine.specs.Machines.{position_of};
ghost use Rattle.ap_machine.specs.Positions.{outs_from};

use crate::choices::choice_at;
use crate::run::{Paths, go_on};
use ap_defs::memory::Memory;
use ap_defs::paths::Out;
use ap_index::predicate::Predicate;
use ap_machine::asked::Asked;
use ap_machine::machine::Machine;
use ap_paths::Limit;
use std::alloc::Global;

/// How many more choices may be made after the one at a machine, if there is one, where so many may: none
/// says that it is one too many.
fn left_after<'a>(clauses: &'a [Predicate<'a>], machine: &Machine<'a>, left: u64) -> Option<u64>
    requires { AreClausesBelow (program_in clauses.now) }
    ensures some { IfSome result (λ n.
        n + choices_here (program_in clauses.now) (position_of machine.now) ≡ left) }
    ensures none { result ≡ None → (left ≡ 0)
        × (choices_here (program_in clauses.now) (position_of machine.now) ≡ 1) }
{
    match choice_at(clauses, machine) {
        Some(_) => left.checked_sub(1),
        None => Some(left),
    }
}

/// The outputs from a machine, in order, with their paths or without, where the search makes at most so
/// many choices: none says that it makes more.
pub fn outputs_by_choices<'a>(
    alloc: Global,
    clauses: &'a [Predicate<'a>],
    asked: &Asked<'_>,
    paths: Paths,
    most: u64,
    first: Machine<'a>,
) -> Result<Option<Vec<Out>>, Memory>
    requires clauses { AreClausesBelow (program_in clauses.now) }
    ensures outs { IfOk result (λ o. IfSome o (λ v. outs_of v.items
        ≡ map (kept_out paths) (outs_from (program_in clauses.now)
        (answering_of asked.now) (position_of first.entry)))) }
    ensures few { IfOk result (λ o. IfSome o (λ v.
        choices_from (program_in clauses.now) (answering_of asked.now)
        (position_of first.entry) ≤ most)) }
    ensures many { IfOk result (λ o. o ≡ None →
        most < choices_from (program_in clauses.now) (answering_of asked.now)
        (position_of first.entry)) }
{
    let mut outs = Vec::new(alloc);
    let mut points = Vec::new(alloc);
    let mut machine = first;
    let mut wanted = Limit::All;
    let mut left = most;
    'searching: loop {
        let Some(fewer) = left_after(clauses, &machine, left) else {
            return Ok(None);
        };
        left = fewer;
        if !go_on(
            alloc,
            clauses,
            asked,
            paths,
            &mut machine,
            &mut points,
            &mut outs,
            &mut wanted,
        )? {
            return Ok(Some(outs));
        }
    }
}
