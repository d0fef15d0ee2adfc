//! One choice of a branch.

ghost use Rattle.std.specs.Prelude.{◌≡◌, ◌≤◌, ◌-◌, ◌^◌, ◌<◌, ◌++◌, [], ◌∷◌, IfOk, length, map};
ghost use Rattle.ap_defs.specs.Goals.{Clauses, clause_of, goal_of, program_in};
ghost use Rattle.ap_defs.specs.Renaming.{AreBelow, IsGoalBelow, rename_goal, rename_term as renamed};
ghost use Rattle.ap_defs.specs.Terms.{term_of};
ghost use Rattle.ap_defs.specs.Types.{locals_of};
ghost use Rattle.ap_search.specs.Records.{Answering};
ghost use Rattle.ap_machine.specs.Unbound.{answer_by_unbound};
ghost use Rattle.ap_search.specs.FitStates.{AreFitClauses};
ghost use Rattle.ap_search.specs.Marks.{mark_path};
ghost use Rattle.ap_search.specs.Prefixes.{beginning};
ghost use Rattle.ap_machine.specs.Below.{AreClausesBelow};
ghost use Rattle.ap_turns.specs.Standings.{IsChoiceAt, IsChoosing, marks_of_standing, path_of_standing};
ghost use Rattle.ap_turns.specs.Marks.{IsAmongWays, choice_of_goal, clauses_marks, goal_marks, marks_from};
ghost use Rattle.ap_machine.specs.Machines.{next_of, position_of};
ghost use Rattle.ap_machine.specs.Positions.{with_choice, with_goal};

use crate::standing::advance;
use ap_defs::goals::{Clause, Goal, Local};
use ap_defs::memory::Memory;
use ap_defs::terms::Term;
use ap_index::predicate::Predicate;
use ap_machine::frames::Frame;
use ap_machine::machine::Machine;
use ap_turns::clauses::{clauses_at, enter_clause};
use ap_turns::standing::Standing;
use std::alloc::Global;

/// The search failed after one more choice.
fn failed_after<'a>(path: Vec<u32>, choice: u32) -> Result<Standing<'a>, Memory>
    ensures marks { IfOk result (λ s. (program : Clauses) (answering : Answering) →
        marks_of_standing program answering s ≡ []) }
    ensures path { IfOk result (λ s. path_of_standing s ≡ path.items ++ choice ∷ []) }
    ensures choosing { IfOk result (λ s. (program : Clauses) → IsChoosing program s) }
{
    let mut longer = path;
    longer.push(choice)?;
    Ok(Standing::Failed(longer))
}

/// Where the search stands once an atom has chosen one of the clauses.
fn choose_clause<'a>(
    alloc: Global,
    clauses: &'a [Predicate<'a>],
    locals: &[Local],
    machine: Machine<'a>,
    frame: Frame<'a>,
    args: &'a [Term],
    candidates: &'a [Clause<Term>],
    choice: u32,
) -> Result<Standing<'a>, Memory>
    requires clauses { AreClausesBelow (program_in clauses.now) }
    requires locals { length locals.now < 2 ^ 64 }
    requires args { AreBelow (next_of machine) (map (renamed frame.base) (map term_of args.now)) }
    requires below { AreFitClauses (map clause_of candidates.now) }
    requires depth { 1 ≤ frame.depth }
    requires low { 1 ≤ choice }
    requires high { choice ≤ length candidates.now }
    ensures marks { IfOk result (λ s. marks_of_standing (program_in clauses.now)
        (answer_by_unbound (locals_of locals.now)) s
        ≡ beginning mark_path (machine.entry.path.items ++ choice ∷ []) (clauses_marks
        (program_in clauses.now) (answer_by_unbound (locals_of locals.now))
        (frame.entry.depth - 1) (map (renamed frame.entry.base) (map term_of args.now))
        (map clause_of candidates.now)
        (position_of machine.entry))) }
    ensures path { IfOk result (λ s. path_of_standing s ≡ machine.entry.path.items ++ choice ∷ []) }
    ensures choosing { IfOk result (λ s. IsChoosing (program_in clauses.now) s) }
{
    let mut here = machine;
    let clause = &candidates[choice as usize - 1];
    if enter_clause(
        alloc,
        &mut here,
        args,
        frame.base,
        frame.depth - 1,
        choice,
        clause,
    )? {
        let standing = advance(alloc, clauses, locals, here)?;
        Ok(standing)
    } else {
        let standing = failed_after(here.into_path(), choice)?;
        Ok(standing)
    }
}

/// Where the search stands once a disjunction has chosen a side.
fn choose_side<'a>(
    alloc: Global,
    clauses: &'a [Predicate<'a>],
    locals: &[Local],
    machine: Machine<'a>,
    frame: Frame<'a>,
    side: &'a Goal<Term>,
    choice: u32,
) -> Result<Standing<'a>, Memory>
    requires clauses { AreClausesBelow (program_in clauses.now) }
    requires locals { length locals.now < 2 ^ 64 }
    requires below { IsGoalBelow (next_of machine) (rename_goal frame.base (goal_of side.now)) }
    ensures marks { IfOk result (λ s. marks_of_standing (program_in clauses.now)
        (answer_by_unbound (locals_of locals.now)) s
        ≡ marks_from (program_in clauses.now) (answer_by_unbound (locals_of locals.now))
        (with_goal frame.entry.depth (rename_goal frame.entry.base (goal_of side.now)) (with_choice choice
        (position_of machine.entry)))) }
    ensures path { IfOk result (λ s. path_of_standing s ≡ machine.entry.path.items ++ choice ∷ []) }
    ensures choosing { IfOk result (λ s. IsChoosing (program_in clauses.now) s) }
{
    let mut here = machine;
    here.push_choice(choice)?;
    here.push_goal(side, frame.base, frame.depth)?;
    let standing = advance(alloc, clauses, locals, here)?;
    Ok(standing)
}

/// Where the search stands once the goal of a frame has chosen, from a machine in which the others wait.
fn choose_by<'a>(
    alloc: Global,
    clauses: &'a [Predicate<'a>],
    locals: &[Local],
    frame: Frame<'a>,
    machine: Machine<'a>,
    choice: u32,
) -> Result<Standing<'a>, Memory>
    requires clauses { AreClausesBelow (program_in clauses.now) }
    requires locals { length locals.now < 2 ^ 64 }
    requires goal { IsGoalBelow (next_of machine) (rename_goal frame.base
        (goal_of frame.goal.now)) }
    requires choice { IsAmongWays choice (choice_of_goal (program_in clauses.now) frame.depth
        (rename_goal frame.base (goal_of frame.goal.now))) }
    ensures marks { IfOk result (λ s. marks_of_standing (program_in clauses.now)
        (answer_by_unbound (locals_of locals.now)) s
        ≡ beginning mark_path (machine.entry.path.items ++ choice ∷ []) (goal_marks
        (program_in clauses.now) (answer_by_unbound (locals_of locals.now))
        frame.entry.depth (rename_goal frame.entry.base (goal_of frame.entry.goal.now)) (position_of machine.entry))) }
    ensures path { IfOk result (λ s. path_of_standing s ≡ machine.entry.path.items ++ choice ∷ []) }
    ensures choosing { IfOk result (λ s. IsChoosing (program_in clauses.now) s) }
{
    match frame.goal {
        Goal::Atom(pred, args) => {
            let candidates = clauses_at(clauses, *pred);
            choose_clause(
                alloc,
                clauses,
                locals,
                machine,
                frame,
                args.items(),
                candidates,
                choice,
            )
        }
        Goal::Either(left, right) => {
            if choice == 1 {
                choose_side(alloc, clauses, locals, machine, frame, left, 1)
            } else {
                choose_side(alloc, clauses, locals, machine, frame, right, 2)
            }
        }
        Goal::True => unreachable!(),
        Goal::Equal(_, _) => unreachable!(),
        Goal::Fresh(_, _) => unreachable!(),
        Goal::Both(_, _) => unreachable!(),
        Goal::Exists(_, _) => unreachable!(),
        Goal::New(_, _) => unreachable!(),
    }
}

/// Where the search stands once it has chosen, run up to its next choice or its end.
pub fn choose<'a>(
    alloc: Global,
    clauses: &'a [Predicate<'a>],
    locals: &[Local],
    standing: Standing<'a>,
    choice: u32,
) -> Result<Standing<'a>, Memory>
    requires clauses { AreClausesBelow (program_in clauses.now) }
    requires locals { length locals.now < 2 ^ 64 }
    requires choosing { IsChoosing (program_in clauses.now) standing }
    requires choice { IsChoiceAt choice standing }
    ensures marks { IfOk result (λ s. marks_of_standing (program_in clauses.now)
        (answer_by_unbound (locals_of locals.now)) s
        ≡ beginning mark_path (path_of_standing standing.entry ++ choice ∷ []) (marks_of_standing
        (program_in clauses.now) (answer_by_unbound (locals_of locals.now)) standing.entry)) }
    ensures path { IfOk result (λ s. path_of_standing s
        ≡ path_of_standing standing.entry ++ choice ∷ []) }
    ensures choosing { IfOk result (λ s. IsChoosing (program_in clauses.now) s) }
{
    match standing {
        Standing::Choosing(_, machine) => {
            let mut here = machine;
            match here.pop_goal() {
                None => unreachable!(),
                Some(frame) => choose_by(alloc, clauses, locals, frame, here, choice),
            }
        }
        Standing::Ended(_) => unreachable!(),
        Standing::Failed(_) => unreachable!(),
    }
}
