//! The ways of a choice: one is taken, and the others are kept.

ghost use Rattle.std.specs.Prelude.{◌≡◌, ℕ, ◌<◌, ◌≤◌, ◌++◌, [], ◌∷◌, false, true, None, Some, IfOk, OnOk, length};
ghost use Rattle.ap_defs.specs.Goals.{either, goal_of, program_in};
ghost use Rattle.ap_defs.specs.Renaming.{IsGoalBelow, rename_goal};
ghost use Rattle.ap_machine.specs.Below.{AreClausesBelow};
ghost use Rattle.ap_turns.specs.Marks.{choice_of_goal};
ghost use Rattle.ap_machine.specs.Machines.{next_of, position_of};
ghost use Rattle.ap_backchain.specs.ChoicePoints.{IsFitRest, positions_left};
ghost use Rattle.ap_machine.specs.Positions.{turned_goal};
ghost use Rattle.ap_backchain.specs.Searches.{HasPoints, positions_followed, pending_positions, positions_with};

use crate::points::{ChoicePoint, Rest, Untried};
use ap_defs::goals::Goal;
use ap_defs::memory::Memory;
use ap_defs::terms::Term;
use ap_index::predicate::Predicate;
use ap_machine::frames::Frame;
use ap_machine::machine::Machine;
use ap_machine::saves::Save;
use ap_turns::clauses::{candidates_at, enter_clause};
use ap_turns::heads::key_of_atom;
use std::alloc::Global;

/// Keeps the clauses of an atom that follow the one that was entered, if there are any.
fn keep_rest<'a>(
    points: &mut Vec<ChoicePoint<'a>>,
    save: Save,
    untried: Untried<'a>,
    tried: usize,
) -> Result<(), Memory>
    ensures kept { OnOk result (tried < length untried.entry.clauses.now →
        points.new.items
        ≡ points.old.items
        ++ record { save = save; rest = Rest.Clauses (record untried.entry { tried = tried }) }
        ∷ []) }
    ensures none { OnOk result (length untried.entry.clauses.now ≤ tried →
        points.new.items ≡ points.old.items) }
{
    if tried < untried.clauses.clauses().len() {
        let rest = Rest::Clauses(Untried { tried, ..untried });
        points.push(ChoicePoint { save, rest })?;
    }
    Ok(())
}

/// Enters the first of the clauses of an atom that are left for which that has a solution, and keeps
/// the ones that follow. It answers whether there is one; where not, all is as before.
fn try_clauses<'a>(
    alloc: Global,
    machine: &mut Machine<'a>,
    points: &mut Vec<ChoicePoint<'a>>,
    untried: Untried<'a>,
) -> Result<bool, Memory>
    requires rest { IsFitRest (next_of machine.old) (Rest.Clauses untried) }
    requires points { HasPoints machine.old points.old }
    ensures left { IfOk result (λ b. positions_with b machine.new points.new
        ≡ positions_left (Rest.Clauses untried.entry) (position_of machine.old)
        ++ pending_positions machine.old points.old) }
    ensures points { OnOk result (HasPoints machine.new points.new) }
    ensures none { IfOk result (λ b. b ≡ false → points.new.items ≡ points.old.items) }
{
    let save = machine.save();
    let Untried {
        args,
        base,
        depth,
        clauses: predicate,
        tried,
    } = untried;
    let clauses = predicate.clauses();
    let key = key_of_atom(alloc, &machine.store, args, base);
    let mut i = predicate.next(key, tried);
    'trying: while i < clauses.len() {
        let next = predicate.next(key, i + 1);
        let choice = i as u32 + 1;
        if enter_clause(alloc, machine, args, base, depth, choice, &clauses[i])? {
            keep_rest(points, save, untried, next)?;
            return Ok(true);
        }
        i = next;
    }
    Ok(false)
}

/// Goes on by the left side of a disjunction, and keeps the right side.
fn take_left<'a>(
    machine: &mut Machine<'a>,
    points: &mut Vec<ChoicePoint<'a>>,
    frame: Frame<'a>,
    left: &'a Goal<Term>,
    right: &'a Goal<Term>,
) -> Result<(), Memory>
    requires left { IsGoalBelow (next_of machine.old) (rename_goal frame.base (goal_of left.now)) }
    requires right { IsGoalBelow (next_of machine.old) (rename_goal frame.base
        (goal_of right.now)) }
    requires points { HasPoints machine.old points.old }
    ensures left { OnOk result (positions_with true machine.new points.new
        ≡ positions_followed (turned_goal [] frame.entry.depth (either (rename_goal frame.entry.base
        (goal_of left.now)) (rename_goal frame.entry.base (goal_of right.now)))
        (position_of machine.old)) (pending_positions machine.old points.old)) }
    ensures points { OnOk result (HasPoints machine.new points.new) }
{
    let save = machine.save();
    machine.push_choice(1)?;
    machine.push_goal(left, frame.base, frame.depth)?;
    let rest = Rest::Right(Frame {
        goal: right,
        ..frame
    });
    points.push(ChoicePoint { save, rest })?;
    Ok(())
}

/// Goes on by the first way of the goal of a frame, from a machine in which the others wait, and keeps
/// the other ways. It answers whether there is a way.
pub fn choose_by<'a>(
    alloc: Global,
    clauses: &'a [Predicate<'a>],
    frame: Frame<'a>,
    machine: &mut Machine<'a>,
    points: &mut Vec<ChoicePoint<'a>>,
) -> Result<bool, Memory>
    requires clauses { AreClausesBelow (program_in clauses.now) }
    requires goal { IsGoalBelow (next_of machine.old) (rename_goal frame.base
        (goal_of frame.goal.now)) }
    requires choosing { (w : ℕ)
        × (choice_of_goal (program_in clauses.now) frame.depth (rename_goal frame.base
        (goal_of frame.goal.now)) ≡ Some w) }
    requires points { HasPoints machine.old points.old }
    ensures left { IfOk result (λ b. positions_with b machine.new points.new
        ≡ positions_followed (turned_goal (program_in clauses.now) frame.entry.depth (rename_goal
        frame.entry.base (goal_of frame.entry.goal.now)) (position_of machine.old))
        (pending_positions machine.old points.old)) }
    ensures points { OnOk result (HasPoints machine.new points.new) }
{
    match frame.goal {
        Goal::Atom(pred, args) => match candidates_at(clauses, *pred) {
            None => Ok(false),
            Some(candidates) => {
                let untried = Untried {
                    args: args.items(),
                    base: frame.base,
                    depth: frame.depth - 1,
                    clauses: candidates,
                    tried: 0,
                };
                try_clauses(alloc, machine, points, untried)
            }
        },
        Goal::Either(left, right) => {
            take_left(machine, points, frame, left, right)?;
            Ok(true)
        }
        Goal::True => unreachable!(),
        Goal::Equal(_, _) => unreachable!(),
        Goal::Fresh(_, _) => unreachable!(),
        Goal::Both(_, _) => unreachable!(),
        Goal::Exists(_, _) => unreachable!(),
        Goal::New(_, _) => unreachable!(),
    }
}

/// Goes on by one of the ways that a choice has left, from where the search had come there. It
/// answers whether there is one.
fn go_on_by<'a>(
    alloc: Global,
    machine: &mut Machine<'a>,
    points: &mut Vec<ChoicePoint<'a>>,
    rest: Rest<'a>,
) -> Result<bool, Memory>
    requires rest { IsFitRest (next_of machine.old) rest }
    requires points { HasPoints machine.old points.old }
    ensures left { IfOk result (λ b. positions_with b machine.new points.new
        ≡ positions_left rest.entry (position_of machine.old)
        ++ pending_positions machine.old points.old) }
    ensures points { OnOk result (HasPoints machine.new points.new) }
    ensures none { IfOk result (λ b. b ≡ false → points.new.items ≡ points.old.items) }
{
    match rest {
        Rest::Clauses(untried) => try_clauses(alloc, machine, points, untried),
        Rest::Right(frame) => {
            machine.push_choice(2)?;
            machine.push_goal(frame.goal, frame.base, frame.depth)?;
            Ok(true)
        }
    }
}

/// Goes back to the latest choice that has a way left, and goes on by it. It answers whether there is
/// one.
pub fn resume<'a>(
    alloc: Global,
    machine: &mut Machine<'a>,
    points: &mut Vec<ChoicePoint<'a>>,
) -> Result<bool, Memory>
    requires points { HasPoints machine.old points.old }
    ensures left { IfOk result (λ b. positions_with b machine.new points.new
        ≡ pending_positions machine.old points.old) }
    ensures points { OnOk result (HasPoints machine.new points.new) }
    ensures none { IfOk result (λ b. b ≡ false → points.new.items ≡ []) }
{
    'resuming: while let Some(ChoicePoint { save, rest }) = points.pop() {
        machine.go_back(save);
        if go_on_by(alloc, machine, points, rest)? {
            return Ok(true);
        }
    }
    Ok(false)
}
