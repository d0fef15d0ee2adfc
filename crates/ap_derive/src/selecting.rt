//! The goals that are selected along a path.

ghost use Rattle.std.specs.Prelude.{◌≡◌, ℕ, ◌∷◌, None, Some, IfOk, List as list, OnOk, map};
ghost use Rattle.std.specs.Option.{option_map};
ghost use Rattle.ap_defs.specs.Goals.{Clauses, atom as atom_goal, either, goal_of, program_in};
ghost use Rattle.ap_defs.specs.Renaming.{AreBelow, IsGoalBelow, rename_goal};
ghost use Rattle.ap_machine.specs.Below.{AreClausesBelow};
ghost use Rattle.ap_machine.specs.Machines.{next_of, position_of};
ghost use Rattle.ap_machine.specs.Positions.{with_goal};
ghost use Rattle.ap_derive.specs.Nodes.{DerivationNode, selected_node};
ghost use Rattle.ap_derive.specs.Solved.{HasOneMoreChoice, IsSolved, Selects, frame_goal, node_of_goal, raised, rest_of, solved_at, with_frame};

use crate::nodes::{SelectedGoal, selected_atom};
use ap_defs::goals::Goal;
use ap_defs::memory::Memory;
use ap_defs::terms::{Name, Term, Var};
use ap_index::predicate::Predicate;
use ap_machine::frames::Frame;
use ap_machine::machine::Machine;
use ap_turns::clauses::{clauses_at, enter_clause};
use ap_turns::turns::{Turn, turn_of_goal};
use std::alloc::Global;

/// The choice of the path that follows those on the way to the machine.
fn next_choice(machine: &Machine<'_>, path: &[u32]) -> u32
    requires { HasOneMoreChoice path.now (position_of machine.now) }
    ensures { (rest : list ℕ) × (rest_of path.now (position_of machine.now) ≡ result ∷ rest) }
{
    path[machine.path.len()]
}

/// Takes the turn of the goal of a frame, which does not choose, from a machine in which the others
/// wait, where all of them are solved along some path.
fn settle<'a>(
    alloc: Global,
    clauses: &'a [Predicate<'a>],
    frame: Frame<'a>,
    machine: &mut Machine<'a>,
) -> Result<(), Memory>
    requires goal { IsGoalBelow (next_of machine.old) (frame_goal frame) }
    requires settled { (n : DerivationNode) × (node_of_goal (frame_goal frame) ≡ Some n) }
    requires solved { (path : list ℕ) ×
        IsSolved (program_in clauses.now) path (with_frame frame (position_of machine.old)) }
    ensures { OnOk result ((path : list ℕ) (n : DerivationNode) →
        node_of_goal (frame_goal frame.entry) ≡ Some n →
        Selects (program_in clauses.now) path
        (with_frame frame.entry (position_of machine.old)) n (position_of machine.new)) }
{
    match turn_of_goal(alloc, clauses, frame, machine)? {
        Turn::Goes => Ok(()),
        Turn::Fails => unreachable!(),
        Turn::Ends(_) => unreachable!(),
    }
}

/// The node of the goal of a frame, whose numbers are below `next`, or none where it chooses.
fn settled_goal(frame: &Frame<'_>, next: u64) -> Option<SelectedGoal>
    requires { IsGoalBelow next (frame_goal frame.now) }
    ensures { option_map selected_node result ≡ node_of_goal (frame_goal frame.now) }
{
    let base = frame.base;
    match frame.goal {
        Goal::True => Some(SelectedGoal::True),
        Goal::Equal(_, _) => Some(SelectedGoal::Equal),
        Goal::Fresh(_, _) => Some(SelectedGoal::Fresh),
        Goal::Both(_, _) => Some(SelectedGoal::Both),
        Goal::Exists(x, _) => Some(SelectedGoal::Exists(Var { num: base + x.num })),
        Goal::New(a, _) => Some(SelectedGoal::New(Name {
            sort: a.sort,
            num: base + a.num,
        })),
        Goal::Atom(_, _) => None,
        Goal::Either(_, _) => None,
    }
}

/// Selects an atom, from a machine in which the others wait, with the clause of the path's next
/// choice.
fn select_clause<'a>(
    alloc: Global,
    clauses: &'a [Predicate<'a>],
    frame: Frame<'a>,
    pred: u32,
    args: &'a [Term],
    machine: &mut Machine<'a>,
    path: &[u32],
) -> Result<SelectedGoal, Memory>
    requires clauses { AreClausesBelow (program_in clauses.now) }
    requires args { AreBelow (next_of machine.old) (raised frame.base args.now) }
    requires solved { IsSolved (program_in clauses.now) path.now
        (with_goal frame.depth (atom_goal pred (raised frame.base args.now))
        (position_of machine.old)) }
    ensures { IfOk result (λ n. Selects (program_in clauses.now) path.now
        (with_goal frame.entry.depth (atom_goal pred (raised frame.entry.base args.now))
        (position_of machine.old))
        (selected_node n) (position_of machine.new)) }
{
    let choice = next_choice(machine, path);
    let candidates = clauses_at(clauses, pred);
    let clause = &candidates[choice as usize - 1];
    let base = machine.store.next();
    if enter_clause(
        alloc,
        machine,
        args,
        frame.base,
        frame.depth - 1,
        choice,
        clause,
    )? {
        selected_atom(alloc, choice, base, clause.locals.items())
    } else {
        unreachable!()
    }
}

/// Selects a disjunction, from a machine in which the others wait, with the side of the path's next
/// choice.
fn select_side<'a>(
    frame: Frame<'a>,
    left: &'a Goal<Term>,
    right: &'a Goal<Term>,
    machine: &mut Machine<'a>,
    path: &[u32],
) -> Result<SelectedGoal, Memory>
    requires left { IsGoalBelow (next_of machine.old) (rename_goal frame.base (goal_of left.now)) }
    requires right { IsGoalBelow (next_of machine.old) (rename_goal frame.base
        (goal_of right.now)) }
    requires solved { (program : Clauses) × IsSolved program path.now
        (with_goal frame.depth
        (either (rename_goal frame.base (goal_of left.now))
        (rename_goal frame.base (goal_of right.now)))
        (position_of machine.old)) }
    ensures { IfOk result (λ n. (program : Clauses) → Selects program path.now
        (with_goal frame.entry.depth
        (either (rename_goal frame.entry.base (goal_of left.now))
        (rename_goal frame.entry.base (goal_of right.now)))
        (position_of machine.old))
        (selected_node n) (position_of machine.new)) }
{
    if next_choice(machine, path) == 1 {
        machine.push_choice(1)?;
        machine.push_goal(left, frame.base, frame.depth)?;
        Ok(SelectedGoal::Left)
    } else {
        machine.push_choice(2)?;
        machine.push_goal(right, frame.base, frame.depth)?;
        Ok(SelectedGoal::Right)
    }
}

/// Selects the goal of a frame, which chooses, from a machine in which the others wait, as the path
/// has it: all of them are solved along the path.
fn select_choice<'a>(
    alloc: Global,
    clauses: &'a [Predicate<'a>],
    frame: Frame<'a>,
    machine: &mut Machine<'a>,
    path: &[u32],
) -> Result<SelectedGoal, Memory>
    requires clauses { AreClausesBelow (program_in clauses.now) }
    requires goal { IsGoalBelow (next_of machine.old) (frame_goal frame) }
    requires choosing { node_of_goal (frame_goal frame) ≡ None }
    requires solved { IsSolved (program_in clauses.now) path.now
        (with_frame frame (position_of machine.old)) }
    ensures { IfOk result (λ n. Selects (program_in clauses.now) path.now (with_frame frame.entry
        (position_of machine.old)) (selected_node n) (position_of machine.new)) }
{
    match frame.goal {
        Goal::Atom(pred, args) => {
            select_clause(alloc, clauses, frame, *pred, args.items(), machine, path)
        }
        Goal::Either(left, right) => select_side(frame, left, right, machine, path),
        Goal::True => unreachable!(),
        Goal::Equal(_, _) => unreachable!(),
        Goal::Fresh(_, _) => unreachable!(),
        Goal::Both(_, _) => unreachable!(),
        Goal::Exists(_, _) => unreachable!(),
        Goal::New(_, _) => unreachable!(),
    }
}

/// Selects the goal of a frame, from a machine in which the others wait, as the path has it: all of
/// them are solved along the path.
fn select<'a>(
    alloc: Global,
    clauses: &'a [Predicate<'a>],
    frame: Frame<'a>,
    machine: &mut Machine<'a>,
    path: &[u32],
) -> Result<SelectedGoal, Memory>
    requires clauses { AreClausesBelow (program_in clauses.now) }
    requires goal { IsGoalBelow (next_of machine.old) (frame_goal frame) }
    requires solved { IsSolved (program_in clauses.now) path.now
        (with_frame frame (position_of machine.old)) }
    ensures { IfOk result (λ n. Selects (program_in clauses.now) path.now (with_frame frame.entry
        (position_of machine.old)) (selected_node n) (position_of machine.new)) }
{
    match settled_goal(&frame, machine.store.next()) {
        Some(selected) => {
            settle(alloc, clauses, frame, machine)?;
            Ok(selected)
        }
        None => select_choice(alloc, clauses, frame, machine, path),
    }
}

/// The goals that are selected from a machine along a path, in order; the machine is then where they
/// lead.
pub fn select_along<'a>(
    alloc: Global,
    clauses: &'a [Predicate<'a>],
    machine: &mut Machine<'a>,
    path: &[u32],
) -> Result<Vec<SelectedGoal>, Memory>
    requires clauses { AreClausesBelow (program_in clauses.now) }
    requires solved { IsSolved (program_in clauses.now) path.now (position_of machine.old) }
    ensures { IfOk result (λ v. solved_at (program_in clauses.now) path.now
        (position_of machine.old)
        ≡ Some (record
        { state = (position_of machine.new).state; nodes = map selected_node v.items; rest = rest_of path.now (position_of machine.new) })) }
{
    let mut all = Vec::new(alloc);
    'selecting: while let Some(frame) = machine.pop_goal() {
        let selected = select(alloc, clauses, frame, machine, path)?;
        all.push(selected)?;
    }
    Ok(all)
}
