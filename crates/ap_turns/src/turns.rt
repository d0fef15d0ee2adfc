//! What the first goal that waits makes of a machine, where it does not choose.

ghost use Rattle.std.specs.Prelude.{◌≡◌, ◌<◌, ◌^◌, [], if◌then◌else◌, None, IfOk, OnOk, length};
ghost use Rattle.ap_defs.specs.Answers.{found as found_at};
ghost use Rattle.ap_defs.specs.Goals.{both, equal, exists, fresh, goal_of, new, program_in};
ghost use Rattle.ap_defs.specs.Renaming.{IsBelow, IsGoalBelow, rename_goal, rename_name, rename_term as renamed, rename_var};
ghost use Rattle.ap_defs.specs.Terms.{term_of};
ghost use Rattle.ap_defs.specs.Types.{locals_of};
ghost use Rattle.ap_turns.specs.Ends.{end_out};
ghost use Rattle.ap_turns.specs.Marks.{choice_of, choice_of_goal};
ghost use Rattle.ap_machine.specs.Asking.{answering_of};
ghost use Rattle.ap_machine.specs.Machines.{next_of, position_of, track_of};
ghost use Rattle.ap_turns.specs.Turned.{turned_of};
ghost use Rattle.ap_machine.specs.Positions.{turned, turned_goal};
ghost use Rattle.ap_machine.specs.Tracks.{GoesFrom};
ghost use Rattle.ap_machine.specs.Unbound.{answer_by_unbound};

use crate::ends::End;
use ap_defs::goals::{Goal, Local};
use ap_defs::memory::Memory;
use ap_defs::terms::{Name, Term, Var};
use ap_index::predicate::Predicate;
use ap_machine::answers::answer_to;
use ap_machine::asked::Asked;
use ap_machine::frames::Frame;
use ap_machine::free_vars::free_vars_of;
use ap_machine::machine::Machine;
use ap_perm::closures::{Closure, Opened};
use ap_unify::fresh::{make_fresh, make_fresh_for_each};
use ap_unify::terms::Terms;
use ap_unify::unify::unify;
use std::alloc::Global;
use std::slice;

/// A search goes on from the machine, fails there, or ends.
#[derive(Drop)]
pub enum Turn {
    Goes,
    Fails,
    Ends(End),
}

/// The search goes on where something has a solution.
fn goes_where(solved: bool) -> Turn
    ensures { result ≡ (if solved then Turn.Goes else Turn.Fails) }
{
    if solved { Turn::Goes } else { Turn::Fails }
}

/// The turn of an equation.
fn turn_of_equation<'a>(
    alloc: Global,
    machine: &mut Machine<'a>,
    base: u64,
    t: &'a Term,
    u: &'a Term,
) -> Result<Turn, Memory>
    requires left { IsBelow (next_of machine.old) (renamed base (term_of t.now)) }
    requires right { IsBelow (next_of machine.old) (renamed base (term_of u.now)) }
    ensures turned { IfOk result (λ r. turned_of r (position_of machine.new)
        ≡ turned_goal [] 0 (equal (renamed base (term_of t.now)) (renamed base (term_of u.now)))
        (position_of machine.old)) }
    ensures goes { OnOk result (GoesFrom (track_of machine.old) (track_of machine.new)) }
{
    let end = machine.store.next();
    let left = Terms {
        base,
        end,
        terms: slice::from_ref(t),
    };
    let right = Terms {
        base,
        end,
        terms: slice::from_ref(u),
    };
    let solved = unify(alloc, &mut machine.store, &mut machine.work, left, right)?;
    Ok(goes_where(solved))
}

/// The turn of a freshness goal.
fn turn_of_fresh<'a>(
    alloc: Global,
    machine: &mut Machine<'a>,
    base: u64,
    t: &'a Term,
    u: &'a Term,
) -> Result<Turn, Memory>
    requires left { IsBelow (next_of machine.old) (renamed base (term_of t.now)) }
    requires right { IsBelow (next_of machine.old) (renamed base (term_of u.now)) }
    ensures turned { IfOk result (λ r. turned_of r (position_of machine.new)
        ≡ turned_goal [] 0 (fresh (renamed base (term_of t.now)) (renamed base (term_of u.now)))
        (position_of machine.old)) }
    ensures goes { OnOk result (GoesFrom (track_of machine.old) (track_of machine.new)) }
{
    let end = machine.store.next();
    let left = machine.store.follow(Closure::of(alloc, base, end, t))?;
    match left.open(alloc)? {
        Opened::Name(a) => {
            let right = Closure::of(alloc, base, end, u);
            let solved = make_fresh(alloc, &mut machine.store, a, &right)?;
            Ok(goes_where(solved))
        }
        Opened::Susp(_, _) => Ok(Turn::Ends(End::Stuck)),
        _ => Ok(Turn::Fails),
    }
}

/// The turn of a goal with a new name.
fn turn_of_new<'a>(
    alloc: Global,
    machine: &mut Machine<'a>,
    depth: u32,
    base: u64,
    a: Name,
    goal: &'a Goal<Term>,
) -> Result<Turn, Memory>
    requires { IsGoalBelow (next_of machine.old) (new (rename_name base a)
        (rename_goal base (goal_of goal.now))) }
    ensures turned { IfOk result (λ r. turned_of r (position_of machine.new)
        ≡ turned_goal [] depth (new (rename_name base a) (rename_goal base (goal_of goal.now)))
        (position_of machine.old)) }
    ensures goes { OnOk result (GoesFrom (track_of machine.old) (track_of machine.new)) }
{
    let vars = free_vars_of(alloc, base, goal)?;
    let fresh_name = Name {
        sort: a.sort,
        num: base + a.num,
    };
    let solved = make_fresh_for_each(alloc, &mut machine.store, fresh_name, &vars)?;
    machine.push_goal(goal, base, depth)?;
    Ok(goes_where(solved))
}

/// The turn of a goal that brings a variable.
fn turn_of_exists<'a>(
    machine: &mut Machine<'a>,
    depth: u32,
    base: u64,
    x: Var,
    goal: &'a Goal<Term>,
) -> Result<Turn, Memory>
    requires { IsGoalBelow (next_of machine.old) (exists (rename_var base x)
        (rename_goal base (goal_of goal.now))) }
    ensures turned { IfOk result (λ r. turned_of r (position_of machine.new)
        ≡ turned_goal [] depth (exists (rename_var base x) (rename_goal base (goal_of goal.now)))
        (position_of machine.old)) }
    ensures goes { OnOk result (GoesFrom (track_of machine.old) (track_of machine.new)) }
{
    machine.push_var(Var { num: base + x.num })?;
    machine.push_goal(goal, base, depth)?;
    Ok(Turn::Goes)
}

/// The turn of a conjunction.
fn turn_of_both<'a>(
    machine: &mut Machine<'a>,
    depth: u32,
    base: u64,
    left: &'a Goal<Term>,
    right: &'a Goal<Term>,
) -> Result<Turn, Memory>
    requires left { IsGoalBelow (next_of machine.old) (rename_goal base (goal_of left.now)) }
    requires right { IsGoalBelow (next_of machine.old) (rename_goal base (goal_of right.now)) }
    ensures turned { IfOk result (λ r. turned_of r (position_of machine.new)
        ≡ turned_goal [] depth (both (rename_goal base (goal_of left.now))
        (rename_goal base (goal_of right.now))) (position_of machine.old)) }
    ensures goes { OnOk result (GoesFrom (track_of machine.old) (track_of machine.new)) }
{
    machine.push_goal(right, base, depth)?;
    machine.push_goal(left, base, depth)?;
    Ok(Turn::Goes)
}

/// The turn of the goal of a frame, which does not choose, from a machine in which the others wait.
pub fn turn_of_goal<'a>(
    alloc: Global,
    clauses: &'a [Predicate<'a>],
    frame: Frame<'a>,
    machine: &mut Machine<'a>,
) -> Result<Turn, Memory>
    requires goal { IsGoalBelow (next_of machine.old) (rename_goal frame.base
        (goal_of frame.goal.now)) }
    requires settled { choice_of_goal (program_in clauses.now) frame.depth (rename_goal
        frame.base (goal_of frame.goal.now)) ≡ None }
    ensures turned { IfOk result (λ r. turned_of r (position_of machine.new)
        ≡ turned_goal (program_in clauses.now) frame.entry.depth (rename_goal
        frame.entry.base (goal_of frame.entry.goal.now)) (position_of machine.old)) }
    ensures goes { OnOk result (GoesFrom (track_of machine.old) (track_of machine.new)) }
{
    let Frame { goal, base, depth } = frame;
    match goal {
        Goal::True => Ok(Turn::Goes),
        Goal::Equal(t, u) => turn_of_equation(alloc, machine, base, t, u),
        Goal::Fresh(t, u) => turn_of_fresh(alloc, machine, base, t, u),
        Goal::Both(g, h) => turn_of_both(machine, depth, base, g, h),
        Goal::Exists(x, g) => turn_of_exists(machine, depth, base, *x, g),
        Goal::New(a, g) => turn_of_new(alloc, machine, depth, base, *a, g),
        Goal::Atom(_, _) => {
            prove!(depth == 0);
            Ok(Turn::Ends(End::Cut))
        }
        Goal::Either(_, _) => unreachable!(),
    }
}

/// The end at a machine in which no goal waits.
pub fn found<'a>(alloc: Global, asked: &Asked<'_>, machine: &Machine<'a>) -> Result<End, Memory>
    ensures { IfOk result (λ e. end_out machine.now.path.items e
        ≡ found_at machine.now.path.items (answering_of asked.now
        (position_of machine.now).state (position_of machine.now).brought)) }
{
    let answer = answer_to(
        alloc,
        asked,
        &machine.store,
        &machine.look,
        &machine.brought,
    )?;
    Ok(End::Found(answer))
}

/// One turn of the search of a query with these identifiers: the first goal that waits, which does
/// not choose, is taken, or the state is found where none waits.
pub fn take_turn<'a>(
    alloc: Global,
    clauses: &'a [Predicate<'a>],
    locals: &[Local],
    machine: &mut Machine<'a>,
) -> Result<Turn, Memory>
    requires settled { choice_of (program_in clauses.now) (position_of machine.old).waiting
        ≡ None }
    requires locals { length locals.now < 2 ^ 64 }
    ensures turned { IfOk result (λ r. turned_of r (position_of machine.new)
        ≡ turned (program_in clauses.now) (answer_by_unbound (locals_of locals.now))
        (position_of machine.old)) }
    ensures goes { OnOk result (GoesFrom (track_of machine.old) (track_of machine.new)) }
{
    match machine.pop_goal() {
        None => {
            let asked = Asked::of(alloc, locals)?;
            let end = found(alloc, &asked, machine)?;
            Ok(Turn::Ends(end))
        }
        Some(frame) => turn_of_goal(alloc, clauses, frame, machine),
    }
}
