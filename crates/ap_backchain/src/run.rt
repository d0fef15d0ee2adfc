//! Whole searches.

ghost use Rattle.std.specs.Prelude.{◌≡◌, ◌<◌, ◌≤◌, ◌++◌, ◌∷◌, [], false, true, None, Some, IfOk, IfSome, OnOk, map};
ghost use Rattle.ap_defs.specs.Answers.{out_of, outs_of};
ghost use Rattle.ap_defs.specs.Goals.{goal_of, program_in, query_of};
ghost use Rattle.ap_defs.specs.Renaming.{IsGoalBelow, rename_goal};
ghost use Rattle.ap_machine.specs.Asking.{answering_of};
ghost use Rattle.ap_machine.specs.Unbound.{answer_by_unbound};
ghost use Rattle.ap_machine.specs.Below.{AreClausesBelow, IsQueryBelow};
ghost use Rattle.ap_turns.specs.Ends.{end_out};
ghost use Rattle.ap_backchain.specs.Ends.{kept_out};
ghost use Rattle.ap_machine.specs.Machines.{next_of, position_of};
ghost use Rattle.ap_machine.specs.Positions.{outs_from, turned, turned_goal};
ghost use Rattle.ap_backchain.specs.Searches.{HasPoints, ended_outs, positions_followed, pending_positions, positions_with};
ghost use Rattle.ap_backchain.specs.Starts.{first_position};
ghost use Rattle.ap_backchain.specs.Turns.{few_turns, is_wide, query_turns, turns_from};
ghost use Rattle.ap_backchain.specs.Wanted as limits;
ghost use Rattle.ap_paths.specs.Limits.{part};

use crate::choices::is_choosing;
use crate::letting_go::let_go;
use crate::points::ChoicePoint;
use crate::wanted::{is_wanting, wanted_after};
use crate::ways::{choose_by, resume};
use ap_defs::goals::Query;
use ap_defs::memory::Memory;
use ap_defs::paths::Out;
use ap_defs::terms::Term;
use ap_index::predicate::Predicate;
use ap_machine::asked::Asked;
use ap_machine::frames::Frame;
use ap_machine::machine::Machine;
use ap_machine::saves::Save;
use ap_paths::Limit;
use ap_store::store::{Mark, Store};
use ap_turns::ends::{End, out_at};
use ap_turns::turns::{Turn, found, turn_of_goal};
use std::alloc::Global;

/// Whether outputs have their paths, which take memory for each.
#[derive(Clone, Copy)]
pub enum Paths {
    Kept,
    Left,
}

// A search of so many turns is over in less than a millisecond, sooner than several workers share it
// out.
const FEW_TURNS: u64 = 2_048;

// Workers go their ways again, so sharing pays only where a search makes more turns than this for each
// choice of its longest way.
const TURNS_A_CHOICE: u64 = 8;

/// The machine where the search of a query to a depth begins, whose answers look at the variables that were brought, or
/// don't.
fn beginning<'a>(
    alloc: Global,
    depth: u32,
    query: &'a Query<Term>,
    looks: bool,
) -> Result<Machine<'a>, Memory>
    requires { IsQueryBelow (query_of query.now) }
    ensures { IfOk result (λ b. position_of b ≡ first_position depth (query_of query.now)) }
{
    let mut store = Store::new(alloc);
    store.make(query.locals.items())?;
    let mut machine = Machine::of(alloc, store, looks);
    machine.push_goal(&query.goal, 0, depth)?;
    Ok(machine)
}

/// The machine where the search of a query to a depth begins.
pub fn first_machine<'a>(
    alloc: Global,
    depth: u32,
    query: &'a Query<Term>,
) -> Result<Machine<'a>, Memory>
    requires { IsQueryBelow (query_of query.now) }
    ensures { IfOk result (λ b. position_of b ≡ first_position depth (query_of query.now)) }
{
    beginning(alloc, depth, query, true)
}

/// The machine where a search begins, as `first_machine`, which is asked for bindings and conditions alone: what was
/// brought needs no look.
pub fn machine_alone<'a>(
    alloc: Global,
    depth: u32,
    query: &'a Query<Term>,
) -> Result<Machine<'a>, Memory>
    requires { IsQueryBelow (query_of query.now) }
    ensures { IfOk result (λ b. position_of b ≡ first_position depth (query_of query.now)) }
{
    beginning(alloc, depth, query, false)
}

/// The machine where the search of a query to a depth begins, in the memory of one that is done with.
pub fn machine_again<'a>(
    machine: Machine<'a>,
    depth: u32,
    query: &'a Query<Term>,
) -> Result<Machine<'a>, Memory>
    requires { IsQueryBelow (query_of query.now) }
    ensures { IfOk result (λ b. position_of b ≡ first_position depth (query_of query.now)) }
{
    let mut machine = machine;
    machine.go_back(Save {
        mark: Mark { place: 0 },
        cells: 0,
        first: 0,
        path: 0,
        brought: 0,
    });
    machine.store.make(query.locals.items())?;
    machine.push_goal(&query.goal, 0, depth)?;
    Ok(machine)
}

/// The output of an end to which these choices led, with its path or without.
fn out_kept(alloc: Global, paths: Paths, path: &[u32], end: End) -> Result<Out, Memory>
    ensures { IfOk result (λ o. out_of o ≡ kept_out paths (end_out path.now end)) }
{
    let path = match paths {
        Paths::Kept => path.to_vec(alloc)?,
        Paths::Left => Vec::new(alloc),
    };
    Ok(out_at(path, end))
}

/// Adds the output of an end at a machine.
fn add_end<'a>(
    alloc: Global,
    paths: Paths,
    machine: &Machine<'a>,
    end: End,
    outs: &mut Vec<Out>,
) -> Result<(), Memory>
    ensures { OnOk result (outs_of outs.new.items
        ≡ outs_of outs.old.items ++ kept_out paths (end_out machine.now.path.items end) ∷ []) }
{
    let out = out_kept(alloc, paths, machine.path.as_slice(), end)?;
    outs.push(out)?;
    Ok(())
}

/// The turn of the goal of a frame, from a machine in which the others wait: it goes on by the goal's
/// first way and keeps the others, or adds the output with which it ends. It answers whether the search
/// goes on from the machine.
fn turn_by<'a>(
    alloc: Global,
    clauses: &'a [Predicate<'a>],
    paths: Paths,
    frame: Frame<'a>,
    machine: &mut Machine<'a>,
    points: &mut Vec<ChoicePoint<'a>>,
    outs: &mut Vec<Out>,
) -> Result<bool, Memory>
    requires clauses { AreClausesBelow (program_in clauses.now) }
    requires goal { IsGoalBelow (next_of machine.old) (rename_goal frame.base
        (goal_of frame.goal.now)) }
    requires points { HasPoints machine.old points.old }
    ensures left { IfOk result (λ b. positions_with b machine.new points.new
        ≡ positions_followed (turned_goal (program_in clauses.now) frame.entry.depth (rename_goal
        frame.entry.base (goal_of frame.entry.goal.now)) (position_of machine.old))
        (pending_positions machine.old points.old)) }
    ensures outs { OnOk result (outs_of outs.new.items
        ≡ outs_of outs.old.items
        ++ map (kept_out paths) (ended_outs (turned_goal (program_in clauses.now)
        frame.entry.depth (rename_goal frame.entry.base (goal_of frame.entry.goal.now))
        (position_of machine.old)))) }
    ensures points { OnOk result (HasPoints machine.new points.new) }
{
    if is_choosing(&frame) {
        return choose_by(alloc, clauses, frame, machine, points);
    }
    match turn_of_goal(alloc, clauses, frame, machine)? {
        Turn::Goes => Ok(true),
        Turn::Fails => Ok(false),
        Turn::Ends(end) => {
            add_end(alloc, paths, machine, end, outs)?;
            Ok(false)
        }
    }
}

/// One turn of a search, which adds the output with which it ends. It answers whether the search goes
/// on from the machine.
fn turn_on<'a>(
    alloc: Global,
    clauses: &'a [Predicate<'a>],
    asked: &Asked<'_>,
    paths: Paths,
    machine: &mut Machine<'a>,
    points: &mut Vec<ChoicePoint<'a>>,
    outs: &mut Vec<Out>,
) -> Result<bool, Memory>
    requires clauses { AreClausesBelow (program_in clauses.now) }
    requires points { HasPoints machine.old points.old }
    ensures left { IfOk result (λ b. positions_with b machine.new points.new
        ≡ positions_followed (turned (program_in clauses.now) (answering_of asked.now)
        (position_of machine.old)) (pending_positions machine.old points.old)) }
    ensures outs { OnOk result (outs_of outs.new.items
        ≡ outs_of outs.old.items
        ++ map (kept_out paths) (ended_outs (turned (program_in clauses.now)
        (answering_of asked.now) (position_of machine.old)))) }
    ensures points { OnOk result (HasPoints machine.new points.new) }
{
    match machine.pop_goal() {
        Some(frame) => turn_by(alloc, clauses, paths, frame, machine, points, outs),
        None => {
            let end = found(alloc, asked, machine)?;
            add_end(alloc, paths, machine, end, outs)?;
            Ok(false)
        }
    }
}

/// One turn of a search, which adds the output with which it ends, so that fewer may be wanted; where
/// it does not go on from there, the search resumes. It answers whether it goes on. Of goals that wait no
/// longer it keeps only those to which it can go back.
pub fn go_on<'a>(
    alloc: Global,
    clauses: &'a [Predicate<'a>],
    asked: &Asked<'_>,
    paths: Paths,
    machine: &mut Machine<'a>,
    points: &mut Vec<ChoicePoint<'a>>,
    outs: &mut Vec<Out>,
    wanted: &mut Limit,
) -> Result<bool, Memory>
    requires clauses { AreClausesBelow (program_in clauses.now) }
    requires points { HasPoints machine.old points.old }
    ensures left { IfOk result (λ b. positions_with b machine.new points.new
        ≡ positions_followed (turned (program_in clauses.now) (answering_of asked.now)
        (position_of machine.old)) (pending_positions machine.old points.old)) }
    ensures outs { OnOk result (outs_of outs.new.items
        ≡ outs_of outs.old.items
        ++ map (kept_out paths) (ended_outs (turned (program_in clauses.now)
        (answering_of asked.now) (position_of machine.old)))) }
    ensures points { OnOk result (HasPoints machine.new points.new) }
    ensures none { IfOk result (λ b. b ≡ false → points.new.items ≡ []) }
    ensures wanted { OnOk result (wanted.new
        ≡ limits.wanted_after wanted.old (ended_outs (turned (program_in clauses.now)
        (answering_of asked.now) (position_of machine.old)))) }
{
    let before = outs.len();
    let goes = turn_on(alloc, clauses, asked, paths, machine, points, outs)?;
    *wanted = wanted_after(*wanted, &outs[before..]);
    if goes {
        let_go(machine, points);
        Ok(true)
    } else {
        resume(alloc, machine, points)
    }
}

/// The outputs from a machine up to the last answer that is wanted, in order, depth first: where the search
/// does not go on from a machine, it goes back to the latest choice that has a way left.
pub fn outputs_from<'a>(
    alloc: Global,
    clauses: &'a [Predicate<'a>],
    asked: &Asked<'_>,
    paths: Paths,
    limit: Limit,
    first: Machine<'a>,
) -> Result<Vec<Out>, Memory>
    requires clauses { AreClausesBelow (program_in clauses.now) }
    ensures { IfOk result (λ v. outs_of v.items
        ≡ map (kept_out paths) (part limit (outs_from (program_in clauses.now)
        (answering_of asked.now) (position_of first.entry)))) }
{
    let mut outs = Vec::new(alloc);
    let mut points = Vec::new(alloc);
    let mut machine = first;
    let mut wanted = limit;
    'searching: while is_wanting(wanted) {
        if !go_on(
            alloc,
            clauses,
            asked,
            paths,
            &mut machine,
            &mut points,
            &mut outs,
            &mut wanted,
        )? {
            return Ok(outs);
        }
    }
    Ok(outs)
}

/// Whether a search is wide that made so many turns, where its longest way has so many choices: it made
/// many turns, and many for each of these.
fn is_wide(turns: u64, longest: usize) -> bool
    ensures few { result ≡ true → few_turns ≤ turns }
    ensures wide { result ≡ is_wide turns longest }
{
    turns >= FEW_TURNS && turns / TURNS_A_CHOICE > longest as u64
}

/// The outputs from a machine, as `outputs_from`, as long as the search isn't wide: none says that it is, and
/// that it takes more than few turns.
fn outputs_soon<'a>(
    alloc: Global,
    clauses: &'a [Predicate<'a>],
    asked: &Asked<'_>,
    paths: Paths,
    limit: Limit,
    first: Machine<'a>,
) -> Result<Option<Vec<Out>>, Memory>
    requires clauses { AreClausesBelow (program_in clauses.now) }
    ensures outs { IfOk result (λ o. IfSome o (λ v. outs_of v.items
        ≡ map (kept_out paths) (part limit (outs_from (program_in clauses.now)
        (answering_of asked.now) (position_of first.entry))))) }
    ensures many { IfOk result (λ o. o ≡ None →
        few_turns < turns_from (program_in clauses.now) (position_of first.entry)) }
{
    let mut outs = Vec::new(alloc);
    let mut points = Vec::new(alloc);
    let mut machine = first;
    let mut wanted = limit;
    let mut turns: u64 = 0;
    let mut longest = 0;
    'searching: while is_wanting(wanted) {
        if is_wide(turns, longest) {
            return Ok(None);
        }
        if !go_on(
            alloc,
            clauses,
            asked,
            paths,
            &mut machine,
            &mut points,
            &mut outs,
            &mut wanted,
        )? {
            return Ok(Some(outs));
        }
        turns = turns.saturating_add(1);
        longest = machine.path.len().max(longest);
    }
    Ok(Some(outs))
}

/// The outputs from where the search of a query begins, as `outputs_of_query`, as long as the search isn't
/// wide: none says that it is, and that it takes more than few turns.
pub fn outputs_of_short_query<'a>(
    alloc: Global,
    clauses: &'a [Predicate<'a>],
    depth: u32,
    query: &'a Query<Term>,
    paths: Paths,
    limit: Limit,
) -> Result<Option<Vec<Out>>, Memory>
    requires clauses { AreClausesBelow (program_in clauses.now) }
    requires query { IsQueryBelow (query_of query.now) }
    ensures outs { IfOk result (λ o. IfSome o (λ v. outs_of v.items
        ≡ map (kept_out paths) (part limit (outs_from (program_in clauses.now)
        (answer_by_unbound (query_of query.now).locals)
        (first_position depth (query_of query.now)))))) }
    ensures many { IfOk result (λ o. o ≡ None →
        few_turns < query_turns (program_in clauses.now) depth (query_of query.now)) }
{
    let first = first_machine(alloc, depth, query)?;
    let asked = Asked::of(alloc, query.locals.items())?;
    outputs_soon(alloc, clauses, &asked, paths, limit, first)
}

/// The outputs from where the search of a query to a depth begins up to the last answer that is wanted,
/// in order.
pub fn outputs_of_query<'a>(
    alloc: Global,
    clauses: &'a [Predicate<'a>],
    depth: u32,
    query: &'a Query<Term>,
    paths: Paths,
    limit: Limit,
) -> Result<Vec<Out>, Memory>
    requires clauses { AreClausesBelow (program_in clauses.now) }
    requires query { IsQueryBelow (query_of query.now) }
    ensures { IfOk result (λ v. outs_of v.items
        ≡ map (kept_out paths) (part limit (outs_from (program_in clauses.now)
        (answer_by_unbound (query_of query.now).locals)
        (first_position depth (query_of query.now))))) }
{
    let first = first_machine(alloc, depth, query)?;
    let asked = Asked::of(alloc, query.locals.items())?;
    outputs_from(alloc, clauses, &asked, paths, limit, first)
}
