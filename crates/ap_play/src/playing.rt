//! A list of events, played from the start.

ghost use Rattle.std.specs.Prelude.{◌≡◌, ◌≤◌, [], ◌++◌, IfOk, MatchOption};
ghost use Rattle.ap_tools.specs.States.{joined_all, over, pending, start_state};
ghost use Rattle.ap_tools.specs.Steps.{StopsAt};
ghost use Rattle.ap_play.specs.Stages.{state_of, hands_of, deques_of, past_of, core_state, IsCoreAfter};

use crate::states::Core;
use crate::steps::take;
use crate::workers::Worker;
use ap_defs::lists::List;
use ap_defs::memory::Memory;
use ap_defs::paths::Path;
use ap_paths::{Endings, Tree};
use ap_tools::Event;
use std::alloc::Global;
use std::collections::VecDeque;

/// The core after these events of so many workers, from the start, where worker 0 has the empty
/// path in its hand. None exactly where an event is not permitted.
///
/// Pending are the paths in the hands, then those in the deques. What is done stands in path order, and
/// what was left out in the order of its events.
pub fn play<T: Tree>(
    alloc: Global,
    tree: &T,
    workers: u32,
    events: &[Event],
) -> Result<Option<Core>, Memory>
    requires some { 1 ≤ workers }
    requires few { workers ≤ 64 }
    ensures { IfOk result (λ o. MatchOption o (StopsAt (T.choices tree.now) (T.at tree.now)
        (start_state workers) events.now) (IsCoreAfter (T.choices tree.now) (T.at tree.now) workers
        events.now)) }
{
    let mut team = gather(alloc, workers)?;
    let mut endings = Endings::new(alloc);
    let mut skipped = Vec::new(alloc);
    for event in events {
        let permitted = take(
            alloc,
            tree,
            team.as_mut_slice(),
            &mut endings,
            &mut skipped,
            event,
        )?;
        if !permitted {
            return Ok(None);
        }
    }
    let core = core_of(alloc, team, endings, skipped)?;
    Ok(Some(core))
}

/// So many workers, the first one with the empty path in its hand.
fn gather(alloc: Global, workers: u32) -> Result<Vec<Worker>, Memory>
    requires { 1 ≤ workers }
    ensures { IfOk result (λ v. state_of v.items (over [] []) ≡ start_state workers) }
{
    let mut first = Worker::new(alloc);
    first.take(Path::root(alloc))?;
    let mut team = Vec::new(alloc);
    team.push(first)?;
    for _i in 1..workers {
        team.push(Worker::new(alloc))?;
    }
    Ok(team)
}

fn core_of(
    alloc: Global,
    team: Vec<Worker>,
    endings: Endings,
    skipped: Vec<Path>,
) -> Result<Core, Memory>
    ensures state { IfOk result (λ k. core_state k
        ≡ state_of team.items (past_of endings skipped.items)) }
    ensures pending { IfOk result (λ k. k.pending ≡ pending (core_state k)) }
{
    let (hands, deques) = rows_of(alloc, team)?;
    let mut pending = Vec::new(alloc);
    copy_rows(alloc, &mut pending, hands.as_slice())?;
    copy_rows(alloc, &mut pending, deques.as_slice())?;
    let done = endings.into_vec(alloc)?;
    Ok(Core {
        pending: List::of(pending),
        hands: List::of(hands),
        deques: List::of(deques),
        done: List::of(done),
        skipped: List::of(skipped),
    })
}

/// The hands and the deques of all workers.
fn rows_of(alloc: Global, team: Vec<Worker>) -> Result<(Vec<List<Path>>, Vec<List<Path>>), Memory>
    ensures hands { IfOk result (λ r. r.0.items ≡ hands_of team.items) }
    ensures deques { IfOk result (λ r. r.1.items ≡ deques_of team.items) }
{
    let mut hands = Vec::new(alloc);
    let mut deques = Vec::new(alloc);
    for worker in team {
        let Worker { hand, deque } = worker;
        hands.push(row_of(alloc, hand)?)?;
        deques.push(row_of(alloc, deque)?)?;
    }
    Ok((hands, deques))
}

fn row_of(alloc: Global, mut paths: VecDeque<Path>) -> Result<List<Path>, Memory>
    ensures { IfOk result (λ l. l ≡ paths.items) }
{
    let mut row = Vec::new(alloc);
    while let Some(path) = paths.pop_front() {
        row.push(path)?;
    }
    Ok(List::of(row))
}

/// Adds copies of all paths of these rows.
fn copy_rows(alloc: Global, all: &mut Vec<Path>, rows: &[List<Path>]) -> Result<(), Memory>
    ensures { IfOk result (λ _. all.new.items ≡ all.old.items ++ joined_all rows.now) }
{
    for row in rows {
        copy_row(alloc, all, row.items())?;
    }
    Ok(())
}

fn copy_row(alloc: Global, all: &mut Vec<Path>, row: &[Path]) -> Result<(), Memory>
    ensures { IfOk result (λ _. all.new.items ≡ all.old.items ++ row.now) }
{
    for path in row {
        let copied = path.copy(alloc)?;
        all.push(copied)?;
    }
    Ok(())
}
