//! The search of a tree by many workers.

ghost use Rattle.std.specs.Prelude.{◌≡◌, ℕ, true, false, ◌<◌, ◌≤◌, [], ◌∷◌, List as list, vec_len, IfOk};
ghost use Rattle.ap_paths.specs.Entries.{entries_of};
ghost use Rattle.ap_paths.specs.Limits.{AreWithin, part};
ghost use Rattle.ap_paths.specs.History.{is_legal, has_stop, open_of};
ghost use Rattle.ap_paths.specs.Merging.{merged};
ghost use Rattle.ap_tools.specs.declared.events.Event.{Event};
ghost use Rattle.ap_tools.specs.States.{WorkersState, start_state};
ghost use Rattle.ap_tools.specs.Traces.{AreSeats, IsInOrder, EventsLead};
ghost use Rattle.ap_tools.specs.Seats.{logs_of};
ghost use Rattle.ap_tools.specs.Planned.{ArePlanned};

use crate::jobs::{Job, lone_tools, make_jobs, make_tools, turned};
use crate::run::{finish, run_all};
use crate::work::work;
use ap_defs::memory::Memory;
use ap_io::Gate;
use ap_paths::{Closed, Limit, Tree};
use ap_tools::{Shape, SharedBook};
use std::alloc::Global;
use std::marker::Brand;
use std::sync::Wait;
use std::thread::Threads;

/// A search by one worker.
fn search_alone<W: Shape, R: Wait, T: Tree, G: Gate>(
    rt: &R,
    alloc: Global,
    tree: &T,
    limit: Limit,
    gate: &G,
) -> Result<Closed, Memory>
    requires { T.choices tree.now ≡ W.choices }
    ensures legal { IfOk result (λ c. (is_legal (entries_of c.history) ≡ true)
        × (has_stop (entries_of c.history) ≡ false) × (open_of (entries_of c.history) ≡ [])) }
    ensures planned { IfOk result (λ c. ArePlanned (T.choices tree.now) (T.plan tree.now)
        (entries_of c.history)) }
    ensures within { IfOk result (λ c. AreWithin limit (entries_of c.history)) }
    ensures seats { IfOk result (λ c. (c.logs ≡ logs_of 1 c.history)
        × AreSeats 1 (entries_of c.history)) }
    ensures order { IfOk result (λ c. IsInOrder ([] ∷ []) (entries_of c.history)) }
{
    let tools = lone_tools::<W>(alloc)?;
    let (book, mut seats) = SharedBook::make(alloc, 1, limit)?;
    let Some(seat) = seats.pop() else {
        unreachable!()
    };
    let Job {
        seat,
        tools: _tools,
    } = work(rt, alloc, tree, gate, &book, Job { seat, tools });
    seats.push(seat)?;
    finish(alloc, tree, book, seats)
}

/// A search by several workers.
fn search_beside<W: Shape + Send, R: Threads + Wait + Sync, T: Tree, G: Gate>(
    rt: &R,
    alloc: Global,
    tree: &T,
    workers: u32,
    limit: Limit,
    gate: &G,
) -> Result<Closed, Memory>
    requires count { (0 < workers) × (workers ≤ 64) }
    requires shape { T.choices tree.now ≡ W.choices }
    ensures legal { IfOk result (λ c. (is_legal (entries_of c.history) ≡ true)
        × (has_stop (entries_of c.history) ≡ false) × (open_of (entries_of c.history) ≡ [])) }
    ensures planned { IfOk result (λ c. ArePlanned (T.choices tree.now) (T.plan tree.now)
        (entries_of c.history)) }
    ensures within { IfOk result (λ c. AreWithin limit (entries_of c.history)) }
    ensures seats { IfOk result (λ c. (c.logs ≡ logs_of workers c.history)
        × AreSeats workers (entries_of c.history)) }
{
    let tools = make_tools::<W>(alloc, workers)?;
    let (book, seats) = SharedBook::make(alloc, workers, limit)?;
    let jobs = make_jobs(alloc, seats, tools)?;
    let seats = run_all(rt, alloc, tree, gate, &book, turned(jobs))?;
    finish(alloc, tree, book, seats)
}

/// The same, where the tree has this shape.
fn search_in<W: Shape + Send, R: Threads + Wait + Sync, T: Tree, G: Gate>(
    rt: &R,
    alloc: Global,
    tree: &T,
    workers: u32,
    limit: Limit,
    gate: &G,
) -> Result<Closed, Memory>
    requires count { (0 < workers) × (workers ≤ 64) }
    requires shape { T.choices tree.now ≡ W.choices }
    ensures legal { IfOk result (λ c. (is_legal (entries_of c.history) ≡ true)
        × (has_stop (entries_of c.history) ≡ false) × (open_of (entries_of c.history) ≡ [])) }
    ensures planned { IfOk result (λ c. ArePlanned (T.choices tree.now) (T.plan tree.now)
        (entries_of c.history)) }
    ensures within { IfOk result (λ c. AreWithin limit (entries_of c.history)) }
    ensures seats { IfOk result (λ c. (c.logs ≡ logs_of workers c.history)
        × AreSeats workers (entries_of c.history)) }
    ensures order { workers ≡ 1 → IfOk result (λ c. IsInOrder ([] ∷ []) (entries_of c.history)) }
{
    if workers == 1 {
        search_alone::<W, R, T, G>(rt, alloc, tree, limit, gate)
    } else {
        search_beside::<W, R, T, G>(rt, alloc, tree, workers, limit, gate)
    }
}

/// The history of a search of the tree by 1 to 64 workers, of which so many answers are wanted.
///
/// It is legal, has no Stop, and nothing is open at its end. Each Split has just the kids that the
/// tree answers at its path, each Done is of a path where it answers outputs, with these, and each Skip
/// is of a path before which as many answers had ended as are wanted. So the outputs in path order, as far
/// as they are wanted, are those of the tree at the empty path, however many workers there are. Each entry
/// has the number of the seat that made it. The history is that of some permitted list of events; of
/// one worker it is in the order of the least open paths. Before each path a worker passes the gate. It may wait.
///
/// The only error is want of memory, in a worker too: the others then stop.
pub fn search_within<R: Threads + Wait + Sync, T: Tree, G: Gate>(
    rt: &R,
    alloc: Global,
    tree: &T,
    workers: u32,
    limit: Limit,
    gate: &G,
) -> Result<Closed, Memory>
    requires { (0 < workers) × (workers ≤ 64) }
    ensures legal { IfOk result (λ c. (is_legal (entries_of c.history) ≡ true)
        × (has_stop (entries_of c.history) ≡ false) × (open_of (entries_of c.history) ≡ [])) }
    ensures planned { IfOk result (λ c. ArePlanned (T.choices tree.now) (T.plan tree.now)
        (entries_of c.history)) }
    ensures within { IfOk result (λ c. AreWithin limit (entries_of c.history)) }
    ensures whole { IfOk result (λ c. part limit (merged (entries_of c.history))
        ≡ part limit (T.at tree.now [])) }
    ensures seats { IfOk result (λ c. (c.logs ≡ logs_of workers c.history)
        × AreSeats workers (entries_of c.history)) }
    ensures order { workers ≡ 1 → IfOk result (λ c. IsInOrder ([] ∷ []) (entries_of c.history)) }
    ensures permitted { IfOk result (λ c. (t : WorkersState) × (events : list Event)
        × EventsLead (T.choices tree.now) (T.at tree.now) (start_state workers) events t
        (entries_of c.history)) }
{
    search_in::<Brand, R, T, G>(rt, alloc, tree, workers, limit, gate)
}

/// The same, where all answers are wanted: no path is left out, and the outputs in path order are all
/// those of the tree.
pub fn search<R: Threads + Wait + Sync, T: Tree, G: Gate>(
    rt: &R,
    alloc: Global,
    tree: &T,
    workers: u32,
    gate: &G,
) -> Result<Closed, Memory>
    requires { (0 < workers) × (workers ≤ 64) }
    ensures legal { IfOk result (λ c. (is_legal (entries_of c.history) ≡ true)
        × (has_stop (entries_of c.history) ≡ false) × (open_of (entries_of c.history) ≡ [])) }
    ensures planned { IfOk result (λ c. ArePlanned (T.choices tree.now) (T.plan tree.now)
        (entries_of c.history)) }
    ensures whole { IfOk result (λ c. merged (entries_of c.history) ≡ T.at tree.now []) }
    ensures seats { IfOk result (λ c. (c.logs ≡ logs_of workers c.history)
        × AreSeats workers (entries_of c.history)) }
    ensures order { workers ≡ 1 → IfOk result (λ c. IsInOrder ([] ∷ []) (entries_of c.history)) }
    ensures permitted { IfOk result (λ c. (t : WorkersState) × (events : list Event)
        × EventsLead (T.choices tree.now) (T.at tree.now) (start_state workers) events t
        (entries_of c.history)) }
{
    search_within(rt, alloc, tree, workers, Limit::All, gate)
}
