//! Workers in threads, and the history that they leave.

ghost use Rattle.std.specs.Prelude.{◌≡◌, true, false, All, [], ◌∷◌, map, vec_len, IfOk};
ghost use Rattle.ap_paths.specs.Entries.{entries_of, entry_of};
ghost use Rattle.ap_paths.specs.Limits.{AreWithin};
ghost use Rattle.ap_paths.specs.History.{is_legal, has_stop, is_stop, open_of};
ghost use Rattle.ap_tools.specs.Traces.{AreSeats, IsInOrder};
ghost use Rattle.ap_tools.specs.Seats.{SeatView, book_id, book_limit, seats_of, logs_of};
ghost use Rattle.ap_tools.specs.Planned.{ArePlanned, IsNewSeat, EndedSeat};
ghost use Rattle.ap_tools.specs.Order.{IsOrdered};
ghost use Rattle.ap_tools.specs.Hands.{AreFreshTools};

use crate::jobs::Job;
use crate::work::work;
use ap_defs::memory::Memory;
use ap_io::Gate;
use ap_paths::{Closed, Entry, Tree};
use ap_tools::{Seat, Shape, SharedBook};
use std::alloc::Global;
use std::sync::Wait;
use std::thread;
use std::thread::Threads;

/// Runs all jobs, each in a thread of its own where one can be made. The first has the empty path.
pub fn run_all<W: Shape + Send, R: Threads + Wait + Sync, T: Tree, G: Gate>(
    rt: &R,
    alloc: Global,
    tree: &T,
    gate: &G,
    book: &SharedBook,
    jobs: Vec<Job<W>>,
) -> Result<Vec<Seat>, Memory>
    requires shape { T.choices tree.now ≡ W.choices }
    requires new { All (λ j. IsNewSeat (book_id book.now) j.seat) jobs.items }
    requires fresh { AreFreshTools 0 (map (λ j. j.tools) jobs.items) }
    ensures len { IfOk result (λ v. vec_len v ≡ vec_len jobs) }
    ensures each { IfOk result (λ v. All (λ s. EndedSeat (T.choices tree.now) (T.plan tree.now)
        (book_limit book.now) (book_id book.now) s) v.items) }
{
    let seats = thread::map_vec(
        rt,
        jobs,
        &|job: Job<W>| -> Seat
            requires { (T.choices tree.now ≡ W.choices) × IsNewSeat (book_id book.now) job.seat }
            ensures { EndedSeat (T.choices tree.entry.now) (T.plan tree.entry.now)
                (book_limit book.entry.now) (book_id book.entry.now) result }
        {
            let Job {
                seat,
                tools: _tools,
            } = work(rt, alloc, tree, gate, book, job);
            seat
        },
    )?;
    Ok(seats)
}

/// Whether a Stop stands.
fn stands(history: &[Entry]) -> bool
    ensures { result ≡ has_stop (entries_of history.now) }
{
    for entry in history {
        if is_stop_entry(entry) {
            return true;
        }
    }
    false
}

fn is_stop_entry(entry: &Entry) -> bool
    ensures { result ≡ is_stop (entry_of entry.now) }
{
    match entry {
        Entry::Stop { seat: _seat } => true,
        Entry::Split {
            seat: _seat,
            path: _path,
            kids: _kids,
        } => false,
        Entry::Done {
            seat: _seat,
            path: _path,
            outs: _outs,
        } => false,
        Entry::Skip {
            seat: _seat,
            path: _path,
            found: _found,
        } => false,
    }
}

/// What the workers leave that have ended. Where one of them entered a Stop, that is want of memory.
pub fn finish<T: Tree>(
    alloc: Global,
    tree: &T,
    book: SharedBook,
    seats: Vec<Seat>,
) -> Result<Closed, Memory>
    requires ended { All (λ s. EndedSeat (T.choices tree.now) (T.plan tree.now) (book_limit book)
        (book_id book) s) seats.items }
    requires all { vec_len seats ≡ seats_of book }
    ensures legal { IfOk result (λ c. (is_legal (entries_of c.history) ≡ true)
        × (has_stop (entries_of c.history) ≡ false) × (open_of (entries_of c.history) ≡ [])) }
    ensures planned { IfOk result (λ c. ArePlanned (T.choices tree.now) (T.plan tree.now)
        (entries_of c.history)) }
    ensures within { IfOk result (λ c. AreWithin (book_limit book) (entries_of c.history)) }
    ensures seats { IfOk result (λ c. (c.logs ≡ logs_of (seats_of book) c.history)
        × AreSeats (seats_of book) (entries_of c.history)) }
    ensures order { (s : SeatView) → seats.items ≡ s ∷ [] → s.number ≡ 0 → seats_of book ≡ 1 →
        IsOrdered s.number s.seen → IfOk result (λ c. IsInOrder ([] ∷ []) (entries_of c.history)) }
{
    let _tree = tree;
    let closed = book.close(alloc, seats)?;
    if stands(closed.history.items()) {
        return Err(Memory);
    }
    Ok(closed)
}
