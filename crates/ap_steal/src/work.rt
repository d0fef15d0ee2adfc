//! A worker.

ghost use Rattle.std.specs.Prelude.{◌≡◌, ℕ, true, false, [], ◌∷◌, List as list};
ghost use Rattle.ap_paths.specs.Entries.{entries_of};
ghost use Rattle.ap_paths.specs.History.{has_stop};
ghost use Rattle.ap_tools.specs.Seats.{book_id, book_limit, SameSeat};
ghost use Rattle.ap_tools.specs.Planned.{OwnPlanned, IsOver};
ghost use Rattle.ap_tools.specs.Order.{IsSole, IsOrdered};
ghost use Rattle.ap_tools.specs.Accounts.{EndsJust, NoneLost};

use crate::jobs::Job;
use crate::step::run_path;
use ap_defs::memory::Memory;
use ap_entering::looking::is_over;
use ap_io::Gate;
use ap_paths::Tree;
use ap_tools::tools::Tools;
use ap_tools::{Placed, Seat, Shape, SharedBook};
use crossbeam_utils::Backoff;
use std::alloc::Global;
use std::sync::Wait;

/// A worker looks whether the search was stopped after so many paths, and whenever it finds none.
const LOOKS: u64 = 64;

/// Ends the search.
fn stop<R: Wait, T: Tree>(rt: &R, tree: &T, book: &SharedBook, seat: &mut Seat)
    requires book { seat.old.book ≡ book_id book.now }
    requires own { OwnPlanned (T.choices tree.now) (T.plan tree.now) (book_limit book.now)
        seat.old.number seat.old.seen }
    ensures same { SameSeat seat.old seat.new }
    ensures own { OwnPlanned (T.choices tree.now) (T.plan tree.now) (book_limit book.now)
        seat.new.number seat.new.seen }
    ensures stands { has_stop (entries_of seat.new.seen) ≡ true }
{
    let _tree = tree;
    book.stop(rt, seat);
}

/// Runs a path. Where memory is wanting, it ends the search, and says no.
fn run_or_stop<W: Shape, R: Wait, T: Tree>(
    rt: &R,
    alloc: Global,
    tree: &T,
    book: &SharedBook,
    seat: &mut Seat,
    tools: &mut Tools<W>,
    path: &Placed<W>,
) -> bool
    requires book { seat.old.book ≡ book_id book.now }
    requires shape { T.choices tree.now ≡ W.choices }
    requires own { OwnPlanned (T.choices tree.now) (T.plan tree.now) (book_limit book.now)
        seat.old.number seat.old.seen }
    ensures same { SameSeat seat.old seat.new }
    ensures own { OwnPlanned (T.choices tree.now) (T.plan tree.now) (book_limit book.now)
        seat.new.number seat.new.seen }
    ensures alone { tools.new.alone ≡ tools.old.alone }
    ensures order { tools.old.alone ≡ true →
        IsSole (path.now ∷ tools.old.hand.items) seat.old.number seat.old.seen →
        IsSole tools.new.hand.items seat.new.number seat.new.seen }
    ensures held { has_stop (entries_of seat.new.seen) ≡ false →
        NoneLost seat.old.number seat.old.seen tools.old (path.now ∷ []) seat.new.seen tools.new }
{
    match run_path(rt, alloc, tree, book, seat, tools, path) {
        Ok(()) => true,
        Err(Memory) => {
            stop(rt, tree, book, seat);
            false
        }
    }
}

/// Runs the next path, if there is one. Says no where there is none, or memory is wanting.
fn run_next<W: Shape, R: Wait, T: Tree, G: Gate>(
    rt: &R,
    alloc: Global,
    tree: &T,
    gate: &G,
    book: &SharedBook,
    seat: &mut Seat,
    tools: &mut Tools<W>,
) -> bool
    requires book { seat.old.book ≡ book_id book.now }
    requires shape { T.choices tree.now ≡ W.choices }
    requires own { OwnPlanned (T.choices tree.now) (T.plan tree.now) (book_limit book.now)
        seat.old.number seat.old.seen }
    ensures same { SameSeat seat.old seat.new }
    ensures own { OwnPlanned (T.choices tree.now) (T.plan tree.now) (book_limit book.now)
        seat.new.number seat.new.seen }
    ensures alone { tools.new.alone ≡ tools.old.alone }
    ensures order { tools.old.alone ≡ true →
        IsSole tools.old.hand.items seat.old.number seat.old.seen →
        IsSole tools.new.hand.items seat.new.number seat.new.seen }
    ensures held { has_stop (entries_of seat.new.seen) ≡ false →
        NoneLost seat.old.number seat.old.seen tools.old [] seat.new.seen tools.new }
{
    match tools.next() {
        Some(path) => {
            tools.count = tools.count.saturating_add(1);
            gate.enter(tools.number, tools.count);
            run_or_stop(rt, alloc, tree, book, seat, tools, &path)
        }
        None => false,
    }
}

/// Runs the next path, or looks whether the search is over.
fn go_on<W: Shape, R: Wait, T: Tree, G: Gate>(
    rt: &R,
    alloc: Global,
    tree: &T,
    gate: &G,
    book: &SharedBook,
    seat: &mut Seat,
    tools: &mut Tools<W>,
    backoff: &Backoff,
) -> bool
    requires book { seat.old.book ≡ book_id book.now }
    requires shape { T.choices tree.now ≡ W.choices }
    requires own { OwnPlanned (T.choices tree.now) (T.plan tree.now) (book_limit book.now)
        seat.old.number seat.old.seen }
    ensures same { SameSeat seat.old seat.new }
    ensures own { OwnPlanned (T.choices tree.now) (T.plan tree.now) (book_limit book.now)
        seat.new.number seat.new.seen }
    ensures alone { tools.new.alone ≡ tools.old.alone }
    ensures over { result ≡ true → IsOver seat.new.seen }
    ensures order { tools.old.alone ≡ true →
        IsSole tools.old.hand.items seat.old.number seat.old.seen →
        IsSole tools.new.hand.items seat.new.number seat.new.seen }
    ensures held { has_stop (entries_of seat.new.seen) ≡ false →
        NoneLost seat.old.number seat.old.seen tools.old [] seat.new.seen tools.new }
{
    if run_next(rt, alloc, tree, gate, book, seat, tools) {
        if tools.count % LOOKS != 0 {
            backoff.reset();
            return false;
        }
    } else if !backoff.is_completed() {
        backoff.snooze();
        return false;
    }
    backoff.reset();
    is_over(rt, tree, book, seat)
}

/// Runs paths until the worker's own turn finds that the search is over. Where memory is wanting, it
/// enters a Stop first. It leaves its seat, and its tools with what is in them.
pub fn work<W: Shape, R: Wait, T: Tree, G: Gate>(
    rt: &R,
    alloc: Global,
    tree: &T,
    gate: &G,
    book: &SharedBook,
    job: Job<W>,
) -> Job<W>
    requires book { job.seat.book ≡ book_id book.now }
    requires shape { T.choices tree.now ≡ W.choices }
    requires own { OwnPlanned (T.choices tree.now) (T.plan tree.now) (book_limit book.now)
        job.seat.number job.seat.seen }
    ensures same { SameSeat job.seat result.seat }
    ensures own { OwnPlanned (T.choices tree.now) (T.plan tree.now) (book_limit book.now)
        result.seat.number result.seat.seen }
    ensures over { IsOver result.seat.seen }
    ensures order { job.tools.alone ≡ true →
        IsSole job.tools.hand.items job.seat.number job.seat.seen →
        IsOrdered result.seat.number result.seat.seen }
    ensures held { has_stop (entries_of result.seat.seen) ≡ false →
        NoneLost job.seat.number job.seat.seen job.tools [] result.seat.seen result.tools }
{
    let Job {
        mut seat,
        mut tools,
    } = job;
    let backoff = Backoff::new();
    for _ in rt.forever() {
        if go_on(rt, alloc, tree, gate, book, &mut seat, &mut tools, &backoff) {
            return Job { seat, tools };
        }
    }
    unreachable!()
}
