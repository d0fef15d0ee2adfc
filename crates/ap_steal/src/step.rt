//! One path of a worker.

ghost use Rattle.std.specs.Prelude.{◌≡◌, ℕ, true, [], ◌∷◌, if◌then◌else◌, List as list, length, IfOk};
ghost use Rattle.ap_paths.specs.declared.entries.Entry.{Entry};
ghost use Rattle.ap_paths.specs.Trees.{InChoiceTree};
ghost use Rattle.ap_book.specs.Answers.{Skips};
ghost use Rattle.ap_tools.specs.Seats.{book_id, book_limit, SameSeat, IsTurn};
ghost use Rattle.ap_tools.specs.Planned.{OwnPlanned};
ghost use Rattle.ap_tools.specs.Order.{IsSole};
ghost use Rattle.ap_tools.specs.Accounts.{EndsJust, NoneLost};
ghost use Rattle.ap_steal.specs.Reach.{reach};

use crate::reach::{reach_for_all, reach_for_first};
use ap_book::SkipError;
use ap_defs::memory::Memory;
use ap_defs::paths::Path;
use ap_entering::entering::{run_kids, run_outs, visit_planned};
use ap_paths::{Tree, Visit};
use ap_tools::tools::Tools;
use ap_tools::{Placed, Seat, Shape, SharedBook};
use std::alloc::Global;
use std::sync::Wait;

/// One turn, in which a path is left out, where as many answers have ended before it as are wanted.
fn skip_planned<R: Wait, T: Tree>(
    rt: &R,
    tree: &T,
    book: &SharedBook,
    seat: &mut Seat,
    path: &Path,
) -> Result<(), SkipError>
    requires book { seat.old.book ≡ book_id book.now }
    requires own { OwnPlanned (T.choices tree.now) (T.plan tree.now) (book_limit book.now)
        seat.old.number seat.old.seen }
    requires there { InChoiceTree (T.choices tree.now) path.now }
    ensures same { SameSeat seat.old seat.new }
    ensures own { OwnPlanned (T.choices tree.now) (T.plan tree.now) (book_limit book.now)
        seat.new.number seat.new.seen }
    ensures turn { (turn : list Entry) × IsTurn seat.old turn
        × Skips turn path.now (book_limit book.now) seat.old.number result seat.new.seen }
{
    let _tree = tree;
    book.skip(rt, seat, path)
}

/// Whether a path is to be visited: not where it was left out, or where it is not open.
fn is_needed<R: Wait, T: Tree>(
    rt: &R,
    tree: &T,
    book: &SharedBook,
    seat: &mut Seat,
    path: &Path,
) -> Result<bool, Memory>
    requires book { seat.old.book ≡ book_id book.now }
    requires own { OwnPlanned (T.choices tree.now) (T.plan tree.now) (book_limit book.now)
        seat.old.number seat.old.seen }
    requires there { InChoiceTree (T.choices tree.now) path.now }
    ensures same { SameSeat seat.old seat.new }
    ensures own { OwnPlanned (T.choices tree.now) (T.plan tree.now) (book_limit book.now)
        seat.new.number seat.new.seen }
    ensures order { (hand : list (list ℕ)) →
        IsSole (path.now ∷ hand) seat.old.number seat.old.seen →
        IfOk result (λ b. IsSole (if b then path.now ∷ hand else hand) seat.new.number
        seat.new.seen) }
    ensures ended { IfOk result (λ b. EndsJust seat.old.number seat.old.seen
        (if b then [] else path.now ∷ []) seat.new.seen) }
{
    match skip_planned(rt, tree, book, seat, path) {
        Ok(()) => Ok(false),
        Err(SkipError::NotOpen) => Ok(false),
        Err(SkipError::Needed(_found)) => Ok(true),
        Err(SkipError::Memory) => Err(Memory),
    }
}

/// How many choices a worker makes at a path and below it, at most, before it shares out its kids.
fn reach_of<W: Shape>(book: &SharedBook, tools: &Tools<W>, path: &Path) -> Option<u64>
    ensures { result ≡ reach (book_limit book.now) tools.now.count tools.now.narrow
        (length path.now) }
{
    let way = path.choices().len();
    if book.has_limit() {
        return Some(reach_for_first(way));
    }
    reach_for_all(tools.count, tools.narrow, way)
}

/// Visits a path, and enters what it is in the book. Its kids are the worker's own.
fn visit_path<W: Shape, R: Wait, T: Tree>(
    rt: &R,
    alloc: Global,
    tree: &T,
    book: &SharedBook,
    seat: &mut Seat,
    tools: &mut Tools<W>,
    path: &Placed<W>,
) -> Result<(), Memory>
    requires book { seat.old.book ≡ book_id book.now }
    requires shape { T.choices tree.now ≡ W.choices }
    requires own { OwnPlanned (T.choices tree.now) (T.plan tree.now) (book_limit book.now)
        seat.old.number seat.old.seen }
    ensures same { SameSeat seat.old seat.new }
    ensures own { OwnPlanned (T.choices tree.now) (T.plan tree.now) (book_limit book.now)
        seat.new.number seat.new.seen }
    ensures alone { tools.new.alone ≡ tools.old.alone }
    ensures order { tools.old.alone ≡ true →
        IsSole (path.now ∷ tools.old.hand.items) seat.old.number seat.old.seen →
        IfOk result (λ _. IsSole tools.new.hand.items seat.new.number seat.new.seen) }
    ensures held { IfOk result (λ _. NoneLost seat.old.number seat.old.seen tools.old
        (path.now ∷ []) seat.new.seen tools.new) }
{
    let most = reach_of(book, tools, path.path());
    match visit_planned(alloc, tree, path.path(), most) {
        Ok(Visit::Kids(list)) => run_kids(rt, alloc, tree, book, seat, tools, path, list.items()),
        Ok(Visit::Outs(list)) => run_outs(rt, tree, book, seat, path.path(), list),
        Err(error) => Err(error),
    }
}

/// Runs a path. Where a limit is set, it is left out if as many answers have ended before it. So an
/// entry of the seat ends it, unless it was not open, and its kids are in the hand or the deque.
pub fn run_path<W: Shape, R: Wait, T: Tree>(
    rt: &R,
    alloc: Global,
    tree: &T,
    book: &SharedBook,
    seat: &mut Seat,
    tools: &mut Tools<W>,
    path: &Placed<W>,
) -> Result<(), Memory>
    requires book { seat.old.book ≡ book_id book.now }
    requires shape { T.choices tree.now ≡ W.choices }
    requires own { OwnPlanned (T.choices tree.now) (T.plan tree.now) (book_limit book.now)
        seat.old.number seat.old.seen }
    ensures same { SameSeat seat.old seat.new }
    ensures own { OwnPlanned (T.choices tree.now) (T.plan tree.now) (book_limit book.now)
        seat.new.number seat.new.seen }
    ensures alone { tools.new.alone ≡ tools.old.alone }
    ensures order { tools.old.alone ≡ true →
        IsSole (path.now ∷ tools.old.hand.items) seat.old.number seat.old.seen →
        IfOk result (λ _. IsSole tools.new.hand.items seat.new.number seat.new.seen) }
    ensures held { IfOk result (λ _. NoneLost seat.old.number seat.old.seen tools.old
        (path.now ∷ []) seat.new.seen tools.new) }
{
    if !book.has_limit() {
        return visit_path(rt, alloc, tree, book, seat, tools, path);
    }
    let needed = is_needed(rt, tree, book, seat, path.path())?;
    if !needed {
        return Ok(());
    }
    visit_path(rt, alloc, tree, book, seat, tools, path)
}
