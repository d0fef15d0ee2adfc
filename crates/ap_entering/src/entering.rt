//! What a path is, entered in the book.

ghost use Rattle.std.specs.Prelude.{◌≡◌, ℕ, true, [], ◌∷◌, Option, List as list, IfOk};
ghost use Rattle.ap_paths.specs.declared.entries.Entry.{Entry};
ghost use Rattle.ap_paths.specs.declared.entries.Entry.TheVariants.{Split, Done};
ghost use Rattle.ap_paths.specs.Entries.{kids, outs, visit_of};
ghost use Rattle.ap_paths.specs.Runs.{outs_of_runs};
ghost use Rattle.ap_paths.specs.Trees.{InChoiceTree, Ascends};
ghost use Rattle.ap_book.specs.Answers.{Enters, EntersDone};
ghost use Rattle.ap_tools.specs.Seats.{book_id, book_limit, SameSeat, IsTurn};
ghost use Rattle.ap_tools.specs.Planned.{OwnPlanned, AllAreChoices};
ghost use Rattle.ap_tools.specs.Order.{IsSole};
ghost use Rattle.ap_tools.specs.Accounts.{EndsJust, NoneLost};

use ap_book::{BookError, DoneError};
use ap_defs::lists::List;
use ap_defs::memory::Memory;
use ap_defs::paths::Path;
use ap_paths::{Run, Tree, Visit};
use ap_tools::tools::Tools;
use ap_tools::{Placed, Seat, Shape, SharedBook};
use std::alloc::Global;
use std::sync::Wait;

/// One turn, for a split by the plan.
fn split_planned<R: Wait, T: Tree>(
    rt: &R,
    alloc: Global,
    tree: &T,
    book: &SharedBook,
    seat: &mut Seat,
    path: &Path,
    given: &[u32],
) -> Result<(), BookError>
    requires book { seat.old.book ≡ book_id book.now }
    requires own { OwnPlanned (T.choices tree.now) (T.plan tree.now) (book_limit book.now)
        seat.old.number seat.old.seen }
    requires planned { InChoiceTree (T.choices tree.now) path.now
        × (most : Option ℕ) × (T.plan tree.now most path.now ≡ kids given.now) }
    requires ascends { Ascends 1 given.now }
    ensures same { SameSeat seat.old seat.new }
    ensures own { OwnPlanned (T.choices tree.now) (T.plan tree.now) (book_limit book.now)
        seat.new.number seat.new.seen }
    ensures turn { (turn : list Entry) × IsTurn seat.old turn
        × Enters turn path.now (Split seat.old.number path.now given.now) result seat.new.seen }
{
    let _tree = tree;
    book.split(rt, alloc, seat, path, given)
}

/// One turn, for an end by the plan.
fn done_planned<R: Wait, T: Tree>(
    rt: &R,
    tree: &T,
    book: &SharedBook,
    seat: &mut Seat,
    path: &Path,
    given: Vec<Run>,
) -> Result<(), DoneError>
    requires book { seat.old.book ≡ book_id book.now }
    requires own { OwnPlanned (T.choices tree.now) (T.plan tree.now) (book_limit book.now)
        seat.old.number seat.old.seen }
    requires planned { InChoiceTree (T.choices tree.now) path.now
        × (most : Option ℕ) × (T.plan tree.now most path.now ≡ outs (outs_of_runs given.items)) }
    ensures same { SameSeat seat.old seat.new }
    ensures own { OwnPlanned (T.choices tree.now) (T.plan tree.now) (book_limit book.now)
        seat.new.number seat.new.seen }
    ensures turn { (turn : list Entry) × IsTurn seat.old turn
        × EntersDone turn path.now given.items (Done seat.old.number path.now given.items) result
        seat.new.seen }
{
    let _tree = tree;
    book.done(rt, seat, path, given)
}

/// What the tree answers at a path of it, where so much is searched there at most. Its kids ascend, and
/// are choices of the path.
pub fn visit_planned<T: Tree>(
    alloc: Global,
    tree: &T,
    path: &Path,
    most: Option<u64>,
) -> Result<Visit, Memory>
    requires { InChoiceTree (T.choices tree.now) path.now }
    ensures plan { IfOk result (λ v. visit_of v ≡ T.plan tree.now most path.now) }
    ensures kids { (ks : list ℕ) → T.plan tree.now most path.now ≡ kids ks →
        Ascends 1 ks × AllAreChoices (T.choices tree.now path.now) ks }
{
    tree.visit(alloc, path, most)
}

/// Enters a split, and takes the kids. Where the path is not open, nothing is done.
pub fn run_kids<W: Shape, R: Wait, T: Tree>(
    rt: &R,
    alloc: Global,
    tree: &T,
    book: &SharedBook,
    seat: &mut Seat,
    tools: &mut Tools<W>,
    path: &Placed<W>,
    given: &[u32],
) -> Result<(), Memory>
    requires book { seat.old.book ≡ book_id book.now }
    requires shape { T.choices tree.now ≡ W.choices }
    requires own { OwnPlanned (T.choices tree.now) (T.plan tree.now) (book_limit book.now)
        seat.old.number seat.old.seen }
    requires planned { InChoiceTree (T.choices tree.now) path.now
        × (most : Option ℕ) × (T.plan tree.now most path.now ≡ kids given.now) }
    requires kids { Ascends 1 given.now × AllAreChoices (T.choices tree.now path.now) given.now }
    ensures same { SameSeat seat.old seat.new }
    ensures own { OwnPlanned (T.choices tree.now) (T.plan tree.now) (book_limit book.now)
        seat.new.number seat.new.seen }
    ensures alone { tools.new.alone ≡ tools.old.alone }
    ensures order { tools.old.alone ≡ true →
        IsSole (path.now ∷ tools.old.hand.items) seat.old.number seat.old.seen →
        IfOk result (λ _. IsSole tools.new.hand.items seat.new.number seat.new.seen) }
    ensures held { IfOk result (λ _. NoneLost seat.old.number seat.old.seen tools.old
        (path.now ∷ []) seat.new.seen tools.new) }
{
    match split_planned(rt, alloc, tree, book, seat, path.path(), given) {
        Ok(()) => tools.take_kids(alloc, path, given),
        Err(BookError::NotOpen) => Ok(()),
        Err(BookError::Memory) => Err(Memory),
    }
}

/// Enters an end. Where the path is not open, nothing is done.
pub fn run_outs<R: Wait, T: Tree>(
    rt: &R,
    tree: &T,
    book: &SharedBook,
    seat: &mut Seat,
    path: &Path,
    given: List<Run>,
) -> Result<(), Memory>
    requires book { seat.old.book ≡ book_id book.now }
    requires own { OwnPlanned (T.choices tree.now) (T.plan tree.now) (book_limit book.now)
        seat.old.number seat.old.seen }
    requires planned { InChoiceTree (T.choices tree.now) path.now
        × (most : Option ℕ) × (T.plan tree.now most path.now ≡ outs (outs_of_runs given)) }
    ensures same { SameSeat seat.old seat.new }
    ensures own { OwnPlanned (T.choices tree.now) (T.plan tree.now) (book_limit book.now)
        seat.new.number seat.new.seen }
    ensures order { (hand : list (list ℕ)) →
        IsSole (path.now ∷ hand) seat.old.number seat.old.seen →
        IfOk result (λ _. IsSole hand seat.new.number seat.new.seen) }
    ensures ended { IfOk result (λ _. EndsJust seat.old.number seat.old.seen (path.now ∷ [])
        seat.new.seen) }
{
    match done_planned(rt, tree, book, seat, path, given.into_vec()) {
        Ok(()) => Ok(()),
        Err(refused) => match refused.cause {
            BookError::NotOpen => Ok(()),
            BookError::Memory => Err(Memory),
        },
    }
}
