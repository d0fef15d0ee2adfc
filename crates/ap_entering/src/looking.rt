//! Whether a search is over.

ghost use Rattle.std.specs.Prelude.{◌≡◌, ℕ, true, [], List as list};
ghost use Rattle.ap_tools.specs.Seats.{book_id, book_limit, SameSeat};
ghost use Rattle.ap_tools.specs.Planned.{OwnPlanned, IsOver};
ghost use Rattle.ap_tools.specs.Order.{IsSole};
ghost use Rattle.ap_tools.specs.Accounts.{EndsJust};

use ap_defs::paths::Progress;
use ap_paths::Tree;
use ap_tools::{Seat, SharedBook};
use std::sync::Wait;

/// Whether the search is over.
pub fn is_over<R: Wait, T: Tree>(rt: &R, tree: &T, book: &SharedBook, seat: &mut Seat) -> bool
    requires book { seat.old.book ≡ book_id book.now }
    requires own { OwnPlanned (T.choices tree.now) (T.plan tree.now) (book_limit book.now)
        seat.old.number seat.old.seen }
    ensures same { SameSeat seat.old seat.new }
    ensures own { OwnPlanned (T.choices tree.now) (T.plan tree.now) (book_limit book.now)
        seat.new.number seat.new.seen }
    ensures over { result ≡ true → IsOver seat.new.seen }
    ensures order { (hand : list (list ℕ)) → IsSole hand seat.old.number seat.old.seen →
        IsSole hand seat.new.number seat.new.seen }
    ensures ended { EndsJust seat.old.number seat.old.seen [] seat.new.seen }
{
    let _tree = tree;
    match book.status(rt, seat) {
        Progress::Left(_) => false,
        Progress::Finished => true,
        Progress::Stopped => true,
    }
}
