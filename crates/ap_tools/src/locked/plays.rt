//! The rule of the table, and the names of its steps.

ghost use Rattle.std.specs.Prelude.{[]};
ghost use Rattle.ap_tools.specs.declared.locked.view.Stage.TheVariants.{Idle};
ghost use Rattle.ap_tools.specs.Turns.{SeatsKept, view, fresh_owns, Drew, Looked, EndedTurn, others, first_seat_only, united};

use crate::locked::view::View;
use ap_book::Book;
use atomic_table::{Join, Play, Split, TableRule};

/// The rule: the words count the tickets that were drawn and served, the book is at home or with the
/// one seat whose ticket is served, and its history begins with what each seat has seen.
pub struct Rule;

impl TableRule<Option<Book>, View, u64> for Rule {
    ghost holds = { SeatsKept };

    ghost first = { λ seats. view Idle (fresh_owns 0 seats) };
}

/// A ticket is drawn.
pub struct Draw;

impl Play<Option<Book>, View> for Draw {
    ghost then = { λ s m n w. Drew m n w };
}

/// The word of the ticket that is served is read; where it is one's own, the book is taken.
pub struct Look;

impl Play<Option<Book>, View> for Look {
    ghost then = { λ s m n w. Looked m n w };
}

/// The next ticket is served, with the book at home.
pub struct End;

impl Play<Option<Book>, View> for End {
    ghost then = { λ s m n w. EndedTurn m n w };
}

/// The first seat leaves the others.
pub struct Cut;

impl Split<View> for Cut {
    ghost left = { others };

    ghost right = { first_seat_only };
}

/// A seat comes back.
pub struct Unite;

impl Join<View> for Unite {
    ghost both = { united };

    ghost spent = { view Idle [] };
}
