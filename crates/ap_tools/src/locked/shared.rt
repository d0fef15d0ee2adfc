//! The book behind the lock.

ghost use Rattle.std.specs.Prelude.{◌≡◌, ◌<◌, ◌≤◌, List as list, []};
ghost use Rattle.ap_paths.specs.declared.entries.Entry.{Entry};
ghost use Rattle.ap_tools.specs.Turns.{lone, seat_number, IsIdle, IsWaiting, HasTurn, MayEnd, EndedTurn, Holds, MayShut};
ghost use Rattle.ap_tools.specs.declared.locked.view.Stage.TheVariants.{Idle};

use crate::locked::plays::{Draw, End, Look, Rule};
use crate::locked::view::View;
use ap_book::Book;
use ap_paths::Limit;
use atomic_table::{Seat, Table};
use crossbeam_utils::Backoff;
use std::alloc::Global;
use std::hint;
use std::sync::Wait;

/// A seat of the table in which the book stands, with what it has seen of it.
pub type Raw = Seat<Option<Book>, View>;

/// The word of tickets drawn.
const TICKET: usize = 0;

/// The word of tickets served.
const SERVING: usize = 1;

/// The slot of the book.
const BOOK: usize = 0;

/// Who waits looks so often before it leaves the processor to others.
const LOOKS: u32 = 64;

/// Lets a moment pass, and counts it. Turns are short, so the first ones are short.
fn pause(looks: u32, backoff: &Backoff) -> u32 {
    if looks < LOOKS {
        hint::spin_loop();
        return looks + 1;
    }
    backoff.snooze();
    looks
}

/// A book behind a ticket lock.
#[derive(Drop)]
pub struct SharedBook {
    pub(crate) table: Table<Option<Book>, View, u64, Rule, Global>,
    // How many answers are wanted.
    pub(crate) limit: Limit,
    pub ghost words: { table.shared.table_id.words ≡ 2 },
    pub ghost slots: { table.shared.table_id.slots ≡ 1 },
    pub ghost some: { 0 < table.shared.key },
}

impl SharedBook {
    /// Waits until nobody seems to have the turn or a ticket, or until it has let others go first for long.
    /// Who has a ticket and is kept from running holds up all that drew one later, so none is drawn early.
    fn stand_off(&self) {
        let backoff = Backoff::new();
        let mut looks = 0;
        for _ in 0..2 * LOOKS {
            if self.table.shared.peek(TICKET) == self.table.shared.peek(SERVING) {
                return;
            }
            looks = pause(looks, &backoff);
        }
    }

    /// The ticket that was drawn, as the word has it.
    fn draw(&self, seat: &mut Raw) -> u64
        requires { (seat.old.table_id ≡ self.now.table.shared.table_id) × IsIdle seat.old.me }
        ensures { (seat.new.table_id ≡ seat.old.table_id)
            × IsWaiting seat.old.me.0 result seat.new.me }
    {
        self.table.shared.fetch_add::<Draw>(seat, TICKET, 1)
    }

    /// Waits for the turn.
    pub(crate) fn take<R: Wait>(&self, rt: &R, seat: &mut Raw)
        requires { (seat.old.table_id ≡ self.now.table.shared.table_id) × IsIdle seat.old.me }
        ensures { (seat.new.table_id ≡ seat.old.table_id)
            × ((history : list Entry) × HasTurn seat.old.me.0 history seat.new.me) }
    {
        self.stand_off();
        let ticket = self.draw(seat);
        let backoff = Backoff::new();
        let mut looks = 0;
        for _ in rt.forever() {
            if self.table.shared.load::<Look>(seat, SERVING) == ticket {
                return;
            }
            looks = pause(looks, &backoff);
        }
        unreachable!()
    }

    /// Ends the turn, with the book at home.
    pub(crate) fn end(&self, seat: &mut Raw)
        requires { (seat.old.table_id ≡ self.now.table.shared.table_id) × MayEnd seat.old.me }
        ensures { (seat.new.table_id ≡ seat.old.table_id) × EndedTurn seat.old.me 0 seat.new.me }
    {
        self.table.shared.fetch_add::<End>(seat, SERVING, 1);
    }

    /// Waits for the turn, and takes the book.
    pub(crate) fn open<R: Wait>(&self, rt: &R, seat: &mut Raw) -> Book
        requires { (seat.old.table_id ≡ self.now.table.shared.table_id) × IsIdle seat.old.me }
        ensures { (seat.new.table_id ≡ seat.old.table_id) × Holds seat.old.me.0 result seat.new.me }
    {
        self.take(rt, seat);
        let found = self.table.shared.exchange(seat, BOOK, None);
        let Some(book) = found else { unreachable!() };
        book
    }

    /// Puts the book back, and ends the turn.
    pub(crate) fn shut(&self, seat: &mut Raw, book: Book)
        requires { (seat.old.table_id ≡ self.now.table.shared.table_id) × MayShut seat.old.me book }
        ensures { (seat.new.table_id ≡ seat.old.table_id)
            × (seat.new.me ≡ (lone Idle (seat_number seat.old.me.0) book, [])) }
    {
        let found = self.table.shared.exchange(seat, BOOK, Some(book));
        drop(found);
        self.end(seat);
    }
}
