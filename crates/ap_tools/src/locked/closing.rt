//! How a shared book is made, and what it leaves at the end.

ghost use Rattle.std.specs.Prelude.{◌≡◌, ℕ, true, ◌+◌, ◌-◌, ◌<◌, ◌≤◌, List as list, [], ◌∷◌, ◌++◌, length, vec_capacity, IfOk};
ghost use Rattle.ap_paths.specs.declared.entries.Entry.{Entry};
ghost use Rattle.ap_paths.specs.Entries.{entries_of};
ghost use Rattle.ap_paths.specs.Limits.{is_limited};
ghost use Rattle.ap_paths.specs.History.{is_legal};
ghost use Rattle.ap_tools.specs.declared.locked.view.Stage.TheVariants.{Idle};
ghost use Rattle.ap_tools.specs.Turns.{view, fresh_owns, AreKnown, times_owned, places_of};
ghost use Rattle.ap_tools.specs.Seats.{book_id, seats_of, book_limit, AreOfBook, AreLogged, AreMadeBy, IsUnited, new_seats, logs_of};

use crate::locked::logs::make_logs;
use crate::locked::plays::{Cut, Unite};
use crate::locked::seat::Seat;
use crate::locked::shared::{Raw, SharedBook};
use ap_book::Book;
use ap_defs::lists::List;
use ap_defs::memory::Memory;
use ap_paths::{Closed, Limit};
use atomic_table::Table;
use std::alloc::Global;

impl SharedBook {
    /// A new book with 1 to 64 seats, which have the numbers from 0 on, of which so many answers are
    /// wanted. The only error is want of memory.
    pub fn make(alloc: Global, seats: u32, limit: Limit) -> Result<(SharedBook, Vec<Seat>), Memory>
        requires { (0 < seats) × (seats ≤ 64) }
        ensures made { IfOk result (λ r. (seats_of r.0 ≡ seats)
            × (r.1.items ≡ new_seats (book_id r.0) 0 seats)) }
        ensures limit { IfOk result (λ r. book_limit r.0 ≡ limit) }
    {
        let list = Vec::with_capacity(alloc, seats as usize)?;
        let (desk, first) = SharedBook::with_all(alloc, seats, limit)?;
        let list = desk.cut_seats(first, list, seats);
        Ok((desk, list))
    }

    /// Whether fewer than all answers may be wanted.
    pub fn has_limit(&self) -> bool
        ensures { result ≡ is_limited (book_limit self.now) }
    {
        match self.limit {
            Limit::All => false,
            Limit::First(_count) => true,
        }
    }

    /// A book, and the one seat that stands for all.
    fn with_all(alloc: Global, seats: u32, limit: Limit) -> Result<(SharedBook, Raw), Memory>
        requires { (0 < seats) × (seats ≤ 64) }
        ensures made { IfOk result (λ r. (seats_of r.0 ≡ seats) × (r.1.table_id ≡ book_id r.0)
            × (r.1.me ≡ (view Idle (fresh_owns 0 seats), []))) }
        ensures limit { IfOk result (λ r. book_limit r.0 ≡ limit) }
    {
        let mut slots = Vec::with_capacity(alloc, 1)?;
        slots.push(Some(Book::new(alloc)?))?;
        let Ok((table, first)) = Table::new(alloc, &[0, 0], slots, &(seats as u64)) else {
            return Err(Memory);
        };
        Ok((SharedBook { table, limit }, first))
    }

    /// The seats, each with one number.
    fn cut_seats(&self, mut first: Raw, mut list: Vec<Seat>, seats: u32) -> Vec<Seat>
        requires seats { (0 < seats) × (first.table_id ≡ book_id self.now)
            × (first.me ≡ (view Idle (fresh_owns 0 seats), [])) }
        requires list { (list.items ≡ []) × (seats ≤ vec_capacity list) }
        ensures { result.items ≡ new_seats (book_id self.now) 0 seats }
    {
        for number in 0..seats - 1 {
            let raw = self.table.shared.split_seat::<Cut>(&mut first);
            list.push_reserved(Seat { number, raw });
        }
        list.push_reserved(Seat {
            number: seats - 1,
            raw: first,
        });
        list
    }

    /// One seat that stands for all.
    fn unite(&self, last: Seat, mut seats: Vec<Seat>) -> Raw
        requires { (last.book ≡ book_id self.now) × AreOfBook (book_id self.now) seats.items }
        ensures { (result.table_id ≡ book_id self.now)
            × IsUnited result (seats.items ++ last ∷ []) }
    {
        let Seat {
            number: _,
            raw: mut first,
        } = last;
        while let Some(seat) = seats.pop() {
            let Seat { number: _, raw } = seat;
            self.table.shared.join_seat::<Unite>(&mut first, raw);
        }
        first
    }

    /// The book, where the one seat that stands for all is given.
    fn take_out(self, first: Raw) -> Book
        requires { (first.table_id ≡ book_id self) × (first.me.0.stage ≡ Idle)
            × (length first.me.0.owns ≡ seats_of self) }
        ensures known { AreKnown result first.me.0.owns }
        ensures makers { ((n : ℕ) → times_owned n first.me.0.owns ≡ 0 → places_of n result ≡ [])
            × ((n : ℕ) → seats_of self ≤ n → places_of n result ≡ []) }
    {
        let SharedBook { table, limit: _ } = self;
        let mut closed = table.close_with(first);
        let found = closed.take(0);
        closed.free();
        let Some(book) = found else { unreachable!() };
        book
    }

    /// The book itself, where all seats are given.
    fn finish(self, mut seats: Vec<Seat>) -> Book
        requires { AreOfBook (book_id self) seats.items × (length seats.items ≡ seats_of self) }
        ensures logged { AreLogged result seats.items }
        ensures makers { AreMadeBy (seats_of self) seats.items result }
    {
        let Some(last) = seats.pop() else {
            unreachable!()
        };
        let first = self.unite(last, seats);
        self.take_out(first)
    }

    /// What the book leaves, where all its seats are given: the history in order of the turns, and for
    /// each seat, in order of the numbers, the ascending places of exactly its own entries.
    ///
    /// The history begins with what each seat has seen, where all entries of that seat stand. The
    /// only error is want of memory; then the book is dropped.
    pub fn close(self, alloc: Global, seats: Vec<Seat>) -> Result<Closed, Memory>
        requires { AreOfBook (book_id self) seats.items × (length seats.items ≡ seats_of self) }
        ensures logged { IfOk result (λ c. AreLogged c.history seats.items) }
        ensures logs { IfOk result (λ c. c.logs ≡ logs_of (seats_of self) c.history) }
        ensures makers { IfOk result (λ c. AreMadeBy (seats_of self) seats.items c.history) }
        ensures legal { IfOk result (λ c. is_legal (entries_of c.history) ≡ true) }
    {
        let count = seats.len();
        let history = self.finish(seats).close();
        let logs = make_logs(alloc, history.items(), count)?;
        Ok(Closed {
            history,
            logs: List::of(logs),
        })
    }
}
