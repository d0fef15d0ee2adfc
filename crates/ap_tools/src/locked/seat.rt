//! The seats of a shared book, and what they ask of it.

ghost use Rattle.std.specs.Prelude.{◌≡◌, List as list, [], ◌∷◌, ◌++◌, if◌then◌else◌};
ghost use Rattle.ap_paths.specs.declared.entries.Entry.{Entry};
ghost use Rattle.ap_paths.specs.declared.entries.Entry.TheVariants.{Split, Done, Stop};
ghost use Rattle.ap_paths.specs.Entries.{entries_of};
ghost use Rattle.ap_paths.specs.Trees.{Ascends};
ghost use Rattle.ap_paths.specs.History.{has_stop, progress_of};
ghost use Rattle.ap_book.specs.Answers.{Enters, EntersDone, Skips};
ghost use Rattle.ap_tools.specs.Turns.{Begins};
ghost use Rattle.ap_tools.specs.Seats.{book_id, book_limit, SameSeat, IsTurn};

use crate::locked::shared::{Raw, SharedBook};
use ap_book::{BookError, DoneError, Kids, SkipError};
use ap_defs::paths::{Path, Progress};
use ap_paths::Run;
use std::alloc::Global;
use std::marker::Model;
use std::sync::Wait;

/// A worker's place at a shared book. Contracts see it as its book, its number and the history as it
/// last saw it; its log is the places of its own entries there.
#[derive(Drop)]
pub struct Seat {
    pub(crate) number: u32,
    pub(crate) raw: Raw,
}

impl Model for Seat {
    ghost use Rattle.ap_tools.specs.Seats.{SeatView, seat_view, IsSeat};

    ghost Value = { SeatView };

    ghost use Rattle.ap_paths.specs.contracts.entries.Entry as e;
    ghost use Rattle.ap_tools.specs.Seats.{seat_code};

    ghost coded = { seat_code e.the_row.coded };

    ghost view = { λ s. seat_view s.number s.raw };

    ghost invariant = { λ s. IsSeat s.number s.raw };
}

impl Seat {
    /// Which of the book's seats it is: from 0 on, as they were made.
    pub fn number(&self) -> u32
        ensures { result ≡ self.now.number }
    {
        self.number
    }
}

impl SharedBook {
    /// How far the search is. As each call on a seat it takes one turn of the lock, at a history that
    /// begins with all that the seat has seen, and answers what the book answers there. It may wait,
    /// and takes no memory.
    pub fn status<R: Wait>(&self, rt: &R, seat: &mut Seat) -> Progress
        requires { seat.old.book ≡ book_id self.now }
        ensures same { SameSeat seat.old seat.new }
        ensures turn { IsTurn seat.old seat.new.seen }
        ensures answer { result ≡ progress_of (entries_of seat.new.seen) }
    {
        let book = self.open(rt, &mut seat.raw);
        let answer = book.status();
        self.shut(&mut seat.raw, book);
        answer
    }

    /// Replaces an open path by its kids, which ascend strictly from at least 1, in one turn. What it
    /// puts into the book is made before that turn. It may wait.
    ///
    /// `NotOpen` comes exactly where the path is not open at that turn, and `Memory` only where it
    /// is. After an error no entry was made.
    pub fn split<R: Wait>(
        &self,
        rt: &R,
        alloc: Global,
        seat: &mut Seat,
        path: &Path,
        kids: &[u32],
    ) -> Result<(), BookError>
        requires seat { seat.old.book ≡ book_id self.now }
        requires kids { Ascends 1 kids.now }
        ensures same { SameSeat seat.old seat.new }
        ensures turn { (turn : list Entry) × IsTurn seat.old turn
            × Enters turn path.now (Split seat.old.number path.now kids.now) result seat.new.seen }
    {
        let ready = Kids::of(alloc, path, kids);
        let mut book = self.open(rt, &mut seat.raw);
        let answer = book.enter_split(seat.number, path, ready);
        self.shut(&mut seat.raw, book);
        answer
    }

    /// Ends an open path, with the outputs below it, in one turn. It may wait.
    ///
    /// `NotOpen` comes exactly where the path is not open at that turn, and `Memory` only where it
    /// is. After an error no entry was made, and the outputs come back.
    pub fn done<R: Wait>(
        &self,
        rt: &R,
        seat: &mut Seat,
        path: &Path,
        outs: Vec<Run>,
    ) -> Result<(), DoneError>
        requires { seat.old.book ≡ book_id self.now }
        ensures same { SameSeat seat.old seat.new }
        ensures turn { (turn : list Entry) × IsTurn seat.old turn
            × EntersDone turn path.now outs.items (Done seat.old.number path.now outs.items) result
            seat.new.seen }
    {
        let mut book = self.open(rt, &mut seat.raw);
        let answer = book.done(seat.number, path, outs);
        self.shut(&mut seat.raw, book);
        answer
    }

    /// Leaves out an open path in one turn, where as many answers have ended before it as are wanted. It
    /// may wait.
    ///
    /// `NotOpen` comes exactly where the path is not open at that turn, and `Needed` exactly where it is
    /// and fewer have ended before it, with their number. After an error no entry was made.
    pub fn skip<R: Wait>(&self, rt: &R, seat: &mut Seat, path: &Path) -> Result<(), SkipError>
        requires { seat.old.book ≡ book_id self.now }
        ensures same { SameSeat seat.old seat.new }
        ensures turn { (turn : list Entry) × IsTurn seat.old turn
            × Skips turn path.now (book_limit self.now) seat.old.number result seat.new.seen }
    {
        let mut book = self.open(rt, &mut seat.raw);
        let answer = book.skip(seat.number, path, self.limit);
        self.shut(&mut seat.raw, book);
        answer
    }

    /// Adds a Stop in one turn, unless one stands. It may wait, and takes no memory.
    pub fn stop<R: Wait>(&self, rt: &R, seat: &mut Seat)
        requires { seat.old.book ≡ book_id self.now }
        ensures same { SameSeat seat.old seat.new }
        ensures turn { (turn : list Entry) × IsTurn seat.old turn
            × (seat.new.seen
            ≡ (if has_stop (entries_of turn) then turn else turn ++ Stop seat.old.number ∷ [])) }
    {
        let mut book = self.open(rt, &mut seat.raw);
        book.stop(seat.number);
        self.shut(&mut seat.raw, book);
    }
}
