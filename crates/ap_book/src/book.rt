//! The book: its history, with the open paths beside it.

ghost use Rattle.std.specs.Prelude.{◌≡◌, ℕ, List as list, true, ◌∷◌, ◌++◌, [], if◌then◌else◌, IfOk, IfErr};
ghost use Rattle.ap_paths.specs.declared.entries.Entry.TheVariants.{Split, Done, Stop};
ghost use Rattle.ap_paths.specs.Entries.{entries_of};
ghost use Rattle.ap_paths.specs.History.{has_stop, is_legal, progress_of};
ghost use Rattle.ap_paths.specs.Trees.{Ascends};
ghost use Rattle.ap_book.specs.Answers.{Enters, EntersDone, Skips};
ghost use Rattle.ap_book.specs.Kept.{AreKidsOf};

use crate::counting::{Answered, reached};
use crate::error::{BookError, DoneError, SkipError};
use crate::kids::Kids;
use crate::opened::{has, make_room, only_root, replace, take_out};
use ap_defs::lists::List;
use ap_defs::memory::Memory;
use ap_defs::paths::{Path, Progress};
use ap_paths::{Entry, Limit, Run};
use std::alloc::Global;
use std::collections::HashSet;
use std::marker::Model;

/// Which paths of a search were split, have ended or were left out. At first the empty path is open.
///
/// Contracts see a book as its history. That is always legal: each path was open at its entry, before
/// each that was left out so many answers had ended, and at most one Stop stands there.
#[derive(Drop)]
pub struct Book {
    history: Vec<Entry>,
    opened: HashSet<Vec<u32>>,
    stopped: bool,
    // What `skip` has looked at.
    answered: Answered,
}

impl Model for Book {
    ghost use Rattle.std.specs.Prelude.{List as list};
    ghost use Rattle.ap_paths.specs.declared.entries.Entry.{Entry};

    ghost Value = { list Entry };

    ghost use Rattle.ap_paths.specs.contracts.entries.Entry as e;
    ghost use Rattle.std.specs.Coded.{coded_list};

    ghost coded = { coded_list e.the_row.coded };

    ghost use Rattle.std.specs.Prelude.{◌≡◌, false, ◌<◌, vec_len, vec_capacity};
    ghost use Rattle.ap_paths.specs.Entries.{entries_of};
    ghost use Rattle.ap_book.specs.Kept.{paths_of, IsBookKept};
    ghost use Rattle.ap_book.specs.Counts.{IsTallied};

    ghost view = { λ b. b.history.items };

    ghost invariant = { λ b. IsBookKept (entries_of b.history.items) (paths_of b.opened.keys) b.stopped × (b.stopped ≡ false → vec_len b.history < vec_capacity b.history) × IsTallied b.history.items b.answered.places.items b.answered.seen };
}

impl Book {
    /// A book with no entry, which has room for a Stop.
    pub fn new(alloc: Global) -> Result<Book, Memory>
        ensures { IfOk result (λ b. b ≡ []) }
    {
        Ok(Book {
            history: Vec::with_capacity(alloc, 1)?,
            opened: only_root(alloc)?,
            stopped: false,
            answered: Answered::new(alloc),
        })
    }

    /// Replaces an open path by its kids, which ascend strictly from at least 1.
    ///
    /// `NotOpen` comes exactly where the path is not open. After an error the book is unchanged.
    pub fn split(
        &mut self,
        alloc: Global,
        seat: u32,
        path: &Path,
        kids: &[u32],
    ) -> Result<(), BookError>
        requires { Ascends 1 kids.now }
        ensures { Enters self.old path.now (Split seat path.now kids.now) result self.new }
    {
        self.enter_split(seat, path, Kids::of(alloc, path, kids))
    }

    /// The same, with kids that were made ready before, or for which memory was wanting.
    pub fn enter_split(
        &mut self,
        seat: u32,
        path: &Path,
        kids: Result<Kids, Memory>,
    ) -> Result<(), BookError>
        requires ready { IfOk kids (λ k. AreKidsOf path.now k.choices.items k) }
        requires ascends { IfOk kids (λ k. Ascends 1 k.choices.items) }
        ensures { (ks : list ℕ) → IfOk kids (λ k. k.choices.items ≡ ks) →
            Enters self.old path.now (Split seat path.now ks) result self.new }
    {
        if !has(&self.opened, path) {
            return Err(BookError::NotOpen);
        }
        let Ok(Kids { choices, paths }) = kids else {
            return Err(BookError::Memory);
        };
        if self.history.reserve(2).is_err() {
            return Err(BookError::Memory);
        }
        if make_room(&mut self.opened, paths.len()).is_err() {
            return Err(BookError::Memory);
        }
        let taken = replace(&mut self.opened, path, paths);
        self.history.push_reserved(Entry::Split {
            seat,
            path: Path::of(taken),
            kids: List::of(choices),
        });
        Ok(())
    }

    /// Ends an open path, with the outputs below it.
    ///
    /// `NotOpen` comes exactly where the path is not open. After an error the book is unchanged,
    /// and the outputs come back.
    pub fn done(&mut self, seat: u32, path: &Path, outs: Vec<Run>) -> Result<(), DoneError>
        ensures { EntersDone self.old path.now outs.items (Done seat path.now outs.items) result
            self.new }
    {
        let outs = List::of(outs);
        if !has(&self.opened, path) {
            return Err(DoneError {
                cause: BookError::NotOpen,
                outs,
            });
        }
        if self.history.reserve(2).is_err() {
            return Err(DoneError {
                cause: BookError::Memory,
                outs,
            });
        }
        let taken = take_out(&mut self.opened, path);
        self.history.push_reserved(Entry::Done {
            seat,
            path: Path::of(taken),
            outs,
        });
        Ok(())
    }

    /// Leaves out an open path, where so many answers have ended before it as are wanted.
    ///
    /// `NotOpen` comes exactly where the path is not open, and `Needed` exactly where it is and fewer
    /// have ended before it, with their number. After an error the book is unchanged.
    pub fn skip(&mut self, seat: u32, path: &Path, limit: Limit) -> Result<(), SkipError>
        ensures { Skips self.old path.now limit seat result self.new }
    {
        if !has(&self.opened, path) {
            return Err(SkipError::NotOpen);
        }
        self.answered.look(self.history.as_slice());
        let found = self.answered.before(path, self.history.as_slice());
        let Some(wanted) = reached(limit, found) else {
            return Err(SkipError::Needed(found));
        };
        if self.history.reserve(2).is_err() {
            return Err(SkipError::Memory);
        }
        let taken = take_out(&mut self.opened, path);
        self.history.push_reserved(Entry::Skip {
            seat,
            path: Path::of(taken),
            found: wanted,
        });
        Ok(())
    }

    /// Adds a Stop, unless one stands. It takes no memory.
    pub fn stop(&mut self, seat: u32)
        ensures { self.new
            ≡ (if has_stop (entries_of self.old) then self.old else self.old ++ Stop seat ∷ []) }
    {
        if !self.stopped {
            self.history.push_reserved(Entry::Stop { seat });
            self.stopped = true;
        }
    }

    /// How far the search is: stopped where a Stop stands, else finished where no path is open,
    /// else how many are open.
    pub fn status(&self) -> Progress
        ensures value { result ≡ progress_of (entries_of self.now) }
        ensures legal { is_legal (entries_of self.now) ≡ true }
    {
        if self.stopped {
            Progress::Stopped
        } else if self.opened.is_empty() {
            Progress::Finished
        } else {
            Progress::Left(self.opened.len() as u64)
        }
    }

    /// The entries, in order.
    pub fn close(self) -> List<Entry>
        ensures value { result ≡ self }
        ensures legal { is_legal (entries_of result) ≡ true }
    {
        let Book {
            history,
            opened,
            stopped: _,
            answered,
        } = self;
        drop(opened);
        drop(answered);
        List::of(history)
    }
}
