//! How many answers have ended before a path.

ghost use Rattle.std.specs.Prelude.{◌≡◌, ℕ, ◌+◌, ◌-◌, ◌^◌, ◌<◌, ◌≤◌, List as list, [], true, false, length, min, MatchOption, slice_get};
ghost use Rattle.ap_paths.specs.declared.limits.Limit.TheVariants as limits;
ghost use Rattle.ap_paths.specs.Entries.{entry_of, entries_of};
ghost use Rattle.ap_paths.specs.History as said;
ghost use Rattle.ap_paths.specs.Limits.{IsWanting};
ghost use Rattle.ap_book.specs.Counts.{adds, adds_at, entries_counted, IsTallied};

use ap_defs::paths::Path;
use ap_paths::{Entry, Limit, answers_in_runs};
use std::alloc::Global;

/// The places of the entries that end a path with answers, as far as a history was looked through.
#[derive(Drop)]
pub struct Answered {
    pub places: Vec<usize>,
    pub seen: usize,
}

impl Answered {
    /// No places, of a history that was not looked through. It takes no memory.
    pub fn new(alloc: Global) -> Answered
        ensures { (result.places.items ≡ []) × (result.seen ≡ 0) }
    {
        Answered {
            places: Vec::new(alloc),
            seen: 0,
        }
    }

    /// Looks at one more entry. Says no where memory is wanting.
    fn look_next(&mut self, history: &[Entry]) -> bool
        requires tallied { IsTallied history.now self.old.places.items self.old.seen }
        requires more { self.old.seen < length history.now }
        ensures tallied { IsTallied history.now self.new.places.items self.new.seen }
        ensures next { result ≡ true → self.new.seen ≡ self.old.seen + 1 }
    {
        let place = self.seen;
        let entry = &history[place];
        if !has_answers(entry) {
            self.seen = place + 1;
            return true;
        }
        if self.places.push(place).is_err() {
            return false;
        }
        self.seen = place + 1;
        true
    }

    /// Looks through what came since. Where memory is wanting, it goes on the next time.
    pub fn look(&mut self, history: &[Entry])
        requires { IsTallied history.now self.old.places.items self.old.seen }
        ensures { IsTallied history.now self.new.places.items self.new.seen }
    {
        while self.seen < history.len() {
            if !self.look_next(history) {
                return;
            }
        }
    }

    /// How many answers the entries at these places have, where they end paths before this one.
    fn at_places(&self, path: &Path, history: &[Entry]) -> u64
        requires { IsTallied history.now self.now.places.items self.now.seen }
        ensures { result
            ≡ min (entries_counted path.now history.now self.now.places.items) (2 ^ 64 - 1) }
    {
        let mut count: u64 = 0;
        for place in self.places.as_slice() {
            count = count.saturating_add(answers_at(path, history, *place));
        }
        count
    }

    /// How many answers have ended in the history with paths before this one, or the greatest count
    /// where there are more.
    pub fn before(&self, path: &Path, history: &[Entry]) -> u64
        requires { IsTallied history.now self.now.places.items self.now.seen }
        ensures { result
            ≡ min (said.answers_before path.now (entries_of history.now)) (2 ^ 64 - 1) }
    {
        let mut count = self.at_places(path, history);
        for i in self.seen..history.len() {
            let entry = &history[i];
            count = count.saturating_add(answers_of(path, entry));
        }
        count
    }
}

/// The answers of the entry at a place, where it ends a path before this one.
fn answers_at(path: &Path, history: &[Entry], place: usize) -> u64
    requires { place < length history.now }
    ensures { result ≡ min (adds_at path.now (slice_get history.now place)) (2 ^ 64 - 1) }
{
    let entry = &history[place];
    answers_of(path, entry)
}

/// Whether an entry ends a path with answers.
fn has_answers(entry: &Entry) -> bool
    ensures { result ≡ false → (p : list ℕ) → adds p (entry_of entry.now) ≡ 0 }
{
    match entry {
        Entry::Done {
            seat: _seat,
            path: _path,
            outs,
        } => answers_in_runs(outs.items()) > 0,
        Entry::Split {
            seat: _seat,
            path: _path,
            kids: _kids,
        } => false,
        Entry::Skip {
            seat: _seat,
            path: _path,
            found: _found,
        } => false,
        Entry::Stop { seat: _seat } => false,
    }
}

/// The answers of an entry, where it ends a path before this one.
fn answers_of(path: &Path, entry: &Entry) -> u64
    ensures { result ≡ min (adds path.now (entry_of entry.now)) (2 ^ 64 - 1) }
{
    match entry {
        Entry::Done {
            seat: _seat,
            path: ended,
            outs,
        } => {
            if ended.cmp(path).is_lt() {
                answers_in_runs(outs.items())
            } else {
                0
            }
        }
        Entry::Split {
            seat: _seat,
            path: _path,
            kids: _kids,
        } => 0,
        Entry::Skip {
            seat: _seat,
            path: _path,
            found: _found,
        } => 0,
        Entry::Stop { seat: _seat } => 0,
    }
}

/// How many are wanted, where so many are there.
pub fn reached(limit: Limit, found: u64) -> Option<u64>
    ensures { MatchOption result (IsWanting limit found) (λ w. (limit ≡ limits.First w)
        × (w ≤ found)) }
{
    match limit {
        Limit::All => None,
        Limit::First(wanted) => { if wanted <= found { Some(wanted) } else { None } }
    }
}
