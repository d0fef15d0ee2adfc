//! What becomes of what a report no longer needs where the process is about to end.

use std::mem;

/// What becomes of a program once the report on it stands, and of its last answer. To drop a large one takes as
/// long as to make a good part of it, and serves nothing where the process is about to end.
#[derive(Clone, Copy)]
pub enum AtEnd {
    /// They are dropped: their memory serves what comes next.
    Dropped,
    /// They are left to the system, which takes back all memory of a process that ends.
    Left,
}

impl AtEnd {
    /// What becomes of the last answer of a query. Other queries come behind it, unless it is the last one.
    pub fn of_query(self, is_last: bool) -> AtEnd {
        if is_last { self } else { AtEnd::Dropped }
    }

    /// Drops a value that is needed no longer, or leaves it.
    pub fn end<T: Drop>(self, value: T) {
        match self {
            AtEnd::Dropped => drop(value),
            AtEnd::Left => mem::forget(value),
        }
    }
}
