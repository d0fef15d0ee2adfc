//! What a seat knows. No value of it is made: it stands in contracts alone.

use ap_paths::Entry;
use std::collections::LinkedList;

/// Where a seat is: it asks nothing, it has drawn this ticket, or this ticket is served.
pub enum Stage {
    Idle,
    Waiting(u64),
    Turn(u64),
}

/// A seat's number, and the history as that seat last saw it.
pub struct Own {
    pub number: u64,
    pub seen: LinkedList<Entry>,
}

/// What is known of a seat. It has one number, but for the first and the last seat of a book, which
/// stand for all.
pub struct View {
    pub stage: Stage,
    pub owns: LinkedList<Own>,
}
