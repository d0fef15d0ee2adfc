//! What a book records of a search, and what it leaves at the end.

use crate::runs::Run;
use ap_defs::lists::List;
use ap_defs::paths::Path;

/// An entry of a book, with the number of the seat that made it.
#[derive(Drop)]
pub enum Entry {
    Split {
        seat: u32,
        path: Path,
        kids: List<u32>,
    },
    Done {
        seat: u32,
        path: Path,
        outs: List<Run>,
    },
    /// A path that is left out, since so many answers had ended before it.
    Skip {
        seat: u32,
        path: Path,
        found: u64,
    },
    Stop {
        seat: u32,
    },
}

/// A closed book: its history in order, and for each seat the positions of its own entries.
#[derive(Drop)]
pub struct Closed {
    pub history: List<Entry>,
    pub logs: List<List<u64>>,
}
