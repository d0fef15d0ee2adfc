//! How far a search has come.

use ap_store::store::Mark;

/// How far a search had come: the version of the store, and how many cells, choices and ranges of
/// variables there were, with the number of the first goal that waited.
#[derive(Clone, Copy)]
pub struct Save {
    pub mark: Mark,
    pub cells: usize,
    pub first: usize,
    pub path: usize,
    pub brought: usize,
}
