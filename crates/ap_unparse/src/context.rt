//! Where a term stands in a text.

/// By itself, as the right part of a pair, or as the rest of a list.
#[derive(Clone, Copy)]
pub enum Context {
    Whole,
    Part,
    Rest,
}
