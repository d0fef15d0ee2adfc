//! The lines of a table of terms.

use ap_defs::lists::Swaps;
use ap_defs::terms::{Name, Var};

/// A term by the lines of its parts. It takes 24 bytes: a binder stands as its sort and its number, and the
/// swappings of a suspension stand in a box of their own.
#[derive(Drop)]
pub enum Entry {
    Unit,
    Name(Name),
    Pair(usize, usize),
    App(u32, usize),
    Abs(u32, u64, usize),
    Susp(Swaps, Var),
}

/// A line of a table, and how large its term is in full, where that is below 2 ^ 64.
#[derive(Drop)]
pub struct SharedLine {
    pub entry: Entry,
    pub size: Option<u64>,
}
