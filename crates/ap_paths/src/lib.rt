//! Trees of paths: what a search is to whoever visits it, and what its histories are.
//!
//! A tree answers at a path with the kids that are worth a visit, or with all outputs below it, as runs: cut
//! or stuck branches without paths, one after another, are a number.
//! A history records which paths were split, which have ended, and which were left out since answers
//! enough had ended before them. It is legal where each path was open at its entry, and true for a tree
//! where its entries are what the tree answers. Clauses see histories and outputs through `entries_of`
//! and `outs_of_runs`, without addresses.
#![tactic(auto)]

mod endings;
mod entries;
mod laws;
mod limits;
mod runs;
mod tree;

pub use ap_defs::paths::{Out, Path};
pub use endings::Endings;
pub use entries::{Closed, Entry};
pub use laws::merges_whole;
pub use limits::{Limit, answers_in, answers_in_runs, part};
pub use runs::{Run, outs_in_full, push_run, runs_of};
pub use tree::{Tree, Visit};
