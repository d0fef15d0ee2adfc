//! The book of a search: which paths were split, have ended or were left out, and their outputs merged.
#![tactic(auto)]

mod book;
mod counting;
mod error;
mod kids;
mod merging;
mod opened;

pub use book::Book;
pub use error::{BookError, DoneError, SkipError};
pub use kids::Kids;
pub use merging::merge;
