//! A goal is read, written back and dropped.

use crate::spelling::Spelling;
use crate::written::part_of;
use ap_syntax::SynError;

/// What became of a goal.
#[derive(Clone, Copy)]
pub enum Outcome {
    /// It was not read as a query.
    NotRead,
    /// Something else was written.
    Other,
    /// It was written as it was read.
    Same,
}

impl Outcome {
    /// What is printed of it.
    pub fn text(self) -> &'static str {
        match self {
            Outcome::NotRead => "not read",
            Outcome::Other => "written otherwise",
            Outcome::Same => "read, written and dropped",
        }
    }
}

/// What becomes of a goal that is read as a query's, and written.
pub fn round_of(out: &mut Spelling, goal: &str) -> Outcome {
    let text = out.joined(&["?- ", goal, "."]);
    match part_of(out.alloc(), &text) {
        Ok(Some((_, bytes))) if bytes.as_slice() == goal.as_bytes() => Outcome::Same,
        Ok(Some(_)) => Outcome::Other,
        Ok(None) | Err(SynError::Fault(_)) => Outcome::NotRead,
        Err(SynError::Memory) => {
            out.lose();
            Outcome::NotRead
        }
    }
}
