//! The clauses and queries of a text.

use crate::marks::{Kind, Mark, kind_at, narrowed};

/// What was seen of a clause: its predicate's place among those that have clauses, how many arguments the heads have up
/// to its own last one, and whether one of its variables stands once.
#[derive(Clone, Copy)]
pub(crate) struct Head {
    predicate: u32,
    arguments: u32,
    pub has_single: bool,
}

impl Head {
    pub(crate) fn of(predicate: usize, arguments: usize, has_single: bool) -> Head {
        Head {
            predicate: narrowed(predicate),
            arguments: narrowed(arguments),
            has_single,
        }
    }

    /// Its predicate's place among those that have clauses.
    pub(crate) fn predicate(self) -> usize {
        self.predicate as usize
    }

    /// How many arguments the heads have up to its own last one.
    pub(crate) fn arguments(self) -> usize {
        self.arguments as usize
    }
}

/// A clause or a query: the place of its first byte, how many calls stand in the text up to its end, and what was seen of
/// it where it is a clause.
#[derive(Clone, Copy)]
pub(crate) struct Part {
    start: u32,
    calls: u32,
    pub head: Option<Head>,
}

impl Part {
    pub(crate) fn of(start: usize, calls: usize, head: Option<Head>) -> Part {
        Part {
            start: narrowed(start),
            calls: narrowed(calls),
            head,
        }
    }

    /// The place of its first byte.
    pub(crate) fn start(self) -> usize {
        self.start as usize
    }

    /// How many calls stand in the text up to its end.
    pub(crate) fn calls(self) -> usize {
        self.calls as usize
    }
}

/// Whether the item of these tokens declares something.
pub(crate) fn declares(marks: &[Mark]) -> bool {
    match kind_at(marks, 0) {
        Kind::Predicate => true,
        Kind::Word => matches!(kind_at(marks, 1), Kind::Colon),
        _ => false,
    }
}

/// Whether the item of these tokens, which declares nothing, is a clause.
pub(crate) fn is_clause(marks: &[Mark]) -> bool {
    matches!(kind_at(marks, 0), Kind::Word)
}
