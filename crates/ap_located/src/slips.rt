//! Where an item can't go on.

/// What could stand there.
#[derive(Clone, Copy, PartialEq, Eq)]
pub enum Wanted {
    Item,
    Goal,
    Term,
    Type,
    /// A name behind `new`.
    Name,
    /// A variable behind `exists`.
    Variable,
    /// The word of a predicate.
    Word,
    /// The word of a data type behind `->`.
    ResultWord,
    /// `(`.
    Open,
    /// What closes the open bracket, or goes on with its parts.
    Close,
    /// The three parts of a swapping.
    Swap,
    /// `=` or `#` behind a term that is no goal.
    Relation,
    /// `:-` or the end.
    Body,
    /// `->`, or the end behind a word.
    Arrow,
    /// The types of a predicate in parentheses, or the end.
    PredicateTypes,
    /// `,`, `;` or the end.
    NextGoal,
    End,
}

/// The first token at which no item can go on, what could stand there, and the node that is open.
#[derive(Clone, Copy)]
pub struct Slip {
    pub token: usize,
    pub wanted: Wanted,
    pub open: usize,
}
