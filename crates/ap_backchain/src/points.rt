//! Choice points: choices of which some ways are still to be tried.

use ap_defs::terms::Term;
use ap_index::predicate::Predicate;
use ap_machine::frames::Frame;
use ap_machine::saves::Save;

/// The clauses of an atom with these arguments, of which so many were tried. The numbers in the
/// arguments are raised by `base`, and the body of a clause has the depth.
#[derive(Clone, Copy)]
pub struct Untried<'a> {
    pub args: &'a [Term],
    pub base: u64,
    pub depth: u32,
    pub clauses: &'a Predicate<'a>,
    pub tried: usize,
}

/// The ways that a choice has left: the right side of a disjunction, or further clauses.
#[derive(Clone, Copy)]
pub enum Rest<'a> {
    Right(Frame<'a>),
    Clauses(Untried<'a>),
}

/// What the search goes back to: a choice with the ways that are left, and how far the search had come.
#[derive(Clone, Copy)]
pub struct ChoicePoint<'a> {
    pub save: Save,
    pub rest: Rest<'a>,
}
