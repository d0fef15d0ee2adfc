//! Terms of a table that are lent.

use crate::arena::SharedTerms;

/// A term of a table.
#[derive(Clone, Copy)]
pub struct Shared<'a> {
    pub terms: &'a SharedTerms,
    pub line: usize,
}

/// Terms of a table, in order.
#[derive(Clone, Copy)]
pub struct Given<'a> {
    pub terms: &'a SharedTerms,
    pub lines: &'a [usize],
}
