//! Goals that wait.

use ap_defs::goals::Goal;
use ap_defs::terms::Term;

/// A goal of the program that waits. Its identifiers are numbered from `base` on, and the atoms in
/// it have this depth.
#[derive(Clone, Copy)]
pub struct Frame<'a> {
    pub goal: &'a Goal<Term>,
    pub base: u64,
    pub depth: u32,
}

/// A goal that waits, as a frame has it, and the number of the one behind it, from 1, or 0 where it is the last. A
/// search has many, so one is small.
#[derive(Clone, Copy)]
pub struct Cell<'a> {
    pub goal: &'a Goal<Term>,
    pub base: u32,
    pub depth: u32,
    pub next: u32,
}
