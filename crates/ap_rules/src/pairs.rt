//! What unification has yet to do, over terms that are shared instead of copied.

use ap_defs::terms::{Cond, Name};
use ap_perm::closures::Closure;
use std::alloc::Global;

/// Two closures that are to be equal.
#[derive(Drop)]
pub struct ClosurePair<'a> {
    pub left: Closure<'a>,
    pub right: Closure<'a>,
}

/// A name that is to be fresh for a closure, or for a variable.
#[derive(Drop)]
pub enum FreshFor<'a> {
    OfTerm(Name, Closure<'a>),
    OfVar(Cond),
}

/// The equations that are left, of which the last comes first, the freshness problems that were met,
/// and the conditions that were on variables when these were bound.
#[derive(Drop)]
pub struct Work<'a> {
    pub equations: Vec<ClosurePair<'a>>,
    pub problems: Vec<FreshFor<'a>>,
    pub taken: Vec<Cond>,
}

impl<'a> Work<'a> {
    ghost use Rattle.ap_rules.specs.Work.{HasNothingToDo};

    /// Nothing to do. It takes no memory.
    pub fn new(alloc: Global) -> Work<'a>
        ensures { HasNothingToDo result }
    {
        Work {
            equations: Vec::new(alloc),
            problems: Vec::new(alloc),
            taken: Vec::new(alloc),
        }
    }

    /// Nothing is left to do, and the memory is kept for what comes next.
    pub fn clear(&mut self)
        ensures { HasNothingToDo self.new }
    {
        self.equations.clear();
        self.problems.clear();
        self.taken.clear();
    }
}
