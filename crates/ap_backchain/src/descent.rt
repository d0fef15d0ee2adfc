//! The search of a problem on its way along a path.

ghost use Rattle.std.specs.Prelude.{◌≡◌, ◌-◌, ◌++◌, [], ◌∷◌, Some, IfOk, slice_get};
ghost use Rattle.ap_defs.specs.Goals.{NominalQuery};
ghost use Rattle.ap_paths.specs.Trees.{IsChoice};
ghost use Rattle.ap_search.specs.PathTrees.{query_choices};
ghost use Rattle.ap_backchain.specs.Branches.{IsBranchOf, IsDescentOf, path_of_branch, path_of_descent, width_of_descent};
ghost use Rattle.ap_backchain.specs.Problems.{HasQuery, clauses_in, queries_in};
ghost use Rattle.ap_backchain.specs.declared.problem.Problem.{Problem};

use crate::branch::{Branch, branch_at};
use crate::problem::{Problem, clauses_of_problem, query_of_problem};
use crate::run::first_machine;
use crate::standing::advance;
use crate::step::choose;
use ap_defs::memory::Memory;
use ap_turns::standing::{Standing, width_of};
use std::alloc::Global;

/// The search of a problem on its way along a path: it has been run up to a choice or to its end. Which
/// ways a choice keeps is looked up where it stops, as a branch, and at no choice on the way.
#[derive(Drop)]
pub struct Descent<'a> {
    pub(crate) standing: Standing<'a>,
}

impl<'a> Descent<'a> {
    /// The search at the empty path.
    pub fn root(alloc: Global, p: &Problem<'a>) -> Result<Descent<'a>, Memory>
        requires { HasQuery p.now }
        ensures of { IfOk result (λ d. IsDescentOf p.now d) }
        ensures path { IfOk result (λ d. path_of_descent d ≡ []) }
    {
        let clauses = clauses_of_problem(p);
        let query = query_of_problem(p);
        let machine = first_machine(alloc, p.depth, query)?;
        let standing = advance(alloc, clauses, query.locals.items(), machine)?;
        Ok(Descent { standing })
    }

    /// Among how many ways the search chooses at the path, if it does. It takes no memory.
    pub fn width(&self) -> Option<u32>
        ensures width { result ≡ width_of_descent self.now }
        ensures exact { (p : Problem) (q : NominalQuery) →
            slice_get (queries_in p) (p.query - 1) ≡ Some q → IsDescentOf p self.now →
            result ≡ query_choices (clauses_in p) p.depth q (path_of_descent self.now) }
    {
        width_of(&self.standing)
    }

    /// The search one way further, run up to its next choice or its end. This one is consumed, on want
    /// of memory too.
    pub fn step(self, alloc: Global, p: &Problem<'a>, choice: u32) -> Result<Descent<'a>, Memory>
        requires query { HasQuery p.now }
        requires of { IsDescentOf p.now self }
        requires choice { IsChoice (width_of_descent self) choice }
        ensures of { IfOk result (λ d. IsDescentOf p.now d) }
        ensures path { IfOk result (λ d. path_of_descent d
            ≡ path_of_descent self.entry ++ choice ∷ []) }
    {
        let clauses = clauses_of_problem(p);
        let query = query_of_problem(p);
        let standing = choose(alloc, clauses, query.locals.items(), self.standing, choice)?;
        Ok(Descent { standing })
    }

    /// The branch at the path, with the ways that are kept there.
    pub fn stop(self, alloc: Global, p: &Problem<'a>) -> Result<Branch<'a>, Memory>
        requires query { HasQuery p.now }
        requires of { IsDescentOf p.now self }
        ensures of { IfOk result (λ b. IsBranchOf p.now b) }
        ensures path { IfOk result (λ b. path_of_branch b ≡ path_of_descent self.entry) }
    {
        let clauses = clauses_of_problem(p);
        let branch = branch_at(alloc, clauses, self.standing)?;
        Ok(branch)
    }
}
