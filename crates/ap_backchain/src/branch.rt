//! Branches of the search of a problem, from choice to choice.

ghost use Rattle.std.specs.Prelude.{◌≡◌, ◌-◌, ◌<◌, ◌≤◌, ◌++◌, [], ◌∷◌, None, Some, IfOk, IfSome, map, slice_get};
ghost use Rattle.ap_defs.specs.Answers.{answer_of, found, outs_at, outs_of};
ghost use Rattle.ap_defs.specs.Goals.{NominalQuery, program_in};
ghost use Rattle.ap_search.specs.Marks.{outs_among};
ghost use Rattle.ap_backchain.specs.declared.problem.Problem.{Problem};
ghost use Rattle.ap_machine.specs.Asking.{answering_of};
ghost use Rattle.ap_machine.specs.Below.{AreClausesBelow};
ghost use Rattle.ap_backchain.specs.Branches.{IsAnswering, IsBranchOf, IsChoiceOf, IsNodeAt, choices_at, path_of_branch};
ghost use Rattle.ap_turns.specs.Standings.{IsChoosing, IsNamedNode, marks_of_standing};
ghost use Rattle.ap_backchain.specs.Ends.{kept_out};
ghost use Rattle.ap_turns.specs.Marks.{choices_among};
ghost use Rattle.ap_backchain.specs.Problems.{HasQuery, clauses_in, queries_in};

use crate::counted::outputs_by_choices;
use crate::descent::Descent;
use crate::ends::out_with;
use crate::problem::{Problem, clauses_of_problem, query_of_problem};
use crate::run::{Paths, outputs_from};
use ap_defs::memory::Memory;
use ap_defs::outcomes::Answer;
use ap_defs::paths::{Node, Out};
use ap_index::predicate::Predicate;
use ap_machine::answer_copies::copy_answer;
use ap_machine::asked::Asked;
use ap_paths::Limit;
use ap_turns::standing::{Standing, node_of, path_of};
use std::alloc::Global;

/// A branch of a search, which has been run up to a choice or to its end.
#[derive(Drop)]
pub struct Branch<'a> {
    node: Node,
    standing: Standing<'a>,
}

/// The branch that stands there.
pub(crate) fn branch_at<'a>(
    alloc: Global,
    clauses: &'a [Predicate<'a>],
    standing: Standing<'a>,
) -> Result<Branch<'a>, Memory>
    requires clauses { AreClausesBelow (program_in clauses.now) }
    requires choosing { IsChoosing (program_in clauses.now) standing }
    ensures standing { IfOk result (λ b. b.standing ≡ standing.entry) }
    ensures named { IfOk result (λ b. IsNamedNode (program_in clauses.now) b.node b.standing) }
{
    let node = node_of(alloc, clauses, &standing)?;
    Ok(Branch { node, standing })
}

/// The outputs of where a search stands, with their paths or without.
fn outs_of_standing<'a>(
    alloc: Global,
    clauses: &'a [Predicate<'a>],
    asked: &Asked<'_>,
    paths: Paths,
    standing: Standing<'a>,
) -> Result<Vec<Out>, Memory>
    requires clauses { AreClausesBelow (program_in clauses.now) }
    ensures { IfOk result (λ v. outs_of v.items
        ≡ map (kept_out paths) (outs_among (marks_of_standing (program_in clauses.now)
        (answering_of asked.now) standing.entry))) }
{
    match standing {
        Standing::Choosing(_, machine) => {
            outputs_from(alloc, clauses, asked, paths, Limit::All, machine)
        }
        Standing::Ended(out) => {
            let mut outs = Vec::new(alloc);
            outs.push(out_with(alloc, paths, out))?;
            Ok(outs)
        }
        Standing::Failed(_) => Ok(Vec::new(alloc)),
    }
}

/// The outputs of where a search stands, with their paths or without, where it makes at most so many
/// choices: none says that it makes more.
fn outs_by_choices<'a>(
    alloc: Global,
    clauses: &'a [Predicate<'a>],
    asked: &Asked<'_>,
    paths: Paths,
    most: u64,
    standing: Standing<'a>,
) -> Result<Option<Vec<Out>>, Memory>
    requires clauses { AreClausesBelow (program_in clauses.now) }
    ensures outs { IfOk result (λ o. IfSome o (λ v. outs_of v.items
        ≡ map (kept_out paths) (outs_among (marks_of_standing (program_in clauses.now)
        (answering_of asked.now) standing.entry)))) }
    ensures few { IfOk result (λ o. IfSome o (λ v.
        choices_among (marks_of_standing (program_in clauses.now)
        (answering_of asked.now) standing.entry) ≤ most)) }
    ensures many { IfOk result (λ o. o ≡ None →
        most < choices_among (marks_of_standing (program_in clauses.now)
        (answering_of asked.now) standing.entry)) }
{
    match standing {
        Standing::Choosing(_, machine) => {
            outputs_by_choices(alloc, clauses, asked, paths, most, machine)
        }
        Standing::Ended(out) => {
            let mut outs = Vec::new(alloc);
            outs.push(out_with(alloc, paths, out))?;
            Ok(Some(outs))
        }
        Standing::Failed(_) => Ok(Some(Vec::new(alloc))),
    }
}

impl<'a> Branch<'a> {
    /// The branch of the empty path, run up to its first choice or its end.
    pub fn root(alloc: Global, p: &Problem<'a>) -> Result<Branch<'a>, Memory>
        requires { HasQuery p.now }
        ensures of { IfOk result (λ b. IsBranchOf p.now b) }
        ensures path { IfOk result (λ b. path_of_branch b ≡ []) }
    {
        let descent = Descent::root(alloc, p)?;
        descent.stop(alloc, p)
    }

    /// What the branch stands at: a choice, with its width and the ways that it keeps, exactly where the
    /// search of its problem chooses at its path; an answer, cut or stuck exactly where that is its
    /// output with just this path; and failed otherwise. It takes no memory.
    pub fn node(&self) -> &Node
        ensures node { result.now ≡ self.now.node }
        ensures exact { (p : Problem) (q : NominalQuery) →
            slice_get (queries_in p) (p.query - 1) ≡ Some q → IsBranchOf p self.now →
            IsNodeAt (clauses_in p) p.depth q (path_of_branch self.now) result.now }
    {
        &self.node
    }

    /// The choices on the way to the branch, the first one first. It takes no memory.
    pub fn path(&self) -> &[u32]
        ensures { result.now ≡ path_of_branch self.now }
    {
        path_of(&self.standing)
    }

    /// The branch that goes on by one of the choices, run up to its next choice or its end. This one
    /// is consumed, on want of memory too.
    pub fn step(self, alloc: Global, p: &Problem<'a>, choice: u32) -> Result<Branch<'a>, Memory>
        requires query { HasQuery p.now }
        requires of { IsBranchOf p.now self }
        requires choice { IsChoiceOf choice self }
        ensures of { IfOk result (λ b. IsBranchOf p.now b) }
        ensures path { IfOk result (λ b. path_of_branch b
            ≡ path_of_branch self.entry ++ choice ∷ []) }
    {
        let standing = self.standing;
        let descent = Descent { standing }.step(alloc, p, choice)?;
        descent.stop(alloc, p)
    }

    /// The answer of the branch's state: the one output of the query with just the branch's path is
    /// this answer.
    pub fn answer(&self, alloc: Global, p: &Problem<'a>) -> Result<Answer, Memory>
        requires query { HasQuery p.now }
        requires of { IsBranchOf p.now self.now }
        requires answer { IsAnswering self.now }
        ensures { IfOk result (λ a. (q : NominalQuery) →
            slice_get (queries_in p.now) (p.now.query - 1) ≡ Some q →
            outs_at (clauses_in p.now) p.now.depth q (path_of_branch self.now)
            ≡ found (path_of_branch self.now) (answer_of a) ∷ []) }
    {
        match &self.standing {
            Standing::Ended(out) => match out {
                Out::Found(_, answer) => copy_answer(alloc, answer),
                Out::Cut(_) => unreachable!(),
                Out::Stuck(_) => unreachable!(),
            },
            Standing::Choosing(_, _) => unreachable!(),
            Standing::Failed(_) => unreachable!(),
        }
    }

    /// The outputs of the query whose paths begin with the branch's path, in order, each with its path or
    /// all without.
    pub fn run(self, alloc: Global, p: &Problem<'a>, paths: Paths) -> Result<Vec<Out>, Memory>
        requires query { HasQuery p.now }
        requires of { IsBranchOf p.now self }
        ensures { IfOk result (λ v. (q : NominalQuery) →
            slice_get (queries_in p.now) (p.now.query - 1) ≡ Some q →
            outs_of v.items ≡ map (kept_out paths)
            (outs_at (clauses_in p.now) p.now.depth q (path_of_branch self.entry))) }
    {
        let clauses = clauses_of_problem(p);
        let query = query_of_problem(p);
        let asked = Asked::of(alloc, query.locals.items())?;
        outs_of_standing(alloc, clauses, &asked, paths, self.standing)
    }

    /// The outputs of the query whose paths begin with the branch's path, in order, as `run`, where the
    /// search makes at most so many choices at the path and below it: none says that it makes more.
    pub fn run_within(
        self,
        alloc: Global,
        p: &Problem<'a>,
        paths: Paths,
        most: u64,
    ) -> Result<Option<Vec<Out>>, Memory>
        requires query { HasQuery p.now }
        requires of { IsBranchOf p.now self }
        ensures outs { IfOk result (λ o. IfSome o (λ v. (q : NominalQuery) →
            slice_get (queries_in p.now) (p.now.query - 1) ≡ Some q →
            outs_of v.items ≡ map (kept_out paths)
            (outs_at (clauses_in p.now) p.now.depth q (path_of_branch self.entry)))) }
        ensures few { IfOk result (λ o. IfSome o (λ v. (q : NominalQuery) →
            slice_get (queries_in p.now) (p.now.query - 1) ≡ Some q →
            choices_at (clauses_in p.now) p.now.depth q (path_of_branch self.entry) ≤ most)) }
        ensures many { IfOk result (λ o. o ≡ None → (q : NominalQuery) →
            slice_get (queries_in p.now) (p.now.query - 1) ≡ Some q →
            most < choices_at (clauses_in p.now) p.now.depth q (path_of_branch self.entry)) }
    {
        let clauses = clauses_of_problem(p);
        let query = query_of_problem(p);
        let asked = Asked::of(alloc, query.locals.items())?;
        outs_by_choices(alloc, clauses, &asked, paths, most, self.standing)
    }
}
