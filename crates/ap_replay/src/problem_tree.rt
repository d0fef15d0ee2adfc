//! The search of a problem as a tree of paths.

ghost use Rattle.std.specs.Prelude.{◌≡◌, IfOk};
ghost use Rattle.ap_defs.specs.Answers.{outs_of};
ghost use Rattle.ap_backchain.specs.Branches.{IsBranchOf, path_of_branch};
ghost use Rattle.ap_backchain.specs.Problems.{HasQuery};
ghost use Rattle.ap_paths.specs.Entries as entries;
ghost use Rattle.ap_paths.specs.Entries.{visit_of};
ghost use Rattle.ap_replay.specs.ProblemTrees.{kept_outs, kid_numbers, node_kids, shared_plan};

use crate::replay::branch_at;
use ap_backchain::branch::Branch;
use ap_backchain::problem::Problem;
use ap_backchain::run::Paths;
use ap_defs::lists::List;
use ap_defs::memory::Memory;
use ap_defs::paths::{Node, Out, Path};
use ap_paths::{Run, Tree, Visit, runs_of};
use std::alloc::Global;

/// The tree of paths of a problem. Its steps are choices: a visit that may make so many searches the path
/// whole where no more are made for that, and else tells its kids. Its outputs have their paths, or none
/// has.
#[derive(Clone, Copy)]
pub struct ProblemTree<'a> {
    problem: Problem<'a>,
    paths: Paths,
    ghost query: { HasQuery problem },
}

/// The kids of a branch, if it is at a choice.
fn kids_at(alloc: Global, node: &Node) -> Result<Option<Vec<u32>>, Memory>
    ensures { IfOk result (λ o. kid_numbers o ≡ node_kids node.now) }
{
    match node {
        Node::Choice(_, kept) => Ok(Some(kept.items().to_vec(alloc)?)),
        _ => Ok(None),
    }
}

/// The answer to a visit that found these outputs.
fn visit_with(alloc: Global, outs: Vec<Out>) -> Result<Visit, Memory>
    ensures { IfOk result (λ v. visit_of v ≡ entries.outs (outs_of outs.items)) }
{
    let runs = runs_of(alloc, outs)?;
    Ok(Visit::Outs(List::of(runs)))
}

/// What a visit answers that searches all: the outputs.
fn visit_whole<'a>(
    alloc: Global,
    problem: &Problem<'a>,
    paths: Paths,
    branch: Branch<'a>,
    path: &Path,
) -> Result<Visit, Memory>
    requires query { HasQuery problem.now }
    requires of { IsBranchOf problem.now branch }
    requires path { path_of_branch branch ≡ path.now }
    ensures { IfOk result (λ v. visit_of v
        ≡ entries.outs (kept_outs paths problem.now path.now)) }
{
    let _path = path;
    let outs = branch.run(alloc, problem, paths)?;
    visit_with(alloc, outs)
}

/// What a visit answers that makes so many choices at most: the outputs, where no more are to be made,
/// and else the kids.
fn visit_branch<'a>(
    alloc: Global,
    problem: &Problem<'a>,
    paths: Paths,
    most: u64,
    branch: Branch<'a>,
    path: &Path,
) -> Result<Visit, Memory>
    requires query { HasQuery problem.now }
    requires of { IsBranchOf problem.now branch }
    requires path { path_of_branch branch ≡ path.now }
    ensures { IfOk result (λ v. visit_of v ≡ shared_plan paths problem.now most path.now) }
{
    let Some(kids) = kids_at(alloc, branch.node())? else {
        let outs = branch.run(alloc, problem, paths)?;
        return visit_with(alloc, outs);
    };
    match branch.run_within(alloc, problem, paths, most)? {
        Some(outs) => visit_with(alloc, outs),
        None => Ok(Visit::Kids(List::of(kids))),
    }
}

impl<'a> ProblemTree<'a> {
    ghost use Rattle.std.specs.Prelude.{◌≡◌};

    /// The tree of the problem, whose outputs have their paths or not. It takes no memory.
    pub fn of(problem: Problem<'a>, paths: Paths) -> ProblemTree<'a>
        requires { HasQuery problem }
        ensures problem { result.problem ≡ problem.entry }
        ensures paths { result.paths ≡ paths }
    {
        ProblemTree { problem, paths }
    }
}

impl<'a> Tree for ProblemTree<'a> {
    ghost use Rattle.ap_replay.specs.ProblemTrees.{kept_outs, problem_choices, problem_plan};
    ghost use Rattle.ap_replay.specs.Plans.{problem_branches, problem_planned};

    ghost choices = { λ t. problem_choices t.problem };

    ghost at = { λ t. kept_outs t.paths t.problem };

    ghost plan = { λ t. problem_plan t.paths t.problem };

    fn width(&self, alloc: Global, path: &Path) -> Result<Option<u32>, Memory> {
        let branch = branch_at(alloc, &self.problem, path)?;
        match branch.node() {
            Node::Choice(width, _) => Ok(Some(*width)),
            _ => Ok(None),
        }
    }

    fn outs(&self, alloc: Global, path: &Path) -> Result<Vec<Run>, Memory> {
        let outs = branch_at(alloc, &self.problem, path)?.run(alloc, &self.problem, self.paths)?;
        runs_of(alloc, outs)
    }

    fn visit(&self, alloc: Global, path: &Path, most: Option<u64>) -> Result<Visit, Memory> {
        let branch = branch_at(alloc, &self.problem, path)?;
        match most {
            None => visit_whole(alloc, &self.problem, self.paths, branch, path),
            Some(most) => visit_branch(alloc, &self.problem, self.paths, most, branch, path),
        }
    }

    ghost branches = { λ t. problem_branches t.paths t.problem };

    ghost planned = { λ t. problem_planned t.paths t.problem };
}
