//! The outputs of a query, by one worker or by several.

ghost use Rattle.std.specs.Prelude.{◌≡◌, ◌-◌, Some, IfOk, map, slice_get};
ghost use Rattle.ap_defs.specs.Answers.{outs_of, query_outs};
ghost use Rattle.ap_defs.specs.Goals.{NominalQuery};
ghost use Rattle.ap_backchain.specs.Ends.{kept_out, without_path};
ghost use Rattle.ap_backchain.specs.Problems.{HasQuery, clauses_in, queries_in};
ghost use Rattle.ap_paths.specs.Limits as limits;
ghost use Rattle.ap_paths.specs.Runs.{outs_of_runs};

use crate::problem_tree::ProblemTree;
use ap_backchain::problem::{Problem, outputs_with, short_outputs};
use ap_backchain::run::Paths;
use ap_book::merge;
use ap_defs::limits::Workers;
use ap_defs::memory::Memory;
use ap_defs::paths::Out;
use ap_io::Gate;
use ap_paths::{Limit, Run, outs_in_full, part};
use ap_steal::search_within;
use std::alloc::Global;
use std::sync::Wait;
use std::thread::Threads;

/// The outputs of a query up to the last answer that is wanted, with their paths or without, as runs, which
/// so many workers find between them.
pub fn search_beside<R: Threads + Wait + Sync, G: Gate>(
    rt: &R,
    alloc: Global,
    gate: &G,
    workers: Workers,
    limit: Limit,
    paths: Paths,
    problem: &Problem<'_>,
) -> Result<Vec<Run>, Memory>
    requires query { HasQuery problem.now }
    ensures { IfOk result (λ v. (q : NominalQuery) →
        slice_get (queries_in problem.now) (problem.now.query - 1) ≡ Some q →
        outs_of_runs v.items ≡ map (kept_out paths)
        (limits.part limit (query_outs (clauses_in problem.now) problem.now.depth q))) }
{
    let tree = ProblemTree::of(*problem, paths);
    let closed = search_within(rt, alloc, &tree, workers.get(), limit, gate)?;
    let runs = merge(alloc, closed)?;
    Ok(part(runs, limit))
}

/// The outputs of a query up to the last answer that is wanted, with their paths or without. One worker
/// alone searches without the gate; so it is where there are several, as long as few turns are enough and
/// the gate holds none.
fn outputs_by<R: Threads + Wait + Sync, G: Gate>(
    rt: &R,
    alloc: Global,
    gate: &G,
    workers: Workers,
    limit: Limit,
    paths: Paths,
    problem: &Problem<'_>,
) -> Result<Vec<Out>, Memory>
    requires query { HasQuery problem.now }
    ensures { IfOk result (λ v. (q : NominalQuery) →
        slice_get (queries_in problem.now) (problem.now.query - 1) ≡ Some q →
        outs_of v.items ≡ map (kept_out paths)
        (limits.part limit (query_outs (clauses_in problem.now) problem.now.depth q))) }
{
    if workers.get() == 1 {
        return outputs_with(alloc, problem, paths, limit);
    }
    if !gate.may_hold() {
        if let Some(outs) = short_outputs(alloc, problem, paths, limit)? {
            return Ok(outs);
        }
    }
    let runs = search_beside(rt, alloc, gate, workers, limit, paths, problem)?;
    outs_in_full(alloc, runs)
}

/// The outputs of a query to a depth up to the last answer that is wanted, in order, each with its path
/// and its answer: those of sequential nominal resolution (Cheney and Urban, "Nominal Logic
/// Programming"), whoever finds them. One worker alone searches without the gate; so it is where there
/// are several, as long as few turns are enough and the gate holds none. The only error is want of
/// memory.
pub fn solve<R: Threads + Wait + Sync, G: Gate>(
    rt: &R,
    alloc: Global,
    gate: &G,
    workers: Workers,
    limit: Limit,
    problem: &Problem<'_>,
) -> Result<Vec<Out>, Memory>
    requires query { HasQuery problem.now }
    ensures { IfOk result (λ v. (q : NominalQuery) →
        slice_get (queries_in problem.now) (problem.now.query - 1) ≡ Some q →
        outs_of v.items
        ≡ limits.part limit (query_outs (clauses_in problem.now) problem.now.depth q)) }
{
    outputs_by(rt, alloc, gate, workers, limit, Paths::Kept, problem)
}

/// The same as [`solve`], where no path is asked for: none is kept, since each is as long as its output
/// is deep.
pub fn solve_without_paths<R: Threads + Wait + Sync, G: Gate>(
    rt: &R,
    alloc: Global,
    gate: &G,
    workers: Workers,
    limit: Limit,
    problem: &Problem<'_>,
) -> Result<Vec<Out>, Memory>
    requires query { HasQuery problem.now }
    ensures { IfOk result (λ v. (q : NominalQuery) →
        slice_get (queries_in problem.now) (problem.now.query - 1) ≡ Some q →
        outs_of v.items ≡ map without_path
        (limits.part limit (query_outs (clauses_in problem.now) problem.now.depth q))) }
{
    outputs_by(rt, alloc, gate, workers, limit, Paths::Left, problem)
}
