//! The uses of clauses in the derivations of a query's answers.

ghost use Rattle.std.specs.Prelude.{◌≡◌, ◌-◌, ◌++◌, Some, IfOk, OnOk, map, slice_get};
ghost use Rattle.std.specs.List.{AllByRecursion};
ghost use Rattle.ap_defs.specs.Answers.{out_of, outs_of};
ghost use Rattle.ap_defs.specs.Goals.{NominalQuery};
ghost use Rattle.ap_backchain.specs.Problems.{HasQuery, clauses_in, queries_in};
ghost use Rattle.ap_derive.specs.Tables.{counts_of};
ghost use Rattle.ap_derive.specs.Uses.{use_table, uses_in_each};
ghost use Rattle.ap_query_proofs.specs.QueryUses as spec;
ghost use Rattle.ap_query_proofs.specs.CountedPaths.{LeadsToAnswer, answer_path, answer_paths, derivation_of_path};

use crate::answers::Answers;
use ap_backchain::problem::{Problem, query_of_problem};
use ap_defs::limits::Workers;
use ap_defs::memory::Memory;
use ap_defs::paths::{Out, Path};
use ap_derive::counting::uses::{Question, uses};
use ap_io::Gate;
use ap_paths::Limit;
use ap_replay::solver::solve;
use std::alloc::Global;
use std::sync::Wait;
use std::thread::Threads;

/// Adds the path of an output, if it is an answer.
fn add_path(out: Out, paths: &mut Vec<Path>) -> Result<(), Memory>
    ensures { OnOk result (paths.new.items ≡ paths.old.items ++ answer_path (out_of out)) }
{
    match out {
        Out::Found(path, _answer) => {
            paths.push(path)?;
            Ok(())
        }
        Out::Cut(_path) => Ok(()),
        Out::Stuck(_path) => Ok(()),
    }
}

/// The paths of the answers among outputs.
fn paths_of_answers(alloc: Global, outs: Vec<Out>) -> Result<Vec<Path>, Memory>
    ensures { IfOk result (λ v. v.items ≡ answer_paths (outs_of outs.items)) }
{
    let mut paths = Vec::new(alloc);
    for out in outs {
        add_path(out, &mut paths)?;
    }
    Ok(paths)
}

/// How often each clause is used in the derivations of the answers at these paths.
fn uses_at<R: Threads + Sync>(
    rt: &R,
    alloc: Global,
    workers: Workers,
    p: &Problem<'_>,
    paths: &[Path],
) -> Result<Vec<Vec<u64>>, Memory>
    requires query { HasQuery p.now }
    requires lead { AllByRecursion (LeadsToAnswer p.now) paths.now }
    ensures { IfOk result (λ t. (q : NominalQuery) →
        slice_get (queries_in p.now) (p.now.query - 1) ≡ Some q →
        counts_of t ≡ use_table (clauses_in p.now) (uses_in_each (clauses_in p.now) q.goal
        (map (derivation_of_path p.now) paths.now))) }
{
    let query = query_of_problem(p);
    let question = Question {
        program: p.program.program().clauses.items(),
        goal: &query.goal,
    };
    let answers = Answers { problem: *p };
    uses(rt, alloc, question, paths, &answers, workers.get())
}

/// How often each clause is used in the derivations of all answers of a query, which so many workers find
/// and count between them: a list a predicate, with a number a clause.
pub fn uses_of_query<R: Threads + Wait + Sync, G: Gate>(
    rt: &R,
    alloc: Global,
    gate: &G,
    workers: Workers,
    p: &Problem<'_>,
) -> Result<Vec<Vec<u64>>, Memory>
    requires query { HasQuery p.now }
    ensures { IfOk result (λ t. (q : NominalQuery) →
        slice_get (queries_in p.now) (p.now.query - 1) ≡ Some q →
        counts_of t ≡ use_table (clauses_in p.now)
        (spec.uses_of_query (clauses_in p.now) p.now.depth q)) }
{
    let outs = solve(rt, alloc, gate, workers, Limit::All, p)?;
    let paths = paths_of_answers(alloc, outs)?;
    uses_at(rt, alloc, workers, p, &paths)
}
