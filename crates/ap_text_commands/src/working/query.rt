//! The totals of one query.

ghost use Rattle.std.specs.Prelude.{◌≡◌, ◌-◌, ◌^◌, Some, IfOk, slice_get};
ghost use Rattle.ap_defs.specs.Goals.{NominalQuery};
ghost use Rattle.ap_answers.specs.Words.{IsTaken};
ghost use Rattle.ap_backchain.specs.Problems.{HasQuery, program_of_problem, queries_in};
ghost use Rattle.ap_totals.specs.Sums.{IsSumAtMost, totals_at};

use ap_answers::printing::lines_among;
use ap_answers::words::Taken;
use ap_backchain::problem::Problem;
use ap_defs::limits::Workers;
use ap_defs::memory::Memory;
use ap_io::Gate;
use ap_paths::Limit;
use ap_replay::solver::solve;
use ap_totals::totals::Totals;
use std::alloc::Global;
use std::sync::Wait;
use std::thread::Threads;

/// The totals of a query of a program, whose words are known. Its report is made for its length.
pub(crate) fn query_totals<R: Threads + Wait + Sync, G: Gate>(
    rt: &R,
    alloc: Global,
    gate: &G,
    workers: Workers,
    taken: &Taken<'_>,
    problem: &Problem<'_>,
) -> Result<Totals, Memory>
    requires words { IsTaken problem.now.program.now.words taken.now }
    requires query { HasQuery problem.now }
    ensures made { IfOk result (λ t. (q : NominalQuery) →
        slice_get (queries_in problem.now) (problem.now.query - 1) ≡ Some q →
        t ≡ totals_at (program_of_problem problem.now) problem.now.depth problem.now.query q) }
    ensures few { IfOk result (λ t. IsSumAtMost (2 ^ 64) t) }
{
    let outs = solve(rt, alloc, gate, workers, Limit::All, problem)?;
    let report = lines_among(
        alloc,
        problem.program.restricted(),
        taken,
        problem.query,
        &outs,
    )?;
    Ok(Totals::of_query(&outs, report.len()))
}
