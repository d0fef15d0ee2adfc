// The report on the queries of a program.
ghost use Rattle.std.specs.Prelude.{◌≡◌, ◌-◌, ◌++◌, IfOk, IfSome, OnOk, length};
ghost use Rattle.ap_defs.specs.Goals.{program_of};
ghost use Rattle.ap_answers.specs.Words.{IsTaken};
ghost use Rattle.ap_backchain.specs.Problems.{HasQuery};
ghost use Rattle.ap_report.specs.Queries.{limited_report, query_report};

use ap_answers::printing::{lines_among, taken_in};
use ap_answers::words::Taken;
use ap_backchain::problem::{Problem, short_outputs};
use ap_backchain::run::Paths;
use ap_defs::limits::{Depth, Workers};
use ap_defs::memory::Memory;
use ap_index::index::Index;
use ap_io::Gate;
use ap_paths::Limit;
use ap_replay::solver::search_beside;
use ap_stream::{AtEnd, Search, report_of_runs, stream_report};
use std::alloc::Global;
use std::sync::Wait;
use std::thread::Threads;

/// How many queries a program has.
fn query_count(program: &Index<'_>) -> u32
    ensures { result ≡ length (program_of program.now).queries }
{
    program.program().queries.items().len() as u32
}

/// The report on a query of a program, whose words are known, where few turns are enough for it. None says
/// that they aren't.
fn report_shortly(
    alloc: Global,
    limit: Limit,
    at_end: AtEnd,
    taken: &Taken<'_>,
    problem: &Problem<'_>,
) -> Result<Option<Vec<u8>>, Memory>
    requires words { IsTaken problem.now.program.now.words taken.now }
    requires query { HasQuery problem.now }
    ensures { IfOk result (λ o. IfSome o (λ v. v.items
        ≡ query_report (program_of problem.now.program.now) problem.now.depth limit
        (problem.now.query - 1))) }
{
    let Some(outs) = short_outputs(alloc, problem, Paths::Left, limit)? else {
        return Ok(None);
    };
    let report = lines_among(
        alloc,
        problem.program.restricted(),
        taken,
        problem.query,
        &outs,
    )?;
    at_end.end(outs);
    Ok(Some(report))
}

/// The report on a query of a program, whose words are known, which so many workers search. What they find
/// is kept as runs.
fn report_shared<R: Threads + Wait + Sync, G: Gate>(
    rt: &R,
    alloc: Global,
    gate: &G,
    workers: Workers,
    limit: Limit,
    taken: &Taken<'_>,
    problem: &Problem<'_>,
) -> Result<Vec<u8>, Memory>
    requires words { IsTaken problem.now.program.now.words taken.now }
    requires query { HasQuery problem.now }
    ensures { IfOk result (λ v. v.items
        ≡ query_report (program_of problem.now.program.now) problem.now.depth limit
        (problem.now.query - 1)) }
{
    let runs = search_beside(rt, alloc, gate, workers, limit, Paths::Left, problem)?;
    report_of_runs(alloc, taken, problem, &runs)
}

/// The report on a query of a program, whose words are known, by several workers. They begin where few turns
/// are not enough for it, or where the gate may hold them.
fn report_beside<R: Threads + Wait + Sync, G: Gate>(
    rt: &R,
    alloc: Global,
    gate: &G,
    workers: Workers,
    limit: Limit,
    at_end: AtEnd,
    taken: &Taken<'_>,
    problem: &Problem<'_>,
) -> Result<Vec<u8>, Memory>
    requires words { IsTaken problem.now.program.now.words taken.now }
    requires query { HasQuery problem.now }
    ensures { IfOk result (λ v. v.items
        ≡ query_report (program_of problem.now.program.now) problem.now.depth limit
        (problem.now.query - 1)) }
{
    if !gate.may_hold() {
        if let Some(report) = report_shortly(alloc, limit, at_end, taken, problem)? {
            return Ok(report);
        }
    }
    report_shared(rt, alloc, gate, workers, limit, taken, problem)
}

/// The report on a query of a program, whose words are known. One worker writes it as it searches, in the memory
/// of an earlier search.
fn report_query<'a, R: Threads + Wait + Sync, G: Gate>(
    rt: &R,
    alloc: Global,
    gate: &G,
    workers: Workers,
    limit: Limit,
    at_end: AtEnd,
    taken: &Taken<'_>,
    problem: &Problem<'a>,
    room: &mut Option<Search<'a>>,
) -> Result<Vec<u8>, Memory>
    requires words { IsTaken problem.now.program.now.words taken.now }
    requires query { HasQuery problem.now }
    ensures { IfOk result (λ v. v.items
        ≡ query_report (program_of problem.now.program.now) problem.now.depth limit
        (problem.now.query - 1)) }
{
    if workers.get() == 1 {
        stream_report(alloc, limit, at_end, taken, problem, room)
    } else {
        report_beside(rt, alloc, gate, workers, limit, at_end, taken, problem)
    }
}

/// A report is put behind those before it, of which the first is not copied.
fn add_report(bytes: &mut Vec<u8>, report: Vec<u8>) -> Result<(), Memory>
    ensures { OnOk result (bytes.new.items ≡ bytes.old.items ++ report.items) }
{
    if bytes.is_empty() {
        *bytes = report;
        return Ok(());
    }
    bytes.extend_from_slice(&report)?;
    Ok(())
}

/// The report on each query of the program, to a depth, one after the other: the lines of its outputs up
/// to the last answer that is wanted.
pub(crate) fn report_program<R: Threads + Wait + Sync, G: Gate>(
    rt: &R,
    alloc: Global,
    gate: &G,
    depth: Depth,
    workers: Workers,
    limit: Limit,
    at_end: AtEnd,
    program: &Index<'_>,
) -> Result<Vec<u8>, Memory>
    ensures { IfOk result (λ v. v.items ≡ limited_report (program_of program.now) depth limit) }
{
    let count = query_count(program);
    let taken = taken_in(alloc, program.restricted())?;
    let mut bytes = Vec::new(alloc);
    let mut room = None;
    for place in 0..count {
        let problem = Problem {
            program: &*program,
            query: place + 1,
            depth: depth.get(),
        };
        let last = at_end.of_query(place + 1 == count);
        let report = report_query(
            rt, alloc, gate, workers, limit, last, &taken, &problem, &mut room,
        )?;
        add_report(&mut bytes, report)?;
    }
    Ok(bytes)
}
