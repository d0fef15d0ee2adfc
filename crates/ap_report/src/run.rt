// The report of a run.
ghost use Rattle.std.specs.Prelude.{◌≡◌, ◌≤◌, IfOk, length};
ghost use Rattle.ap_defs.specs.Goals.{program_of};
ghost use Rattle.ap_defs.specs.Limits.{size_limit};
ghost use Rattle.ap_report.specs.TextReport.{IsTextReport, run_report};

use crate::faults::fault_report;
use crate::queries::report_program;
use crate::{Report, Status};
use ap_defs::limits::{Depth, Workers};
use ap_defs::lists::List;
use ap_defs::memory::Memory;
use ap_index::index::Index;
use ap_io::Gate;
use ap_paths::Limit;
use ap_program::restricted::Restricted;
use ap_stream::AtEnd;
use ap_text::{TextError, program_of_text};
use std::alloc::Global;
use std::sync::Wait;
use std::thread::Threads;

/// The report on a program.
fn report_restricted<R: Threads + Wait + Sync, G: Gate>(
    rt: &R,
    alloc: Global,
    gate: &G,
    depth: Depth,
    workers: Workers,
    limit: Limit,
    at_end: AtEnd,
    program: &Restricted,
) -> Result<Report, Memory>
    ensures { IfOk result (λ r. r ≡ run_report depth limit (program_of program.now)) }
{
    let index = Index::of(alloc, program)?;
    let bytes = report_program(rt, alloc, gate, depth, workers, limit, at_end, &index)?;
    Ok(Report {
        bytes: List::of(bytes),
        status: Status::Ok,
    })
}

/// The report on a text, to a depth: the line of the first fault, or what the program's queries are
/// answered, each up to the last answer that is wanted. So many workers search each query that few turns
/// don't answer, or each query where the gate may hold them; two or more pass the gate before each path
/// that they take up. What the report is does not depend on how many there are, nor on what becomes of the
/// program and of its last answer at the end.
///
/// `Err` is want of memory.
#[tactic(auto, using(crate::proofs::Texts::refused_report, crate::proofs::Texts::answered_report, crate::proofs::Texts::report_one))]
pub fn report_text<R: Threads + Wait + Sync, G: Gate>(
    rt: &R,
    alloc: Global,
    gate: &G,
    depth: Depth,
    workers: Workers,
    limit: Limit,
    at_end: AtEnd,
    text: &[u8],
) -> Result<Report, Memory>
    requires { length text.now ≤ size_limit }
    // What is answered is the report on the text.
    ensures made { IfOk result (λ r. IsTextReport (run_report depth limit) text.now r) }
    // No other is.
    ensures only { IfOk result (λ r. (s : Report) →
        IsTextReport (run_report depth limit) text.now s → s ≡ r) }
{
    match program_of_text(alloc, text) {
        Ok(program) => {
            let report = report_restricted(
                rt, alloc, gate, depth, workers, limit, at_end, &program,
            );
            at_end.end(program);
            report
        }
        Err(TextError::Fault(fault)) => fault_report(alloc, &fault),
        Err(TextError::Memory) => Err(Memory),
    }
}
