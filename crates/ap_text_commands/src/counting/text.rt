//! The report of `count` on a text.

ghost use Rattle.std.specs.Prelude.{◌≡◌, ◌≤◌, IfOk, length};
ghost use Rattle.ap_defs.specs.Goals.{program_of};
ghost use Rattle.ap_defs.specs.Limits.{size_limit};
ghost use Rattle.ap_report.specs.declared.report.Report.{Report};
ghost use Rattle.ap_text_commands.specs.Counts as spec;
ghost use Rattle.ap_text_commands.specs.CountReports.{IsCountReport, count_report};

use crate::counting::counts::{ClauseCount, counts_of};
use crate::counting::lines::lines_of;
use crate::counting::order::in_order_of_items;
use ap_defs::limits::{Depth, Workers};
use ap_defs::lists::List;
use ap_defs::memory::Memory;
use ap_index::index::Index;
use ap_io::Gate;
use ap_program::restricted::Restricted;
use ap_program_proofs::counting::uses_of_program;
use ap_report::{Report, Status, fault_report};
use ap_text::{TextError, program_of_text};
use std::alloc::Global;
use std::sync::Wait;
use std::thread::Threads;

/// Each clause of a program, in order of items, with how often it is used in the derivations of all answers of
/// its queries to a depth.
fn clause_counts<R: Threads + Wait + Sync, G: Gate>(
    rt: &R,
    alloc: Global,
    gate: &G,
    depth: Depth,
    workers: Workers,
    program: &Restricted,
) -> Result<Vec<ClauseCount>, Memory>
    ensures { IfOk result (λ v. v.items ≡ spec.clause_counts depth (program_of program.now)) }
{
    let index = Index::of(alloc, program)?;
    let table = uses_of_program(rt, alloc, gate, depth, workers, &index)?;
    let counts = counts_of(alloc, program.program().clauses.items(), &table)?;
    in_order_of_items(alloc, &counts)
}

/// The report on a program.
fn report_counts<R: Threads + Wait + Sync, G: Gate>(
    rt: &R,
    alloc: Global,
    gate: &G,
    depth: Depth,
    workers: Workers,
    program: &Restricted,
) -> Result<Report, Memory>
    ensures { IfOk result (λ r. r ≡ count_report depth (program_of program.now)) }
{
    let counts = clause_counts(rt, alloc, gate, depth, workers, program)?;
    let bytes = lines_of(alloc, &counts)?;
    Ok(Report {
        bytes: List::of(bytes),
        status: Status::Ok,
    })
}

/// The report of `count` on a text, to a depth: the line of the first fault, or a line for each clause, in
/// order of items, with how often it is used in the derivations of all answers of the queries. So many workers
/// search each query and count; where there are two or more, they pass the gate before each path that they
/// take up. What the report is does not depend on how many there are.
///
/// `Err` is want of memory.
#[tactic(auto, using(ap_report::proofs::Texts::refused_report, ap_report::proofs::Texts::answered_report))]
pub fn count_text<R: Threads + Wait + Sync, G: Gate>(
    rt: &R,
    alloc: Global,
    gate: &G,
    depth: Depth,
    workers: Workers,
    text: &[u8],
) -> Result<Report, Memory>
    requires { length text.now ≤ size_limit }
    // What is answered is the report on the text.
    ensures made { IfOk result (λ r. IsCountReport depth text.now r) }
    // No other is.
    ensures only { IfOk result (λ r. (s : Report) → IsCountReport depth text.now s → s ≡ r) }
{
    match program_of_text(alloc, text) {
        Ok(program) => report_counts(rt, alloc, gate, depth, workers, &program),
        Err(TextError::Fault(fault)) => fault_report(alloc, &fault),
        Err(TextError::Memory) => Err(Memory),
    }
}
