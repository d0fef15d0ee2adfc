//! The report of `examine` on a text.

ghost use Rattle.std.specs.Prelude.{◌≡◌, ◌≤◌, [], Some, IfOk, length, map};
ghost use Rattle.ap_defs.specs.Goals.{program_of, query_of};
ghost use Rattle.ap_defs.specs.Limits.{size_limit};
ghost use Rattle.ap_report.specs.declared.report.Report.{Report};
ghost use Rattle.ap_examine.specs.Counterexamples.{HasSoundExams};
ghost use Rattle.ap_examine.specs.Reports as reports;
ghost use Rattle.ap_examine.specs.Reports.{IsExamReport, exam_report};

use crate::program::examine_program;
use ap_defs::goals::Query;
use ap_defs::limits::{Depth, Workers};
use ap_defs::lists::List;
use ap_defs::memory::Memory;
use ap_defs::terms::Term;
use ap_instance::is_property;
use ap_io::Gate;
use ap_program::restricted::Restricted;
use ap_report::{Report, Status, fault_report};
use ap_text::{TextError, program_of_text};
use std::alloc::Global;
use std::sync::Wait;
use std::thread::Threads;

/// The number of the first query that is no property.
fn first_other(queries: &[Query<Term>]) -> Option<u64>
    ensures { result ≡ reports.first_other 1 (map query_of queries.now) }
{
    let mut number: u64 = 1;
    let mut rest = queries;
    'looking: while let Some((query, others)) = rest.split_first() {
        if !is_property(query) {
            return Some(number);
        }
        number += 1;
        rest = others;
    }
    None
}

/// The report where a query is no property.
fn other_report(alloc: Global, number: u64) -> Result<Report, Memory>
    ensures { IfOk result (λ r. r ≡ reports.other_or (Some number) []) }
{
    let text = format!(in alloc; "% query {number}: not a property\n")?;
    Ok(Report {
        bytes: List::of(text.into_bytes()),
        status: Status::NotAProperty,
    })
}

/// The number of a program's first query that is no property.
fn other_of(program: &Restricted) -> Option<u64>
    ensures { result ≡ reports.first_other 1 (program_of program.now).queries }
{
    first_other(program.program().queries.items())
}

/// The report on a program.
fn report_exams<R: Threads + Wait + Sync, G: Gate>(
    rt: &R,
    alloc: Global,
    gate: &G,
    depth: Depth,
    workers: Workers,
    program: Restricted,
) -> Result<Report, Memory>
    ensures { IfOk result (λ r. r ≡ exam_report depth (program_of program)) }
{
    if let Some(number) = other_of(&program) {
        return other_report(alloc, number);
    }
    let bytes = examine_program(rt, alloc, gate, depth, workers, program)?;
    Ok(Report {
        bytes: List::of(bytes),
        status: Status::Ok,
    })
}

/// The report on a text.
#[tactic(auto, using(ap_report::proofs::Texts::refused_report, ap_report::proofs::Texts::answered_report))]
fn report_of<R: Threads + Wait + Sync, G: Gate>(
    rt: &R,
    alloc: Global,
    gate: &G,
    depth: Depth,
    workers: Workers,
    text: &[u8],
) -> Result<Report, Memory>
    requires { length text.now ≤ size_limit }
    // What is answered is the report on the text.
    ensures made { IfOk result (λ r. IsExamReport depth text.now r) }
    // No other is.
    ensures only { IfOk result (λ r. (s : Report) → IsExamReport depth text.now s → s ≡ r) }
{
    match program_of_text(alloc, text) {
        Ok(program) => report_exams(rt, alloc, gate, depth, workers, program),
        Err(TextError::Fault(fault)) => fault_report(alloc, &fault),
        Err(TextError::Memory) => Err(Memory),
    }
}

/// The report of `examine` on a text, to a depth: the line of the first fault; or the number of the first query
/// that is no property; or for each query the first counterexample among the stated instances of its hypothesis's
/// answers, or else the totals. So many workers search; what the report is does not depend on how many there are.
///
/// `Err` is want of memory.
pub fn examine_text<R: Threads + Wait + Sync, G: Gate>(
    rt: &R,
    alloc: Global,
    gate: &G,
    depth: Depth,
    workers: Workers,
    text: &[u8],
) -> Result<Report, Memory>
    requires { length text.now ≤ size_limit }
    // What is answered is the report on the text.
    ensures made { IfOk result (λ r. IsExamReport depth text.now r) }
    // No other is.
    ensures only { IfOk result (λ r. (s : Report) → IsExamReport depth text.now s → s ≡ r) }
    // For each counterexample the hypothesis is derivable to the depth, and the conclusion has no ground proof;
    // where an answer is held, the conclusion is derivable to the depth for its stated instance.
    ensures sound { HasSoundExams depth text.now }
{
    report_of(rt, alloc, gate, depth, workers, text)
}
