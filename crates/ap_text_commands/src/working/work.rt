//! The report of `work`.

ghost use Rattle.std.specs.Prelude.{◌≡◌, ◌≤◌, IfOk, length};
ghost use Rattle.ap_defs.specs.Goals.{program_of as nominal_program_of};
ghost use Rattle.ap_defs.specs.Limits.{size_limit};
ghost use Rattle.ap_report.specs.declared.report.Report.{Report};
ghost use Rattle.ap_report.specs.TextReport.{IsTextReport};
ghost use Rattle.ap_text_commands.specs.WorkReports.{IsWorkReport, summary, summary_report, work_depth};

use crate::texts::program_of;
use crate::working::program::{program_totals, query_count};
use ap_defs::limits::Workers;
use ap_defs::lists::List;
use ap_defs::memory::Memory;
use ap_index::index::Index;
use ap_io::Gate;
use ap_program::restricted::Restricted;
use ap_report::{Report, Status, fault_report};
use ap_text::{TextError, program_of_text};
use ap_totals::totals::Totals;
use ap_words::Size;
use std::alloc::Global;
use std::sync::Wait;
use std::thread::Threads;

/// The line of so many queries and their totals.
fn summary_line(alloc: Global, queries: u32, totals: Totals) -> Result<List<u8>, Memory>
    ensures { IfOk result (λ bytes. bytes ≡ summary queries totals) }
{
    let Totals {
        answers,
        cut,
        stuck,
        bytes,
    } = totals;
    let line = format!(in alloc;
        "% work: {queries} queries, {answers} answers, {cut} cut, {stuck} stuck, {bytes} bytes\n"
    )?;
    Ok(List::of(line.into_bytes()))
}

/// The report on a program.
fn report_program<R: Threads + Wait + Sync, G: Gate>(
    rt: &R,
    alloc: Global,
    gate: &G,
    workers: Workers,
    program: &Restricted,
) -> Result<Report, Memory>
    ensures { IfOk result (λ r. r ≡ summary_report work_depth (nominal_program_of program.now)) }
{
    let index = Index::of(alloc, program)?;
    let totals = program_totals(rt, alloc, gate, workers, &index)?;
    let bytes = summary_line(alloc, query_count(&index), totals)?;
    Ok(Report {
        bytes,
        status: Status::Ok,
    })
}

/// The report on a text: the line of the first fault, or the totals of its program.
#[tactic(auto, using(ap_report::proofs::Texts::refused_report, ap_report::proofs::Texts::answered_report))]
fn report_of_text<R: Threads + Wait + Sync, G: Gate>(
    rt: &R,
    alloc: Global,
    gate: &G,
    workers: Workers,
    text: &[u8],
) -> Result<Report, Memory>
    requires { length text.now ≤ size_limit }
    ensures { IfOk result (λ r. IsTextReport (summary_report work_depth) text.now r) }
{
    match program_of_text(alloc, text) {
        Ok(program) => report_program(rt, alloc, gate, workers, &program),
        Err(TextError::Fault(fault)) => fault_report(alloc, &fault),
        Err(TextError::Memory) => Err(Memory),
    }
}

/// The report of `work` on a seed and so many queries: the text that is made from them is run to depth 4,
/// and in place of its report there is one line with its totals and its length. So many workers search
/// each query; two or more pass the gate before each path that they take up. What the report is does not
/// depend on how many there are. Nothing is read.
///
/// `Err` is want of memory.
pub fn report_work<R: Threads + Wait + Sync, G: Gate>(
    rt: &R,
    alloc: Global,
    gate: &G,
    seed: u64,
    size: Size,
    workers: Workers,
) -> Result<Report, Memory>
    // What is answered is the report on the text.
    ensures made { IfOk result (λ r. IsWorkReport seed size r) }
    // No other is.
    ensures only { IfOk result (λ r. (s : Report) → IsWorkReport seed size s → s ≡ r) }
{
    let text = program_of(alloc, seed, size.get())?;
    report_of_text(rt, alloc, gate, workers, &text)
}
