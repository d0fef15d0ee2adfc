// `run`, which answers the queries of a text.
ghost use Rattle.std.specs.Prelude.{IfOk};
ghost use Rattle.ap_report.specs.declared.report.Report.{Report};
ghost use Rattle.ap_report.specs.TextReport.{IsTextReport, run_report};
ghost use Rattle.ap_run.specs.Inputs.{Input, IsOnlyReport, IsReportOn};
ghost use Rattle.ap_run.specs.Writing.{IsRead};

use crate::lines::line;
use crate::reading::{ReadError, read_whole};
use ap_defs::limits::{Depth, Workers};
use ap_defs::memory::Memory;
use ap_io::{Gate, Source};
use ap_paths::Limit;
use ap_report::{AtEnd, Report, Status, report_text};
use std::alloc::Global;
use std::sync::Wait;
use std::thread::Threads;

/// The report of a run on what the source has left. `Err` is want of memory.
pub fn report_run<R: Threads + Wait + Sync, S: Source, G: Gate>(
    rt: &R,
    alloc: Global,
    gate: &G,
    depth: Depth,
    workers: Workers,
    limit: Limit,
    at_end: AtEnd,
    source: &mut S,
) -> Result<Report, Memory>
    ensures { IfOk result (λ r. (input : Input)
        × IsRead (S.left source.old) (S.faults source.old) (S.faults source.new) input
        × IsOnlyReport (IsReportOn (IsTextReport (run_report depth limit)) input) r) }
{
    match read_whole(alloc, source) {
        Ok(text) => report_text(rt, alloc, gate, depth, workers, limit, at_end, &text),
        Err(ReadError::Failed) => line(alloc, "% read fault\n", Status::Read),
        Err(ReadError::TooLarge) => line(alloc, "% text too large\n", Status::TooLarge),
        Err(ReadError::Memory) => Err(Memory),
    }
}
