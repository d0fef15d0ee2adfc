// `examine`, which searches for counterexamples to the properties of a text.
ghost use Rattle.std.specs.Prelude.{IfOk};
ghost use Rattle.ap_report.specs.declared.report.Report.{Report};
ghost use Rattle.ap_examine.specs.Reports.{IsExamReport};
ghost use Rattle.ap_run.specs.Inputs.{Input, IsOnlyReport, IsReportOn};
ghost use Rattle.ap_run.specs.Writing.{IsRead};

use ap_defs::limits::{Depth, Workers};
use ap_defs::memory::Memory;
use ap_examine::examine_text;
use ap_io::{Gate, Source};
use ap_report::{Report, Status};
use ap_run::{ReadError, line, read_whole};
use std::alloc::Global;
use std::sync::Wait;
use std::thread::Threads;

/// The report of `examine` on what the source has left.
pub(crate) fn report<R: Threads + Wait + Sync, S: Source, G: Gate>(
    rt: &R,
    alloc: Global,
    gate: &G,
    depth: Depth,
    workers: Workers,
    source: &mut S,
) -> Result<Report, Memory>
    ensures { IfOk result (λ r. (input : Input)
        × IsRead (S.left source.old) (S.faults source.old) (S.faults source.new) input
        × IsOnlyReport (IsReportOn (IsExamReport depth) input) r) }
{
    match read_whole(alloc, source) {
        Ok(text) => examine_text(rt, alloc, gate, depth, workers, &text),
        Err(ReadError::Failed) => line(alloc, "% read fault\n", Status::Read),
        Err(ReadError::TooLarge) => line(alloc, "% text too large\n", Status::TooLarge),
        Err(ReadError::Memory) => Err(Memory),
    }
}
