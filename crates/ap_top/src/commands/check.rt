// `check`, which checks the derivations of a bundle.
ghost use Rattle.std.specs.Prelude.{IfOk};
ghost use Rattle.ap_report.specs.declared.report.Report.{Report};
ghost use Rattle.ap_bundle_commands.specs.CheckReports.{IsCheckReport};
ghost use Rattle.ap_run.specs.Inputs.{Input, IsOnlyReport, IsReportOn};
ghost use Rattle.ap_run.specs.Writing.{IsRead};

use ap_bundle_commands::check_bytes;
use ap_defs::memory::Memory;
use ap_io::Source;
use ap_report::{Report, Status};
use ap_run::{ReadError, line, read_whole};
use std::alloc::Global;

/// The report of a check on what the source has left.
pub(crate) fn report<S: Source>(alloc: Global, source: &mut S) -> Result<Report, Memory>
    ensures { IfOk result (λ r. (input : Input)
        × IsRead (S.left source.old) (S.faults source.old) (S.faults source.new) input
        × IsOnlyReport (IsReportOn IsCheckReport input) r) }
{
    match read_whole(alloc, source) {
        Ok(bytes) => check_bytes(alloc, &bytes),
        Err(ReadError::Failed) => line(alloc, "% read fault\n", Status::Read),
        Err(ReadError::TooLarge) => line(alloc, "% text too large\n", Status::TooLarge),
        Err(ReadError::Memory) => Err(Memory),
    }
}
