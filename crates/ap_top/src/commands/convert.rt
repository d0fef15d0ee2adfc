// `convert`, which writes a bundle in another version.
ghost use Rattle.std.specs.Prelude.{IfOk};
ghost use Rattle.ap_report.specs.declared.report.Report.{Report};
ghost use Rattle.ap_bundle_commands.specs.ConvertReports.{IsConvertReport};
ghost use Rattle.ap_run.specs.Inputs.{Input, IsOnlyReport, IsReportOn};
ghost use Rattle.ap_run.specs.Writing.{IsRead};

use ap_bundle::version::Version;
use ap_bundle_commands::convert_bytes;
use ap_defs::memory::Memory;
use ap_io::Source;
use ap_report::{Report, Status};
use ap_run::{ReadError, line, read_whole};
use std::alloc::Global;

/// The report of a conversion of what the source has left.
pub(crate) fn report<S: Source>(
    alloc: Global,
    to: Version,
    source: &mut S,
) -> Result<Report, Memory>
    ensures { IfOk result (λ r. (input : Input)
        × IsRead (S.left source.old) (S.faults source.old) (S.faults source.new) input
        × IsOnlyReport (IsReportOn (IsConvertReport to) input) r) }
{
    match read_whole(alloc, source) {
        Ok(bytes) => convert_bytes(alloc, to, &bytes),
        Err(ReadError::Failed) => line(alloc, "% read fault\n", Status::Read),
        Err(ReadError::TooLarge) => line(alloc, "% text too large\n", Status::TooLarge),
        Err(ReadError::Memory) => Err(Memory),
    }
}
