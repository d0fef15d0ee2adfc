//! The report of `convert` on a bundle.

ghost use Rattle.std.specs.Prelude.{◌≡◌, IfOk};
ghost use Rattle.ap_report.specs.declared.report.Report.{Report};
ghost use Rattle.ap_bundle_commands.specs.ConvertReports.{IsConvertReport};

use ap_bundle::version::Version;
use ap_bundle_read::{BundleError, read_bundle};
use ap_bundle_reports::lines::bundle_fault_report;
use ap_bundle_reports::written::report_written;
use ap_defs::memory::Memory;
use ap_report::Report;
use std::alloc::Global;

/// The report of `convert` on the bytes of a bundle: the bundle in this version, or the line of its first
/// fault. The text in it may be any: a fault of its own is not told.
///
/// `Err` is want of memory.
pub fn convert_bytes(alloc: Global, to: Version, bytes: &[u8]) -> Result<Report, Memory>
    // What is answered is the report on the bytes.
    ensures made { IfOk result (λ r. IsConvertReport to bytes.now r) }
    // No other is.
    ensures only { IfOk result (λ r. (s : Report) → IsConvertReport to bytes.now s → s ≡ r) }
{
    match read_bundle(alloc, bytes) {
        Ok(bundle) => report_written(alloc, to, &bundle),
        Err(BundleError::Fault(fault)) => bundle_fault_report(alloc, fault),
        Err(BundleError::Memory) => Err(Memory),
    }
}
