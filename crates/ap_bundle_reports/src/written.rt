//! The report of a bundle that is written in another version.

ghost use Rattle.std.specs.Prelude.{◌≡◌, IfOk};
ghost use Rattle.ap_bundle.specs.Bundles.{bundle_of};
ghost use Rattle.ap_bundle_reports.specs.BundleReports.{written_report};

use ap_bundle::version::Version;
use ap_bundle_write::write_version;
use ap_defs::lists::List;
use ap_defs::memory::Memory;
use ap_defs::outcomes::Bundle;
use ap_report::{Report, Status};
use ap_shared::sharing::share_bundle;
use std::alloc::Global;

/// A bundle in this version, as a report.
pub fn report_written(alloc: Global, to: Version, bundle: &Bundle) -> Result<Report, Memory>
    ensures { IfOk result (λ r. r ≡ written_report to (bundle_of bundle.now)) }
{
    let shared = share_bundle(alloc, bundle)?;
    let bytes = write_version(alloc, &shared, to)?;
    Ok(Report {
        bytes: List::of(bytes),
        status: Status::Ok,
    })
}
