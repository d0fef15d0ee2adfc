//! What is shown of a bundle.

ghost use Rattle.std.specs.Prelude.{◌≤◌, length, IfOk};
ghost use Rattle.ap_bundle_commands.specs.CheckReports.{HasSoundVerdicts};
ghost use Rattle.ap_defs.specs.Limits.{size_limit};
ghost use Rattle.ap_show.specs.Reports.{IsShowReport};

use ap_bundle_commands::check_bytes;
use ap_defs::memory::Memory;
use ap_documents::documents::document_of_bytes;
use ap_report::{Report, Status};
use ap_steps::pages::Format;
use std::alloc::Global;

/// What is shown of the bytes of a bundle, in a format: a document of its derivations, each of which was
/// checked; or the report of `check`, where that refuses the bundle, its text or a derivation. What is shown
/// is so derivable in nominal logic, whoever made the bundle.
///
/// `Err` is want of memory.
pub fn show_bytes(alloc: Global, format: Format, bytes: &[u8]) -> Result<Report, Memory>
    requires { length bytes.now ≤ size_limit }
    ensures shown { IfOk result (λ r. IsShowReport format bytes.now r) }
    ensures sound { HasSoundVerdicts bytes.now }
{
    let checked = check_bytes(alloc, bytes)?;
    if checked.status == Status::Ok {
        document_of_bytes(alloc, format, bytes)
    } else {
        Ok(checked)
    }
}
