//! The report on a bundle.

ghost use Rattle.std.specs.Prelude.{◌≡◌, ◌≤◌, IfOk, Ok, length};
ghost use Rattle.ap_defs.specs.Limits.{size_limit};
ghost use Rattle.ap_report.specs.declared.report.Report.{Report};
ghost use Rattle.ap_bundle_commands.specs.CheckReports.{HasSoundVerdicts, IsCheckReport, IsReadReport};
ghost use Rattle.ap_shared.specs.SharedViews.{shared_bundle};

use ap_bundle_read::{BundleError, read_cited_bundle};
use ap_bundle_reports::lines;
use ap_bundle_reports::verdicts::report_verdicts;
use ap_defs::memory::Memory;
use ap_report::{Report, fault_report};
use ap_shared::derivations::SharedBundle;
use ap_text::{TextError, program_of_text};
use std::alloc::Global;

/// The report on a bundle that was read.
#[tactic(auto, using(ap_report::proofs::Texts::refused_report, ap_report::proofs::Texts::answered_report))]
fn report_bundle(alloc: Global, bundle: &SharedBundle) -> Result<Report, Memory>
    requires { length bundle.now.text ≤ size_limit }
    ensures made { IfOk result (λ r. IsReadReport (Ok (shared_bundle bundle.now)) r) }
    ensures only { IfOk result (λ r. (s : Report) →
        IsReadReport (Ok (shared_bundle bundle.now)) s → s ≡ r) }
{
    match program_of_text(alloc, bundle.text.items()) {
        Ok(program) => report_verdicts(alloc, &program, bundle.proved.items()),
        Err(TextError::Fault(fault)) => fault_report(alloc, &fault),
        Err(TextError::Memory) => Err(Memory),
    }
}

/// The report of `check` on the bytes of a bundle: the line of the bundle's first fault, else of its text's
/// first fault, whose items and lines count in the text, else of the first derivation that is refused, else
/// how many derivations there are. What a derivation proves that checks is sound, whoever made it.
///
/// `Err` is want of memory.
pub fn check_bytes(alloc: Global, bytes: &[u8]) -> Result<Report, Memory>
    requires { length bytes.now ≤ size_limit }
    // What is answered is the report on the bytes.
    ensures made { IfOk result (λ r. IsCheckReport bytes.now r) }
    // No other is.
    ensures only { IfOk result (λ r. (s : Report) → IsCheckReport bytes.now s → s ≡ r) }
    // What checks is derivable.
    ensures sound { HasSoundVerdicts bytes.now }
{
    match read_cited_bundle(alloc, bytes) {
        Ok(bundle) => report_bundle(alloc, &bundle),
        Err(BundleError::Fault(fault)) => lines::bundle_fault_report(alloc, fault),
        Err(BundleError::Memory) => Err(Memory),
    }
}
