//! The report on a bundle.

ghost use Rattle.std.specs.Prelude.{◌≡◌, ◌≤◌, IfOk, Ok, length};
ghost use Rattle.ap_bundle.specs.Bundles.{bundle_of};
ghost use Rattle.ap_defs.specs.Limits.{size_limit};
ghost use Rattle.ap_report.specs.declared.report.Report.{Report};
ghost use Rattle.ap_bundle_commands.specs.CoverReports.{HasCoveredProofs, IsCoverReport, IsReadCoverReport};

use ap_bundle_read::{BundleError, read_bundle};
use ap_bundle_reports::covers::report_proofs;
use ap_bundle_reports::lines::bundle_fault_report;
use ap_defs::limits::{Depth, Workers};
use ap_defs::memory::Memory;
use ap_defs::outcomes::Bundle;
use ap_io::Gate;
use ap_report::{Report, fault_report};
use ap_text::{TextError, program_of_text};
use std::alloc::Global;
use std::sync::Wait;
use std::thread::Threads;

/// The report on a bundle that was read.
#[tactic(auto, using(ap_report::proofs::Texts::refused_report, ap_report::proofs::Texts::answered_report))]
fn report_bundle<R: Threads + Wait + Sync, G: Gate>(
    rt: &R,
    alloc: Global,
    gate: &G,
    depth: Depth,
    workers: Workers,
    bundle: &Bundle,
) -> Result<Report, Memory>
    requires few { length bundle.now.text ≤ size_limit }
    ensures made { IfOk result (λ r. IsReadCoverReport depth (Ok (bundle_of bundle.now)) r) }
    ensures only { IfOk result (λ r. (s : Report) →
        IsReadCoverReport depth (Ok (bundle_of bundle.now)) s → s ≡ r) }
{
    match program_of_text(alloc, bundle.text.items()) {
        Ok(program) => {
            let proved = bundle.proved.items();
            report_proofs(rt, alloc, gate, depth, workers, &program, proved)
        }
        Err(TextError::Fault(fault)) => fault_report(alloc, &fault),
        Err(TextError::Memory) => Err(Memory),
    }
}

/// The report of `cover` on the bytes of a bundle, to a depth: the line of the bundle's first fault, else of its
/// text's first fault, whose items and lines count in the text, else of the first derivation that is refused,
/// else of the first proof in which a variable or a condition stands or that is higher than the depth, else a
/// line for each proof, with the answer or the stuck branch of its query's search that covers it. So many
/// workers search each query; where there are two or more, they pass the gate before each path that they take
/// up. What the report is does not depend on how many there are.
///
/// `Err` is want of memory.
pub fn cover_bytes<R: Threads + Wait + Sync, G: Gate>(
    rt: &R,
    alloc: Global,
    gate: &G,
    depth: Depth,
    workers: Workers,
    bytes: &[u8],
) -> Result<Report, Memory>
    requires { length bytes.now ≤ size_limit }
    // What is answered is the report on the bytes.
    ensures made { IfOk result (λ r. IsCoverReport depth bytes.now r) }
    // No other is.
    ensures only { IfOk result (λ r. (s : Report) → IsCoverReport depth bytes.now s → s ≡ r) }
    // Each ground proof within the depth that checks is covered by what is found for it.
    ensures covers { HasCoveredProofs depth bytes.now }
{
    match read_bundle(alloc, bytes) {
        Ok(bundle) => report_bundle(rt, alloc, gate, depth, workers, &bundle),
        Err(BundleError::Fault(fault)) => bundle_fault_report(alloc, fault),
        Err(BundleError::Memory) => Err(Memory),
    }
}
