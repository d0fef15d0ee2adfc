//! The report of `prove` on a text.

ghost use Rattle.std.specs.Prelude.{◌≡◌, ◌≤◌, IfOk, length, map};
ghost use Rattle.ap_defs.specs.Goals.{program_of};
ghost use Rattle.ap_defs.specs.Limits.{size_limit};
ghost use Rattle.ap_shared.specs.SharedViews.{shared_proved};
ghost use Rattle.ap_bundle.specs.Written.{written_as};
ghost use Rattle.ap_report.specs.declared.report.Report.{Report};
ghost use Rattle.ap_text_commands.specs.ProveReports.{HasSoundProofs, IsProveReport, prove_report};

use ap_bundle::version::Version;
use ap_bundle_write::write_version;
use ap_defs::limits::{Depth, Workers};
use ap_defs::lists::List;
use ap_defs::memory::Memory;
use ap_index::index::Index;
use ap_io::Gate;
use ap_paths::Limit;
use ap_program::restricted::Restricted;
use ap_program_proofs::proving::prove_program;
use ap_report::{Report, Status, fault_report};
use ap_shared::derivations::{SharedBundle, SharedProved};
use ap_text::{TextError, program_of_text};
use std::alloc::Global;
use std::sync::Wait;
use std::thread::Threads;

/// The bundle, of version 2, of a text and of answers with their derivations, as a report.
fn report_bundle(alloc: Global, text: &[u8], proved: Vec<SharedProved>) -> Result<Report, Memory>
    ensures bytes { IfOk result (λ r. r.bytes
        ≡ written_as Version.Two
        (record { text = text.now; proved = map shared_proved proved.items })) }
    ensures status { IfOk result (λ r. r.status ≡ Status.Ok) }
{
    let bundle = SharedBundle {
        text: List::of(text.to_vec(alloc)?),
        proved: List::of(proved),
    };
    let bytes = write_version(alloc, &bundle, Version::Two)?;
    Ok(Report {
        bytes: List::of(bytes),
        status: Status::Ok,
    })
}

/// The report on the program of a text.
fn report_proofs<R: Threads + Wait + Sync, G: Gate>(
    rt: &R,
    alloc: Global,
    gate: &G,
    depth: Depth,
    workers: Workers,
    limit: Limit,
    text: &[u8],
    program: &Restricted,
) -> Result<Report, Memory>
    ensures { IfOk result (λ r. r ≡ prove_report depth limit text.now (program_of program.now)) }
{
    let index = Index::of(alloc, program)?;
    let proved = prove_program(rt, alloc, gate, depth, workers, limit, &index)?;
    report_bundle(alloc, text, proved)
}

/// The line of a text's first fault, or the bundle of it and of its answers that are wanted.
#[tactic(auto, using(ap_report::proofs::Texts::refused_report, ap_report::proofs::Texts::answered_report))]
fn report<R: Threads + Wait + Sync, G: Gate>(
    rt: &R,
    alloc: Global,
    gate: &G,
    depth: Depth,
    workers: Workers,
    limit: Limit,
    text: &[u8],
) -> Result<Report, Memory>
    requires { length text.now ≤ size_limit }
    ensures made { IfOk result (λ r. IsProveReport depth limit text.now r) }
    ensures only { IfOk result (λ r. (s : Report) → IsProveReport depth limit text.now s → s ≡ r) }
{
    match program_of_text(alloc, text) {
        Ok(program) => report_proofs(rt, alloc, gate, depth, workers, limit, text, &program),
        Err(TextError::Fault(fault)) => fault_report(alloc, &fault),
        Err(TextError::Memory) => Err(Memory),
    }
}

/// The report of `prove` on a text, to a depth: the line of the first fault, or the bundle of the text
/// and of the answers of its queries that are wanted, each with its derivation, in version 2. So many
/// workers search each query; two or more pass the gate before each path that they take up. What the
/// report is does not depend on how many there are. Each derivation in it checks, and so its answer is
/// sound.
///
/// `Err` is want of memory.
pub fn prove_text<R: Threads + Wait + Sync, G: Gate>(
    rt: &R,
    alloc: Global,
    gate: &G,
    depth: Depth,
    workers: Workers,
    limit: Limit,
    text: &[u8],
) -> Result<Report, Memory>
    requires { length text.now ≤ size_limit }
    // What is answered is the report on the text.
    ensures made { IfOk result (λ r. IsProveReport depth limit text.now r) }
    // No other is.
    ensures only { IfOk result (λ r. (s : Report) → IsProveReport depth limit text.now s → s ≡ r) }
    // What is proved in it is derivable.
    ensures sound { HasSoundProofs depth limit text.now }
{
    report(rt, alloc, gate, depth, workers, limit, text)
}
