//! The report on the ground proofs of a bundle.

ghost use Rattle.std.specs.Prelude.{◌≡◌, IfOk, map};
ghost use Rattle.ap_defs.specs.Goals.{program_of};
ghost use Rattle.ap_bundle.specs.Bundles.{proved_of};
ghost use Rattle.ap_bundle_reports.specs.BundleReports.{cover_report, covers_report};
ghost use Rattle.ap_covering.specs.Uncovered.{first_uncovered as first_of};

use crate::verdicts::report_of_refused;
use ap_covering::all_proofs::lines_of_proofs;
use ap_covering::lines::uncovered_line;
use ap_covering::uncovered::first_uncovered;
use ap_defs::limits::{Depth, Workers};
use ap_defs::lists::List;
use ap_defs::memory::Memory;
use ap_defs::outcomes::Proved;
use ap_index::index::Index;
use ap_io::Gate;
use ap_program::restricted::Restricted;
use ap_report::{Report, Status};
use std::alloc::Global;
use std::sync::Wait;
use std::thread::Threads;

/// The report on proofs that check: the first that is not to be covered, or what covers each.
fn report_covers<R: Threads + Wait + Sync, G: Gate>(
    rt: &R,
    alloc: Global,
    gate: &G,
    depth: Depth,
    workers: Workers,
    program: &Restricted,
    proved: &[Proved],
) -> Result<Report, Memory>
    ensures { IfOk result (λ r. r ≡ covers_report depth (map proved_of proved.now)
        (program_of program.now) (first_of depth 1 (map proved_of proved.now))) }
{
    if let Some(uncovered) = first_uncovered(depth, proved) {
        return Ok(Report {
            bytes: uncovered_line(alloc, uncovered)?,
            status: Status::NotCovered,
        });
    }
    let index = Index::of(alloc, program)?;
    let bytes = lines_of_proofs(rt, alloc, gate, depth, workers, &index, proved)?;
    Ok(Report {
        bytes: List::of(bytes),
        status: Status::Ok,
    })
}

/// The report on derivations for a program: the first that is refused, or what comes of them all.
pub fn report_proofs<R: Threads + Wait + Sync, G: Gate>(
    rt: &R,
    alloc: Global,
    gate: &G,
    depth: Depth,
    workers: Workers,
    program: &Restricted,
    proved: &[Proved],
) -> Result<Report, Memory>
    ensures { IfOk result (λ r. r ≡ cover_report depth (map proved_of proved.now)
        (program_of program.now)) }
{
    match report_of_refused(alloc, program, proved)? {
        Some(report) => Ok(report),
        None => report_covers(rt, alloc, gate, depth, workers, program, proved),
    }
}
