//! The reports on the loaded text with a query.
ghost use Rattle.std.specs.Prelude.{◌≡◌, IfOk};
ghost use Rattle.ap_text_commands.specs.ProveReports.{IsProveReport};
ghost use Rattle.ap_examine.specs.Reports.{IsExamReport};
ghost use Rattle.ap_paths.specs.declared.limits.Limit.TheVariants as limits;
ghost use Rattle.ap_shell.specs.Answers as spec;
ghost use Rattle.ap_shell.specs.Answers.{IsReportWithin, IsRunReport};
ghost use Rattle.ap_text_commands.specs.CountReports.{IsCountReport};

use crate::session::Settings;
use ap_defs::limits::SIZE_LIMIT;
use ap_defs::lists::List;
use ap_defs::memory::Memory;
use ap_examine::examine_text;
use ap_io::Gate;
use ap_paths::Limit;
use ap_report::{AtEnd, Report, Status, report_text};
use ap_text_commands::{count_text, prove_text};
use std::alloc::Global;
use std::sync::Wait;
use std::thread::Threads;

/// The report on a text that is too large.
fn too_large(alloc: Global) -> Result<Report, Memory>
    ensures { IfOk result (λ r. r ≡ spec.too_large) }
{
    Ok(Report {
        bytes: List::of(b"% text too large\n".to_vec(alloc)?),
        status: Status::TooLarge,
    })
}

/// The report of a run of a text.
pub(crate) fn run_report<R: Threads + Wait + Sync, G: Gate>(
    rt: &R,
    alloc: Global,
    gate: &G,
    settings: &Settings,
    text: &[u8],
) -> Result<Report, Memory>
    ensures { IfOk result (IsRunReport settings.now text.now) }
{
    if text.len() > SIZE_LIMIT {
        return too_large(alloc);
    }
    let limit = Limit::First(settings.answers);
    report_text(
        rt,
        alloc,
        gate,
        settings.depth,
        settings.workers,
        limit,
        AtEnd::Dropped,
        text,
    )
}

/// The bundle of a text and of its answers with their derivations.
pub(crate) fn prove_report<R: Threads + Wait + Sync, G: Gate>(
    rt: &R,
    alloc: Global,
    gate: &G,
    settings: &Settings,
    text: &[u8],
) -> Result<Report, Memory>
    ensures { IfOk result (IsReportWithin (IsProveReport settings.now.depth
        (limits.First settings.now.answers)) text.now) }
{
    if text.len() > SIZE_LIMIT {
        return too_large(alloc);
    }
    let limit = Limit::First(settings.answers);
    prove_text(
        rt,
        alloc,
        gate,
        settings.depth,
        settings.workers,
        limit,
        text,
    )
}

/// How often each clause of a text is used in the derivations of all answers.
pub(crate) fn count_report<R: Threads + Wait + Sync, G: Gate>(
    rt: &R,
    alloc: Global,
    gate: &G,
    settings: &Settings,
    text: &[u8],
) -> Result<Report, Memory>
    ensures { IfOk result (IsReportWithin (IsCountReport settings.now.depth) text.now) }
{
    if text.len() > SIZE_LIMIT {
        return too_large(alloc);
    }
    count_text(rt, alloc, gate, settings.depth, settings.workers, text)
}

/// For each query of a text, as a property, a counterexample or the totals of the search for one.
pub(crate) fn exam_report<R: Threads + Wait + Sync, G: Gate>(
    rt: &R,
    alloc: Global,
    gate: &G,
    settings: &Settings,
    text: &[u8],
) -> Result<Report, Memory>
    ensures { IfOk result (IsReportWithin (IsExamReport settings.now.depth) text.now) }
{
    if text.len() > SIZE_LIMIT {
        return too_large(alloc);
    }
    examine_text(rt, alloc, gate, settings.depth, settings.workers, text)
}
