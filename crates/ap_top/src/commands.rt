// The commands, each with a module of its own.
ghost use Rattle.std.specs.Prelude.{◌≡◌, IfOk, Some, false, true};
ghost use Rattle.ap_report.specs.declared.report.Report.{Report};
ghost use Rattle.ap_run.specs.Inputs.{Input, IsOnlyReport};
ghost use Rattle.ap_run.specs.Writing.{IsRead};
ghost use Rattle.ap_top.specs.Report.{IsReportFor, is_reading};

mod check;
mod convert;
mod count;
mod cover;
mod examine;
mod prove;

use ap_defs::memory::Memory;
use ap_io::{Gate, Source};
use ap_report::Report;
use ap_run::{AtEnd, report_run};
use ap_text_commands::report_work;
use ap_words::Asked;
use std::alloc::Global;
use std::sync::Wait;
use std::thread::Threads;

/// The report of what is asked for, on what the source has left. `work` leaves the source as it is.
pub(crate) fn report_of<R: Threads + Wait + Sync, S: Source, G: Gate>(
    rt: &R,
    alloc: Global,
    gate: &G,
    asked: Asked,
    source: &mut S,
) -> Result<Report, Memory>
    ensures unread { is_reading (Some asked) ≡ false → source.new ≡ source.old }
    ensures made { IfOk result (λ r. (input : Input)
        × (is_reading (Some asked) ≡ true →
        IsRead (S.left source.old) (S.faults source.old) (S.faults source.new) input)
        × IsOnlyReport (IsReportFor asked input) r) }
{
    match asked {
        Asked::Run {
            depth,
            workers,
            limit,
        } => report_run(
            rt,
            alloc,
            gate,
            depth,
            workers,
            limit,
            AtEnd::Dropped,
            source,
        ),
        Asked::Prove {
            depth,
            workers,
            limit,
        } => prove::report(rt, alloc, gate, depth, workers, limit, source),
        Asked::Check => check::report(alloc, source),
        Asked::Convert { to } => convert::report(alloc, to, source),
        Asked::Count { depth, workers } => count::report(rt, alloc, gate, depth, workers, source),
        Asked::Cover { depth, workers } => cover::report(rt, alloc, gate, depth, workers, source),
        Asked::Examine { depth, workers } => {
            examine::report(rt, alloc, gate, depth, workers, source)
        }
        Asked::Work {
            seed,
            size,
            workers,
        } => report_work(rt, alloc, gate, seed, size, workers),
    }
}
