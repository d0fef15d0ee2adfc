// From the words and the bytes that come in to the bytes that go out.
ghost use Rattle.std.specs.Prelude.{◌≡◌, ◌≢◌, IfOk, Some, codes, false, map, string_bytes, true};
ghost use Rattle.ap_words.specs.Words.{asked_of};
ghost use Rattle.ap_report.specs.declared.report.Report.{Report};
ghost use Rattle.ap_run.specs.Inputs.{Input, IsOnlyReport, line as line_of};
ghost use Rattle.ap_run.specs.Runs.{IsRunReportFor, IsTheRunReport, is_run, wanted_by};
ghost use Rattle.ap_run.specs.Writing.{IsRead, IsReportWritten, IsUnwritten};

use crate::lines::line;
use crate::putting::put;
use crate::running::report_run;
use ap_defs::memory::Memory;
use ap_io::{Gate, Sink, Source};
use ap_report::{AtEnd, Report, Status};
use ap_words::Asked;
use std::alloc::Global;
use std::sync::Wait;
use std::thread::Threads;

/// The report of words that ask for no run.
fn refused(alloc: Global) -> Result<Report, Memory>
    ensures { IfOk result (λ r. r ≡ line_of (codes "% usage fault\n") Status.Usage) }
{
    line(alloc, "% usage fault\n", Status::Usage)
}

/// The report of what is asked for, on what the source has left.
fn report_asked<R: Threads + Wait + Sync, S: Source, G: Gate>(
    rt: &R,
    alloc: Global,
    gate: &G,
    asked: Asked,
    at_end: AtEnd,
    source: &mut S,
) -> Result<Report, Memory>
    ensures unread { is_run (Some asked) ≡ false → source.new ≡ source.old }
    ensures made { IfOk result (λ r. (input : Input)
        × (is_run (Some asked) ≡ true →
        IsRead (S.left source.old) (S.faults source.old) (S.faults source.new) input)
        × IsOnlyReport (IsRunReportFor (wanted_by (Some asked)) input) r) }
{
    match asked {
        Asked::Run {
            depth,
            workers,
            limit,
        } => report_run(rt, alloc, gate, depth, workers, limit, at_end, source),
        Asked::Prove { .. } => refused(alloc),
        Asked::Check => refused(alloc),
        Asked::Convert { .. } => refused(alloc),
        Asked::Count { .. } => refused(alloc),
        Asked::Cover { .. } => refused(alloc),
        Asked::Examine { .. } => refused(alloc),
        Asked::Work { .. } => refused(alloc),
    }
}

/// The report for the words and what the source has left, which is read only where the words ask for a
/// run.
#[tactic(auto, using(crate::proofs::RunLemmas::sound_run, crate::proofs::RunLemmas::complete_run))]
fn report<R: Threads + Wait + Sync, S: Source, G: Gate>(
    rt: &R,
    alloc: Global,
    gate: &G,
    words: &[String],
    at_end: AtEnd,
    source: &mut S,
) -> Result<Report, Memory>
    ensures unread { is_run (asked_of (map string_bytes words.now)) ≡ false →
        source.new ≡ source.old }
    ensures made { IfOk result (λ r. (input : Input)
        × (is_run (asked_of (map string_bytes words.now)) ≡ true →
        IsRead (S.left source.old) (S.faults source.old) (S.faults source.new) input)
        × IsTheRunReport (map string_bytes words.now) input r) }
{
    match ap_words::read(alloc, words)? {
        Some(asked) => report_asked(rt, alloc, gate, asked, at_end, source),
        None => refused(alloc),
    }
}

/// Reads the source whole, makes the report of the run that the words ask for, and then writes it to the
/// sink. The words are those after the program's name; where they are refused, or ask for another
/// command, nothing is read, and the report is that of refused words. Two workers or more search side by
/// side, each on a thread of its own where threads can be started, and pass the gate before each path
/// that they take up; what is written does not depend on how many there are. The program of the text is
/// dropped in the end, or left to the system, which takes less time where the process ends with the run.
///
/// The statuses and what is written are those of `run` by the top call of all commands: the reports of
/// the text's queries, one after the other, each what sequential nominal resolution finds to the depth
/// (Cheney and Urban, "Nominal Logic Programming"). Each ground instance of an answer that meets its
/// freshness conditions is derivable in nominal logic, by a proof no higher than the depth; and each
/// ground instance of a query that is derivable so is an instance of an answer, or a branch is stuck.
pub fn run<R: Threads + Wait + Sync, S: Source, K: Sink, G: Gate>(
    rt: &R,
    alloc: Global,
    words: &[String],
    source: &mut S,
    sink: &mut K,
    gate: &G,
    at_end: AtEnd,
) -> Status
    // Nothing is read where no run is asked for.
    ensures unread { is_run (asked_of (map string_bytes words.now)) ≡ false →
        source.new ≡ source.old }
    // The bytes and the status are those of the one report of the words and of what was read; the ground
    // instances of its answers are derivable, and what is derivable is among them.
    ensures run { result ≢ Status.Memory → (input : Input) × (report : Report)
        × (is_run (asked_of (map string_bytes words.now)) ≡ true →
        IsRead (S.left source.old) (S.faults source.old) (S.faults source.new) input)
        × IsTheRunReport (map string_bytes words.now) input report
        × IsReportWritten (record {
          bytes = K.held sink.old;
          bytes' = K.held sink.new;
          faults = K.faults sink.old;
          faults' = K.faults sink.new;
        }) report result }
    // Nothing is written where memory was wanting.
    ensures memory { result ≡ Status.Memory → IsUnwritten (record {
      bytes = K.held sink.old;
      bytes' = K.held sink.new;
      faults = K.faults sink.old;
      faults' = K.faults sink.new;
    }) }
{
    match report(rt, alloc, gate, words, at_end, source) {
        Ok(report) => put(sink, &report),
        Err(Memory) => Status::Memory,
    }
}
