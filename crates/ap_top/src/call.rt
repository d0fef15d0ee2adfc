// From the words and the bytes that come in to the bytes that go out.
ghost use Rattle.std.specs.Prelude.{◌≡◌, ◌≢◌, IfOk, false, map, string_bytes, true};
ghost use Rattle.ap_report.specs.declared.report.Report.{Report};
ghost use Rattle.ap_words.specs.Words.{asked_of};
ghost use Rattle.ap_run.specs.Inputs.{Input};
ghost use Rattle.ap_run.specs.Writing.{IsRead, IsUnwritten, IsReportWritten};
ghost use Rattle.ap_top.specs.Report.{IsTheReport, is_reading};

use crate::commands::report_of;
use ap_defs::memory::Memory;
use ap_io::{Gate, Sink, Source};
use ap_report::{Report, Status};
use ap_run::{line, put};
use std::alloc::Global;
use std::sync::Wait;
use std::thread::Threads;

/// The report for the words and what the source has left, which is read only where the words are
/// accepted and ask for a report on it.
#[tactic(auto, using(crate::proofs::SoundInputs::sound_input, crate::proofs::CompleteInputs::complete_input))]
fn report<R: Threads + Wait + Sync, S: Source, G: Gate>(
    rt: &R,
    alloc: Global,
    gate: &G,
    words: &[String],
    source: &mut S,
) -> Result<Report, Memory>
    ensures unread { is_reading (asked_of (map string_bytes words.now)) ≡ false →
        source.new ≡ source.old }
    ensures made { IfOk result (λ r. (input : Input)
        × (is_reading (asked_of (map string_bytes words.now)) ≡ true →
        IsRead (S.left source.old) (S.faults source.old) (S.faults source.new) input)
        × IsTheReport (map string_bytes words.now) input r) }
{
    match ap_words::read(alloc, words)? {
        Some(asked) => report_of(rt, alloc, gate, asked, source),
        None => line(alloc, "% usage fault\n", Status::Usage),
    }
}

/// Reads the source whole, makes the report of the words and of what was read, and then writes it to
/// the sink. The words are those after the program's name. The writing takes no memory. Two workers or
/// more search side by side, each on a thread of its own where threads can be started, and pass the
/// gate before each path that they take up; what is written does not depend on how many there are.
///
/// | Status | Comes | Written is |
/// |---|---|---|
/// | `Ok` | exactly where the text has no fault, and each derivation of a bundle checks and, for `cover`, is a ground proof no higher than the depth | the command's report |
/// | `Usage` | exactly where the words are refused: they aren't a command and numbers for its options, each in its range, none set twice and no required one left out; then nothing is read | its line |
/// | `Syntax` | exactly where the bytes of a bundle are faulty, or else the text doesn't split into tokens, or an item isn't in the grammar | the line of the first fault |
/// | `Types` | exactly where an item isn't well typed | the line of the first fault |
/// | `Names` | exactly where an item breaks the name restriction | the line of the first fault |
/// | `Read` | only where the source's count of failures rose | its line |
/// | `Write` | only where the sink's count of failures rose | the first bytes of the report |
/// | `Memory` | where memory is wanting | nothing |
/// | `NotChecked` | exactly where a derivation of a bundle doesn't check, and its text has no fault | the line of the first such derivation, with its first refused node and the rule |
/// | `TooLarge` | exactly where the input has a byte past 16,777,216 | its line |
/// | `NotAProperty` | exactly where `examine` reads a text without a fault, and a query of it is no property | the line of the first such query |
/// | `NotCovered` | exactly where `cover` reads a bundle whose derivations check, and one of them is no ground proof or is higher than the depth | the line of the first such proof |
///
/// The statuses on the text come in this order, and a `Write` stands in place of any other.
///
/// `prove` writes the text with each answer and its derivation, in order, as a bundle; each derivation in it
/// checks. `check` writes how many derivations a bundle has, where each of them checks: so its answer is sound,
/// whoever made it. `convert` writes the bundle that it reads in the version that is asked for. `run` writes the
/// reports of the text's queries, one after the other; where so many answers are wanted, `run` and `prove` end
/// each query with the last of them. `count` writes how often each clause is used in the derivations of all
/// answers. `cover` writes which answer, or which stuck branch, covers each ground proof of a bundle: the answer
/// at its path, of which what it proves is an instance. `examine` writes for each query, which is to be a
/// property, the first counterexample or the totals of the search for one. `work` reads nothing: it makes a text
/// from a number, and writes the totals of its run.
///
/// The report of a query is what sequential nominal resolution finds to the depth (Cheney and Urban,
/// "Nominal Logic Programming"): a line for each answer, in order, once for each derivation, with notes
/// where branches were cut or stuck, and the totals. Each ground instance of an answer that meets its
/// freshness conditions is derivable in nominal logic, by a proof no higher than the depth; and each ground
/// instance of a query that is derivable so is an instance of an answer, or a branch is stuck. Where nothing
/// was cut and nothing is stuck, it is whatever the height of its proof.
pub fn top<R: Threads + Wait + Sync, S: Source, K: Sink, G: Gate>(
    rt: &R,
    alloc: Global,
    words: &[String],
    source: &mut S,
    sink: &mut K,
    gate: &G,
) -> Status
    // Nothing is read where the words are refused, and for `work`.
    ensures unread { is_reading (asked_of (map string_bytes words.now)) ≡ false →
        source.new ≡ source.old }
    // The bytes and the status are those of the one report of the words and of what was read; the ground
    // instances of its answers are derivable, and what is derivable is among them.
    ensures run { result ≢ Status.Memory → (input : Input) × (report : Report)
        × (is_reading (asked_of (map string_bytes words.now)) ≡ true →
        IsRead (S.left source.old) (S.faults source.old) (S.faults source.new) input)
        × IsTheReport (map string_bytes words.now) input report
        × IsReportWritten (record {
          bytes = K.held sink.old;
          bytes' = K.held sink.new;
          faults = K.faults sink.old;
          faults' = K.faults sink.new;
        }) report result }
    // Nothing is written where memory was wanting.
    ensures memory { result ≡ Status.Memory → IsUnwritten (record {
      bytes = K.held sink.old;
      bytes' = K.held sink.new;
      faults = K.faults sink.old;
      faults' = K.faults sink.new;
    }) }
{
    match report(rt, alloc, gate, words, source) {
        Ok(report) => put(sink, &report),
        Err(Memory) => Status::Memory,
    }
}
