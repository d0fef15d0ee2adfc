//! The report on a query, made of one output after another, or of one run after another.

ghost use Rattle.std.specs.Prelude.{◌≡◌, ◌+◌, ◌<◌, ℕ, List as list, [], ◌∷◌, ◌++◌, OnOk, IfOk, replicate};
ghost use Rattle.ap_defs.specs.Answers.{NominalOut, answer_of, cut, found, out_of, stuck};
ghost use Rattle.ap_defs.specs.Goals.{NominalProgram, program_of};
ghost use Rattle.ap_defs.specs.Lines.{query_lines};
ghost use Rattle.ap_defs.specs.Types.{NominalLocal, locals_of};
ghost use Rattle.ap_answers.specs.Words.{IsTaken};
ghost use Rattle.ap_paths.specs.Runs.{outs_of_run};
ghost use Rattle.ap_stream.specs.Builders.{line_of_pending, report_with, built_text, totals_line};

use ap_answers::answers::write_answer;
use ap_answers::words::Taken;
use ap_defs::goals::{Local, Program};
use ap_defs::memory::Memory;
use ap_defs::outcomes::Answer;
use ap_defs::paths::Out;
use ap_defs::terms::Term;
use ap_paths::Run;
use std::alloc::Global;

// Room for so many bytes is made before an answer is written, so that few answers are moved while they are.
const ROOM_OF_AN_ANSWER: usize = 128;

// Room for so many bytes is made before the line of the totals is written, so that it is not moved meanwhile.
const ROOM_OF_TOTALS: usize = 64;

/// So many outputs of one kind in a row, whose line is not written yet.
#[derive(Clone, Copy)]
pub enum PendingRun {
    Cuts(u64),
    Stuck(u64),
}

/// The report on a query as far as its outputs came: the lines that are written, the run that may go on,
/// and how many outputs of each kind there were. Its memory is that of the lines.
#[derive(Drop)]
pub struct ReportBuilder {
    bytes: Vec<u8>,
    run: PendingRun,
    answers: u64,
    cuts: u64,
    stuck: u64,
}

/// A count raised by so many. Numbers past the greatest are refused as want of memory is.
fn raised(count: u64, more: u64) -> Result<u64, Memory>
    ensures { IfOk result (λ n. n ≡ count + more) }
{
    match count.checked_add(more) {
        Some(sum) => Ok(sum),
        None => Err(Memory),
    }
}

/// Writes the line of a run of so many cuts, if there are any.
fn write_cuts(alloc: Global, out: &mut Vec<u8>, count: u64) -> Result<(), Memory>
    ensures { OnOk result (out.new.items ≡ out.old.items ++ line_of_pending (PendingRun.Cuts count)) }
{
    if count == 0 {
        return Ok(());
    }
    let line = format!(in alloc; "% cut {count}\n")?;
    out.extend_from_slice(line.as_bytes())?;
    Ok(())
}

/// Writes the line of a run of so many stuck branches, if there are any.
fn write_stuck(alloc: Global, out: &mut Vec<u8>, count: u64) -> Result<(), Memory>
    ensures { OnOk result (out.new.items ≡ out.old.items ++ line_of_pending (PendingRun.Stuck count)) }
{
    if count == 0 {
        return Ok(());
    }
    let line = format!(in alloc; "% stuck {count}\n")?;
    out.extend_from_slice(line.as_bytes())?;
    Ok(())
}

/// Writes the line of a run, if there is one.
fn write_run(alloc: Global, out: &mut Vec<u8>, run: PendingRun) -> Result<(), Memory>
    ensures { OnOk result (out.new.items ≡ out.old.items ++ line_of_pending run) }
{
    match run {
        PendingRun::Cuts(count) => write_cuts(alloc, out, count),
        PendingRun::Stuck(count) => write_stuck(alloc, out, count),
    }
}

/// The run with so many cuts behind it: it goes on, or its line is written, and another begins.
fn with_cuts(
    alloc: Global,
    out: &mut Vec<u8>,
    run: PendingRun,
    more: u64,
) -> Result<PendingRun, Memory>
    requires { 0 < more }
    ensures { IfOk result (λ r. (program : NominalProgram) (locals : list NominalLocal)
        (os : list NominalOut) (totals : list ℕ) →
        built_text program locals out.new.items r os totals
        ≡ built_text program locals out.old.items run (replicate more (cut []) ++ os) totals) }
{
    match run {
        PendingRun::Cuts(count) => {
            let count = raised(count, more)?;
            Ok(PendingRun::Cuts(count))
        }
        PendingRun::Stuck(count) => {
            write_stuck(alloc, out, count)?;
            Ok(PendingRun::Cuts(more))
        }
    }
}

/// The run with so many stuck branches behind it, likewise.
fn with_stuck(
    alloc: Global,
    out: &mut Vec<u8>,
    run: PendingRun,
    more: u64,
) -> Result<PendingRun, Memory>
    requires { 0 < more }
    ensures { IfOk result (λ r. (program : NominalProgram) (locals : list NominalLocal)
        (os : list NominalOut) (totals : list ℕ) →
        built_text program locals out.new.items r os totals
        ≡ built_text program locals out.old.items run (replicate more (stuck []) ++ os) totals) }
{
    match run {
        PendingRun::Stuck(count) => {
            let count = raised(count, more)?;
            Ok(PendingRun::Stuck(count))
        }
        PendingRun::Cuts(count) => {
            write_cuts(alloc, out, count)?;
            Ok(PendingRun::Stuck(more))
        }
    }
}

/// Writes the line of the totals.
fn write_totals(
    alloc: Global,
    out: &mut Vec<u8>,
    query: u32,
    answers: u64,
    cuts: u64,
    stuck: u64,
) -> Result<(), Memory>
    ensures { OnOk result (out.new.items
        ≡ out.old.items ++ totals_line query answers cuts stuck) }
{
    let mut line = String::with_capacity(alloc, ROOM_OF_TOTALS)?;
    write!(
        &mut line,
        "% query {query}: {answers} answers, {cuts} cut, {stuck} stuck\n"
    )?;
    out.extend_from_slice(line.as_bytes())?;
    Ok(())
}

impl ReportBuilder {
    /// The report before any output. It takes no memory.
    pub fn new(alloc: Global) -> ReportBuilder
        ensures { (program : NominalProgram) (query : ℕ) (locals : list NominalLocal)
            (os : list NominalOut) → report_with program query locals result os
            ≡ query_lines program query locals os }
    {
        ReportBuilder {
            bytes: Vec::new(alloc),
            run: PendingRun::Cuts(0),
            answers: 0,
            cuts: 0,
            stuck: 0,
        }
    }

    /// An answer follows.
    fn add_answer(
        &mut self,
        alloc: Global,
        program: &Program<Term>,
        taken: &Taken<'_>,
        locals: &[Local],
        answer: &Answer,
    ) -> Result<(), Memory>
        requires { IsTaken program.now.words taken.now }
        ensures { OnOk result ((query : ℕ) (path : list ℕ) (os : list NominalOut) →
            report_with (program_of program.now) query (locals_of locals.now) self.new os
            ≡ report_with (program_of program.now) query (locals_of locals.now) self.old
            (found path (answer_of answer.now) ∷ os)) }
    {
        self.bytes.reserve(ROOM_OF_AN_ANSWER)?;
        write_run(alloc, &mut self.bytes, self.run)?;
        write_answer(alloc, &mut self.bytes, program, taken, locals, answer)?;
        self.bytes.push(b'\n')?;
        self.run = PendingRun::Cuts(0);
        self.answers = raised(self.answers, 1)?;
        Ok(())
    }

    /// So many cuts follow.
    fn add_cuts(&mut self, alloc: Global, more: u64) -> Result<(), Memory>
        ensures { OnOk result ((program : NominalProgram) (query : ℕ)
            (locals : list NominalLocal) (os : list NominalOut) →
            report_with program query locals self.new os
            ≡ report_with program query locals self.old (replicate more (cut []) ++ os)) }
    {
        if more == 0 {
            return Ok(());
        }
        self.cuts = raised(self.cuts, more)?;
        self.run = with_cuts(alloc, &mut self.bytes, self.run, more)?;
        Ok(())
    }

    /// So many stuck branches follow.
    fn add_stuck(&mut self, alloc: Global, more: u64) -> Result<(), Memory>
        ensures { OnOk result ((program : NominalProgram) (query : ℕ)
            (locals : list NominalLocal) (os : list NominalOut) →
            report_with program query locals self.new os
            ≡ report_with program query locals self.old (replicate more (stuck []) ++ os)) }
    {
        if more == 0 {
            return Ok(());
        }
        self.stuck = raised(self.stuck, more)?;
        self.run = with_stuck(alloc, &mut self.bytes, self.run, more)?;
        Ok(())
    }

    /// One more output of a query with these identifiers, where the words of the text are known. After want
    /// of memory nothing is known of the report.
    pub fn push(
        &mut self,
        alloc: Global,
        program: &Program<Term>,
        taken: &Taken<'_>,
        locals: &[Local],
        out: &Out,
    ) -> Result<(), Memory>
        requires { IsTaken program.now.words taken.now }
        ensures { OnOk result ((query : ℕ) (os : list NominalOut) →
            report_with (program_of program.now) query (locals_of locals.now) self.new os
            ≡ report_with (program_of program.now) query (locals_of locals.now) self.old
            (out_of out.now ∷ os)) }
    {
        match out {
            Out::Found(_, answer) => self.add_answer(alloc, program, taken, locals, answer),
            Out::Cut(_) => self.add_cuts(alloc, 1),
            Out::Stuck(_) => self.add_stuck(alloc, 1),
        }
    }

    /// The outputs of a run follow, likewise.
    pub fn push_run(
        &mut self,
        alloc: Global,
        program: &Program<Term>,
        taken: &Taken<'_>,
        locals: &[Local],
        run: &Run,
    ) -> Result<(), Memory>
        requires { IsTaken program.now.words taken.now }
        ensures { OnOk result ((query : ℕ) (os : list NominalOut) →
            report_with (program_of program.now) query (locals_of locals.now) self.new os
            ≡ report_with (program_of program.now) query (locals_of locals.now) self.old
            (outs_of_run run.now ++ os)) }
    {
        match run {
            Run::One(out) => self.push(alloc, program, taken, locals, out),
            Run::Cuts(count) => self.add_cuts(alloc, *count),
            Run::Stuck(count) => self.add_stuck(alloc, *count),
        }
    }

    /// The report on the query of this number, whose outputs these were.
    pub fn finish(self, alloc: Global, query: u32) -> Result<Vec<u8>, Memory>
        ensures { IfOk result (λ v. (program : NominalProgram) (locals : list NominalLocal) →
            v.items ≡ report_with program query locals self []) }
    {
        let mut bytes = self.bytes;
        write_run(alloc, &mut bytes, self.run)?;
        write_totals(
            alloc,
            &mut bytes,
            query,
            self.answers,
            self.cuts,
            self.stuck,
        )?;
        Ok(bytes)
    }
}
