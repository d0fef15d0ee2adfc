//! The lines of exams.

ghost use Rattle.std.specs.Prelude.{◌≡◌, ◌++◌, ℕ, IfOk, OnOk, map};
ghost use Rattle.ap_answers.specs.Words.{IsTaken};
ghost use Rattle.ap_defs.specs.Answers.{answer_of};
ghost use Rattle.ap_defs.specs.Goals.{NominalProgram, program_of, query_of};
ghost use Rattle.ap_defs.specs.Types.{locals_of};
ghost use Rattle.ap_examine.specs.Exams.{NominalExam};
ghost use Rattle.ap_examine.specs.Reports.{counter_text, exam_text, exams_from, property_line, tally_said};
ghost use Rattle.ap_examine.specs.Steps.{Asks};
ghost use Rattle.ap_examine.specs.Views.{AreExams, IsExam};

use crate::exam::{Exam, Tally};
use ap_answers::answers::write_answer;
use ap_answers::printing::taken_in;
use ap_answers::words::Taken;
use ap_defs::goals::{Local, Program, Query};
use ap_defs::memory::Memory;
use ap_defs::outcomes::Answer;
use ap_defs::terms::Term;
use ap_program::restricted::Restricted;
use std::alloc::Global;

/// Writes the line of a property.
fn write_line(alloc: Global, out: &mut Vec<u8>, number: u64, said: &str) -> Result<(), Memory>
    ensures { OnOk result (out.new.items ≡ out.old.items ++ property_line number said.now) }
{
    let text = format!(in alloc; "% property {number}: {said}\n")?;
    out.extend_from_slice(text.as_bytes())?;
    Ok(())
}

/// Writes the line of a property with totals.
fn write_tally(alloc: Global, out: &mut Vec<u8>, number: u64, tally: Tally) -> Result<(), Memory>
    ensures { OnOk result (out.new.items
        ≡ out.old.items ++ property_line number (tally_said tally)) }
{
    let Tally {
        held,
        unsettled,
        cut,
        stuck,
    } = tally;
    let said = format!(in alloc;
        "no counterexample, {held} held, {unsettled} open, {cut} cut, {stuck} stuck"
    )?;
    write_line(alloc, out, number, &said)
}

/// Writes the instance of a counterexample, and the line of its property.
fn write_counter(
    alloc: Global,
    out: &mut Vec<u8>,
    program: &Program<Term>,
    taken: &Taken<'_>,
    locals: &[Local],
    number: u64,
    answer: &Answer,
) -> Result<(), Memory>
    requires { IsTaken program.now.words taken.now }
    ensures { OnOk result (out.new.items ≡ out.old.items ++ counter_text (program_of program.now)
        (locals_of locals.now) number (answer_of answer.now)) }
{
    write_answer(alloc, out, program, taken, locals, answer)?;
    out.push(b'\n')?;
    write_line(alloc, out, number, "counterexample")
}

/// Writes what is said of an exam.
fn write_exam(
    alloc: Global,
    out: &mut Vec<u8>,
    program: &Program<Term>,
    taken: &Taken<'_>,
    locals: &[Local],
    number: u64,
    exam: &Exam,
) -> Result<(), Memory>
    requires { IsTaken program.now.words taken.now }
    ensures { OnOk result ((e : NominalExam) → IsExam exam.now e → out.new.items ≡ out.old.items
        ++ exam_text (program_of program.now) (locals_of locals.now) number e) }
{
    match exam {
        Exam::Counter(_number, answer) => {
            write_counter(alloc, out, program, taken, locals, number, answer)
        }
        Exam::Clear(tally) => write_tally(alloc, out, number, *tally),
    }
}

/// What is said of the exams of queries, in order.
pub(crate) fn lines_of(
    alloc: Global,
    program: &Restricted,
    queries: &[Query<Term>],
    exams: &[Exam],
) -> Result<Vec<u8>, Memory>
    ensures { IfOk result (λ v. (p : NominalProgram) (depth : ℕ) → Asks p (program_of program.now) →
        AreExams p depth exams.now (map query_of queries.now) →
        v.items ≡ exams_from p depth 1 (map query_of queries.now)) }
{
    let taken = taken_in(alloc, program)?;
    let mut out = Vec::new(alloc);
    let mut number: u64 = 1;
    let mut left = queries;
    let mut right = exams;
    'writing: while let Some((query, others)) = left.split_first() {
        let Some((exam, more)) = right.split_first() else {
            return Ok(out);
        };
        let locals = query.locals.items();
        write_exam(
            alloc,
            &mut out,
            program.program(),
            &taken,
            locals,
            number,
            exam,
        )?;
        number += 1;
        left = others;
        right = more;
    }
    Ok(out)
}
