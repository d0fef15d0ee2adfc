//! The exam of the answers of a hypothesis.

ghost use Rattle.std.specs.Prelude.{◌≡◌, ◌≤◌, IfOk, MatchOption, length, map};
ghost use Rattle.ap_defs.specs.Answers.{answer_of, out_of, outs_of};
ghost use Rattle.ap_defs.specs.Goals.{program_of, query_of};
ghost use Rattle.ap_defs.specs.Types.{constructor_of};
ghost use Rattle.ap_instance.specs.Views.{IsStated};
ghost use Rattle.ap_picks.specs.Pickers.{IsPicker};
ghost use Rattle.ap_property.specs.PutIn.{query_put_in};
ghost use Rattle.ap_property.specs.Stated.{Instance, stated};
ghost use Rattle.ap_ground.specs.TypedGroundings.{HaveInhabitants};
ghost use Rattle.ap_soundness.specs.FoundStates.{EachAnswer};
ghost use Rattle.ap_examine.specs.Exams.{exam_of, instance_of, verdict_on};
ghost use Rattle.ap_examine.specs.Reports.{instance_as_answer};
ghost use Rattle.ap_examine.specs.Steps.{Asks, IsCounter, IsExaminable, IsExaminableOut, IsSmallTally, exam_after, exam_next};
ghost use Rattle.ap_examine.specs.Views.{IsExam};
ghost use Rattle.ap_examine.specs.declared.exam.Exam.TheVariants as exams;

use crate::exam::{Exam, Tally};
use crate::search::search;
use ap_defs::goals::Query;
use ap_defs::limits::{Depth, Workers};
use ap_defs::lists::List;
use ap_defs::memory::Memory;
use ap_defs::outcomes::Answer;
use ap_defs::paths::Out;
use ap_defs::terms::Term;
use ap_instance::{Stated, put_in_of, stated_of};
use ap_io::Gate;
use ap_paths::Limit;
use ap_picks::Picker;
use ap_program::restricted::Restricted;
use ap_property::verdict::{Verdict, verdict_of};
use std::alloc::Global;
use std::sync::Wait;
use std::thread::Threads;

/// The conclusion that is to be searched for an answer, and the answer's stated instance.
#[derive(Drop)]
struct Posed {
    query: Query<Term>,
    stated: Stated,
}

/// The conclusion of a query, with the stated instance of an answer put in.
fn pose(
    alloc: Global,
    picker: &Picker<'_>,
    query: &Query<Term>,
    answer: &Answer,
) -> Result<Posed, Memory>
    requires picker { IsPicker picker.now }
    requires inhabited { HaveInhabitants (map constructor_of picker.now.constructors.now)
        (answer_of answer.now).vars }
    ensures query { IfOk result (λ r. query_of r.query ≡ query_put_in (query_of query.now) (stated
        (map constructor_of picker.now.constructors.now) (query_of query.now).locals
        (answer_of answer.now))) }
    ensures stated { IfOk result (λ r. IsStated r.stated (stated
        (map constructor_of picker.now.constructors.now) (query_of query.now).locals
        (answer_of answer.now))) }
{
    let stated = stated_of(alloc, picker, query.locals.items(), answer)?;
    let posed = put_in_of(alloc, query, &stated)?;
    Ok(Posed {
        query: posed,
        stated,
    })
}

/// A program, the verdict on an answer, and the answer's stated instance.
#[derive(Drop)]
struct Judged {
    program: Restricted,
    verdict: Verdict,
    stated: Stated,
}

/// Searches the conclusion for the stated instance of an answer.
fn judge<R: Threads + Wait + Sync, G: Gate>(
    rt: &R,
    alloc: Global,
    gate: &G,
    depth: Depth,
    workers: Workers,
    picker: &Picker<'_>,
    program: Restricted,
    query: &Query<Term>,
    answer: &Answer,
) -> Result<Judged, Memory>
    requires picker { IsPicker picker.now }
    requires constructors { map constructor_of picker.now.constructors.now
        ≡ (program_of program).signature.constructors }
    requires some { 1 ≤ length (program_of program).queries }
    requires answer { IsExaminable (program_of program) (query_of query.now)
        (answer_of answer.now) }
    ensures program { IfOk result (λ r. Asks (program_of program) (program_of r.program)) }
    ensures verdict { IfOk result (λ r. r.verdict
        ≡ verdict_on (program_of program) depth (query_of query.now) (answer_of answer.now)) }
    ensures stated { IfOk result (λ r. IsStated r.stated
        (instance_of (program_of program) depth (query_of query.now) (answer_of answer.now))) }
{
    let posed = pose(alloc, picker, query, answer)?;
    let Posed {
        query: conclusion,
        stated,
    } = posed;
    let searched = search(
        rt,
        alloc,
        gate,
        depth,
        workers,
        Limit::First(1),
        program,
        conclusion,
    )?;
    Ok(Judged {
        program: searched.program,
        verdict: verdict_of(&searched.outs),
        stated,
    })
}

/// A program, and an exam of a query.
#[derive(Drop)]
pub(crate) struct Examined {
    pub program: Restricted,
    pub exam: Exam,
}

/// A stated instance as an answer.
fn shown_as_answer(alloc: Global, stated: Stated) -> Answer
    ensures { (i : Instance) → IsStated stated i → answer_of result ≡ instance_as_answer i }
{
    let Stated {
        terms,
        sorts: _sorts,
    } = stated;
    let conds = Vec::new(alloc);
    let vars = Vec::new(alloc);
    Answer {
        binds: List::of(terms),
        conds: List::of(conds),
        vars: List::of(vars),
    }
}

/// The exam after the verdict on one more answer: the totals are of those before it.
fn after_verdict(alloc: Global, verdict: Verdict, tally: Tally, stated: Stated) -> Exam
    requires { IsSmallTally tally }
    ensures { (i : Instance) → IsStated stated i → IsExam result (exam_after verdict tally i) }
{
    match verdict {
        Verdict::Refuted => {
            let number = tally.held + tally.unsettled + 1;
            Exam::Counter(number, shown_as_answer(alloc, stated))
        }
        Verdict::Held => Exam::Clear(Tally {
            held: tally.held + 1,
            ..tally
        }),
        Verdict::Open => Exam::Clear(Tally {
            unsettled: tally.unsettled + 1,
            ..tally
        }),
    }
}

/// The exam after one more output: the totals are of those before it.
fn examine_out<R: Threads + Wait + Sync, G: Gate>(
    rt: &R,
    alloc: Global,
    gate: &G,
    depth: Depth,
    workers: Workers,
    picker: &Picker<'_>,
    program: Restricted,
    query: &Query<Term>,
    out: &Out,
    tally: Tally,
) -> Result<Examined, Memory>
    requires picker { IsPicker picker.now }
    requires constructors { map constructor_of picker.now.constructors.now
        ≡ (program_of program).signature.constructors }
    requires some { 1 ≤ length (program_of program).queries }
    requires out { IsExaminableOut (program_of program) (query_of query.now) (out_of out.now) }
    requires small { IsSmallTally tally }
    ensures program { IfOk result (λ r. Asks (program_of program) (program_of r.program)) }
    ensures exam { IfOk result (λ r. IsExam r.exam
        (exam_next (program_of program) depth (query_of query.now) tally (out_of out.now))) }
{
    match out {
        Out::Found(_path, answer) => {
            let judged = judge(
                rt, alloc, gate, depth, workers, picker, program, query, answer,
            )?;
            let Judged {
                program,
                verdict,
                stated,
            } = judged;
            Ok(Examined {
                program,
                exam: after_verdict(alloc, verdict, tally, stated),
            })
        }
        Out::Cut(_path) => Ok(Examined {
            program,
            exam: Exam::Clear(Tally {
                cut: tally.cut + 1,
                ..tally
            }),
        }),
        Out::Stuck(_path) => Ok(Examined {
            program,
            exam: Exam::Clear(Tally {
                stuck: tally.stuck + 1,
                ..tally
            }),
        }),
    }
}

/// The totals, where no counterexample was found.
fn tally_in(exam: &Exam) -> Option<Tally>
    ensures { MatchOption result (IsCounter exam.now) (λ t. exam.now ≡ exams.Clear t) }
{
    match exam {
        Exam::Counter(_number, _answer) => None,
        Exam::Clear(tally) => Some(*tally),
    }
}

/// The exam of a query by the outputs of its hypothesis: the first counterexample ends it.
pub(crate) fn examine_outs<R: Threads + Wait + Sync, G: Gate>(
    rt: &R,
    alloc: Global,
    gate: &G,
    depth: Depth,
    workers: Workers,
    picker: &Picker<'_>,
    program: Restricted,
    query: &Query<Term>,
    outs: &[Out],
) -> Result<Examined, Memory>
    requires picker { IsPicker picker.now }
    requires constructors { map constructor_of picker.now.constructors.now
        ≡ (program_of program).signature.constructors }
    requires some { 1 ≤ length (program_of program).queries }
    requires outs { EachAnswer (IsExaminable (program_of program) (query_of query.now))
        (outs_of outs.now) }
    ensures program { IfOk result (λ r. Asks (program_of program) (program_of r.program)) }
    ensures exam { IfOk result (λ r. IsExam r.exam
        (exam_of (program_of program) depth (query_of query.now) (outs_of outs.now))) }
{
    let mut program = program;
    let mut tally = Tally {
        held: 0,
        unsettled: 0,
        cut: 0,
        stuck: 0,
    };
    let mut rest = outs;
    'examining: while let Some((out, others)) = rest.split_first() {
        let examined = examine_out(
            rt, alloc, gate, depth, workers, picker, program, query, out, tally,
        )?;
        let Some(more) = tally_in(&examined.exam) else {
            return Ok(examined);
        };
        tally = more;
        program = examined.program;
        rest = others;
    }
    Ok(Examined {
        program,
        exam: Exam::Clear(tally),
    })
}
