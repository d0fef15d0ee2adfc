//! The report on a query by one worker, and that of the runs which several give.

ghost use Rattle.std.specs.Prelude.{◌≡◌, ◌-◌, ◌<◌, ◌^◌, ℕ, [], Some, IfOk, OnOk, length, map, slice_get};
ghost use Rattle.ap_defs.specs.Answers.{query_outs};
ghost use Rattle.ap_defs.specs.Goals.{NominalQuery, program_of};
ghost use Rattle.ap_defs.specs.Lines.{query_lines};
ghost use Rattle.ap_defs.specs.Types.{locals_of};
ghost use Rattle.ap_answers.specs.Words.{IsTaken};
ghost use Rattle.ap_backchain.specs.Ends.{without_path};
ghost use Rattle.ap_backchain.specs.Problems.{HasQuery, program_of_problem, queries_in};
ghost use Rattle.ap_machine.specs.Asking.{answering_of};
ghost use Rattle.ap_paths.specs.Limits.{part};
ghost use Rattle.ap_paths.specs.Runs.{outs_of_runs};
ghost use Rattle.ap_stream.specs.Builders.{report_with};
ghost use Rattle.ap_stream.specs.Coming.{IsSearching, outs_coming_by};
ghost use Rattle.ap_stream.specs.Shown.{IsHeading, shown_locals};

use crate::at_end::AtEnd;
use crate::builder::ReportBuilder;
use crate::search::Search;
use crate::shown::{free_vars, has_unshown, shown_locals};
use ap_answers::locals::free_name_texts;
use ap_answers::words::Taken;
use ap_backchain::problem::{Problem, query_of_problem};
use ap_defs::goals::{Local, Program};
use ap_defs::memory::Memory;
use ap_defs::paths::Out;
use ap_defs::terms::Term;
use ap_machine::asked::Asked;
use ap_paths::{Limit, Run};
use std::alloc::Global;

/// Lets an output go that is written. What becomes of the last one is told.
fn let_go(at_end: AtEnd, search: &Search<'_>, out: Out) {
    if search.is_over() {
        at_end.end(out);
    } else {
        drop(out);
    }
}

/// Adds the outputs that are to come, with what is asked for, to a report with these identifiers, each as it is found.
fn push_outputs(
    alloc: Global,
    program: &Program<Term>,
    taken: &Taken<'_>,
    locals: &[Local],
    asked: &Asked<'_>,
    at_end: AtEnd,
    search: &mut Search<'_>,
    builder: &mut ReportBuilder,
) -> Result<(), Memory>
    requires words { IsTaken program.now.words taken.now }
    requires searching { IsSearching search.old }
    ensures { OnOk result ((query : ℕ) →
        report_with (program_of program.now) query (locals_of locals.now) builder.new []
        ≡ report_with (program_of program.now) query (locals_of locals.now) builder.old
        (outs_coming_by (answering_of asked.now) search.old)) }
{
    'searching: loop {
        let Some(out) = search.next_by(alloc, asked)? else {
            return Ok(());
        };
        builder.push(alloc, program, taken, locals, &out)?;
        let_go(at_end, search, out);
    }
}

/// The report on a query, as `stream_report`, by a search in which the variables whose bindings aren't shown are marked as
/// bound, so that no answer has them, and by identifiers with which the lines of answers are the same.
fn report_by<'a>(
    alloc: Global,
    limit: Limit,
    at_end: AtEnd,
    taken: &Taken<'_>,
    problem: &Problem<'a>,
    locals: &[Local],
    heading: &[Local],
    room: &mut Option<Search<'a>>,
) -> Result<Vec<u8>, Memory>
    requires words { IsTaken problem.now.program.now.words taken.now }
    requires query { HasQuery problem.now }
    requires locals { length locals.now < 2 ^ 64 }
    requires shown { (q : NominalQuery) →
        slice_get (queries_in problem.now) (problem.now.query - 1) ≡ Some q →
        locals_of locals.now ≡ shown_locals q.locals }
    requires heading { IsHeading (locals_of heading.now) (locals_of locals.now) }
    ensures { IfOk result (λ v. (q : NominalQuery) →
        slice_get (queries_in problem.now) (problem.now.query - 1) ≡ Some q →
        v.items ≡ query_lines (program_of_problem problem.now) problem.now.query q.locals
        (map without_path (part limit
        (query_outs (program_of_problem problem.now).clauses problem.now.depth q)))) }
{
    let program = problem.program.program();
    let asked = Asked::alone(alloc, locals)?;
    let mut search = Search::within(alloc, room.take(), problem, limit)?;
    let mut builder = ReportBuilder::new(alloc);
    let pushed = push_outputs(
        alloc,
        program,
        taken,
        heading,
        &asked,
        at_end,
        &mut search,
        &mut builder,
    );
    *room = search.lent();
    match pushed {
        Ok(()) => builder.finish(alloc, problem.query),
        Err(Memory) => Err(Memory),
    }
}

/// The report on a query to a depth up to the last answer that is wanted, where the words of the text are
/// known: each output is written as it is found, so that memory is that of the report and of one branch.
/// The memory of an earlier search is used again, and then lent to the next one. What becomes of the last answer
/// is told.
pub fn stream_report<'a>(
    alloc: Global,
    limit: Limit,
    at_end: AtEnd,
    taken: &Taken<'_>,
    problem: &Problem<'a>,
    room: &mut Option<Search<'a>>,
) -> Result<Vec<u8>, Memory>
    requires words { IsTaken problem.now.program.now.words taken.now }
    requires query { HasQuery problem.now }
    ensures { IfOk result (λ v. (q : NominalQuery) →
        slice_get (queries_in problem.now) (problem.now.query - 1) ≡ Some q →
        v.items ≡ query_lines (program_of_problem problem.now) problem.now.query q.locals
        (map without_path (part limit
        (query_outs (program_of_problem problem.now).clauses problem.now.depth q)))) }
{
    let locals = query_of_problem(problem).locals.items();
    if !has_unshown(locals) {
        return report_by(alloc, limit, at_end, taken, problem, locals, locals, room);
    }
    let shown = shown_locals(alloc, locals)?;
    let names = free_name_texts(alloc, &shown)?;
    if !names.as_slice().is_empty() {
        return report_by(alloc, limit, at_end, taken, problem, &shown, &shown, room);
    }
    let vars = free_vars(alloc, &shown)?;
    report_by(alloc, limit, at_end, taken, problem, &shown, &vars, room)
}

/// The report on a query whose outputs are those of these runs, where the words of the text are known.
pub fn report_of_runs(
    alloc: Global,
    taken: &Taken<'_>,
    problem: &Problem<'_>,
    runs: &[Run],
) -> Result<Vec<u8>, Memory>
    requires words { IsTaken problem.now.program.now.words taken.now }
    requires query { HasQuery problem.now }
    ensures { IfOk result (λ v. (q : NominalQuery) →
        slice_get (queries_in problem.now) (problem.now.query - 1) ≡ Some q →
        v.items ≡ query_lines (program_of_problem problem.now) problem.now.query q.locals
        (outs_of_runs runs.now)) }
{
    let program = problem.program.program();
    let locals = query_of_problem(problem).locals.items();
    let mut builder = ReportBuilder::new(alloc);
    'adding: for run in runs {
        builder.push_run(alloc, program, taken, locals, run)?;
    }
    builder.finish(alloc, problem.query)
}
