//! The exams of a program's queries.

ghost use Rattle.std.specs.Prelude.{◌≡◌, ◌≤◌, IfOk, length, map};
ghost use Rattle.ap_defs.specs.Goals.{program_of, query_of};
ghost use Rattle.ap_defs.specs.Types.{constructor_of};
ghost use Rattle.ap_picks.specs.Pickers.{IsPicker};
ghost use Rattle.ap_program.specs.Typed.{AreTypedQueries, IsTypedQuery, term_form};
ghost use Rattle.ap_examine.specs.Exams as exams;
ghost use Rattle.ap_examine.specs.Reports.{exams_from};
ghost use Rattle.ap_examine.specs.Steps.{Asks};
ghost use Rattle.ap_examine.specs.Views.{AreExams, IsExam};

use crate::answers::{Examined, examine_outs};
use crate::exam::Exam;
use crate::lines::lines_of;
use crate::search::search;
use ap_defs::goals::Query;
use ap_defs::limits::{Depth, Workers};
use ap_defs::memory::Memory;
use ap_defs::terms::Term;
use ap_instance::{copy_constructors, copy_query, hypothesis_of};
use ap_io::Gate;
use ap_paths::Limit;
use ap_picks::{Picker, picker_of};
use ap_program::restricted::Restricted;
use std::alloc::Global;
use std::sync::Wait;
use std::thread::Threads;

/// The exam of a query in place of a program's.
fn examine_query<R: Threads + Wait + Sync, G: Gate>(
    rt: &R,
    alloc: Global,
    gate: &G,
    depth: Depth,
    workers: Workers,
    picker: &Picker<'_>,
    program: Restricted,
    query: &Query<Term>,
) -> Result<Examined, Memory>
    requires picker { IsPicker picker.now }
    requires constructors { map constructor_of picker.now.constructors.now
        ≡ (program_of program).signature.constructors }
    requires some { 1 ≤ length (program_of program).queries }
    requires typed { IsTypedQuery term_form (program_of program).signature (query_of query.now) }
    ensures program { IfOk result (λ r. Asks (program_of program) (program_of r.program)) }
    ensures exam { IfOk result (λ r. IsExam r.exam
        (exams.exam (program_of program) depth (query_of query.now))) }
{
    let hypothesis = hypothesis_of(alloc, query)?;
    let searched = search(
        rt,
        alloc,
        gate,
        depth,
        workers,
        Limit::All,
        program,
        hypothesis,
    )?;
    let asked = searched.program;
    examine_outs(
        rt,
        alloc,
        gate,
        depth,
        workers,
        picker,
        asked,
        query,
        &searched.outs,
    )
}

/// A program, and exams of queries.
#[derive(Drop)]
struct Exams {
    program: Restricted,
    exams: Vec<Exam>,
}

/// The exams of queries, one after the other, in place of a program's.
fn examine_queries<R: Threads + Wait + Sync, G: Gate>(
    rt: &R,
    alloc: Global,
    gate: &G,
    depth: Depth,
    workers: Workers,
    picker: &Picker<'_>,
    program: Restricted,
    queries: &[Query<Term>],
) -> Result<Exams, Memory>
    requires picker { IsPicker picker.now }
    requires constructors { map constructor_of picker.now.constructors.now
        ≡ (program_of program).signature.constructors }
    requires some { 1 ≤ length (program_of program).queries }
    requires typed { AreTypedQueries term_form (program_of program).signature
        (map query_of queries.now) }
    ensures program { IfOk result (λ r. Asks (program_of program) (program_of r.program)) }
    ensures exams { IfOk result (λ r. AreExams (program_of program) depth r.exams.items
        (map query_of queries.now)) }
{
    let mut program = program;
    let mut exams = Vec::new(alloc);
    let mut rest = queries;
    'examining: while let Some((query, others)) = rest.split_first() {
        let examined = examine_query(rt, alloc, gate, depth, workers, picker, program, query)?;
        exams.push(examined.exam)?;
        program = examined.program;
        rest = others;
    }
    Ok(Exams { program, exams })
}

/// Copies of queries.
fn copy_queries(alloc: Global, queries: &[Query<Term>]) -> Result<Vec<Query<Term>>, Memory>
    ensures { IfOk result (λ v. map query_of v.items ≡ map query_of queries.now) }
{
    let mut copied = Vec::new(alloc);
    for query in queries {
        copied.push(copy_query(alloc, query)?)?;
    }
    Ok(copied)
}

/// What is said of the exams of these queries of a program.
fn examine_each<R: Threads + Wait + Sync, G: Gate>(
    rt: &R,
    alloc: Global,
    gate: &G,
    depth: Depth,
    workers: Workers,
    program: Restricted,
    queries: &[Query<Term>],
) -> Result<Vec<u8>, Memory>
    requires some { 1 ≤ length queries.now }
    requires queries { map query_of queries.now ≡ (program_of program).queries }
    ensures { IfOk result (λ v. v.items
        ≡ exams_from (program_of program) depth 1 (program_of program).queries) }
{
    let declared = program.program().signature.constructors.items();
    let constructors = copy_constructors(alloc, declared)?;
    let picker = picker_of(alloc, &constructors)?;
    let examined = examine_queries(rt, alloc, gate, depth, workers, &picker, program, queries)?;
    lines_of(alloc, &examined.program, queries, &examined.exams)
}

/// What is said of the exams of a program's queries.
pub(crate) fn examine_program<R: Threads + Wait + Sync, G: Gate>(
    rt: &R,
    alloc: Global,
    gate: &G,
    depth: Depth,
    workers: Workers,
    program: Restricted,
) -> Result<Vec<u8>, Memory>
    ensures { IfOk result (λ v. v.items
        ≡ exams_from (program_of program) depth 1 (program_of program).queries) }
{
    let queries = copy_queries(alloc, program.program().queries.items())?;
    if queries.is_empty() {
        return Ok(Vec::new(alloc));
    }
    examine_each(rt, alloc, gate, depth, workers, program, &queries)
}
