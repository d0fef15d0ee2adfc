//! Searches of queries that are put in place of a program's.

ghost use Rattle.std.specs.Prelude.{◌≡◌, ◌≤◌, [], ◌∷◌, Some, IfOk, length, map, slice_get};
ghost use Rattle.ap_defs.specs.Answers.{outs_of, query_outs};
ghost use Rattle.ap_defs.specs.Goals.{NominalQuery, program_of, query_of};
ghost use Rattle.ap_backchain.specs.Ends.{without_path};
ghost use Rattle.ap_paths.specs.Limits.{part};
ghost use Rattle.ap_program.specs.Typed.{IsTypedProgram, IsTypedQuery, term_form};
ghost use Rattle.ap_property.specs.PutIn.{asking};

use ap_backchain::problem::Problem;
use ap_defs::goals::Query;
use ap_defs::limits::{Depth, Workers};
use ap_defs::memory::Memory;
use ap_defs::paths::Out;
use ap_defs::terms::Term;
use ap_index::index::Index;
use ap_instance::ask;
use ap_io::Gate;
use ap_paths::Limit;
use ap_program::restricted::Restricted;
use ap_replay::solver::solve_without_paths;
use std::alloc::Global;
use std::sync::Wait;
use std::thread::Threads;

/// A program, and outputs of its query, without their paths.
#[derive(Drop)]
pub(crate) struct Searched {
    pub program: Restricted,
    pub outs: Vec<Out>,
}

/// That a program is typed.
fn typed(program: &Restricted)
    ensures { IsTypedProgram (program_of program.now) }
{
    let _program = program.program();
}

/// The outputs of the first query of a program with its index, without their paths.
fn first_outputs_by<R: Threads + Wait + Sync, G: Gate>(
    rt: &R,
    alloc: Global,
    gate: &G,
    depth: Depth,
    workers: Workers,
    limit: Limit,
    program: &Index<'_>,
) -> Result<Vec<Out>, Memory>
    requires { 1 ≤ length (program_of program.now).queries }
    ensures { IfOk result (λ v. (q : NominalQuery) →
        slice_get (program_of program.now).queries 0 ≡ Some q →
        outs_of v.items ≡ map without_path
        (part limit (query_outs (program_of program.now).clauses depth q))) }
{
    let problem = Problem {
        program: &*program,
        query: 1,
        depth: depth.get(),
    };
    solve_without_paths(rt, alloc, gate, workers, limit, &problem)
}

/// The outputs of a program's first query, without their paths.
fn first_outputs<R: Threads + Wait + Sync, G: Gate>(
    rt: &R,
    alloc: Global,
    gate: &G,
    depth: Depth,
    workers: Workers,
    limit: Limit,
    program: &Restricted,
) -> Result<Vec<Out>, Memory>
    requires { 1 ≤ length (program_of program.now).queries }
    ensures { IfOk result (λ v. (q : NominalQuery) →
        slice_get (program_of program.now).queries 0 ≡ Some q →
        outs_of v.items ≡ map without_path
        (part limit (query_outs (program_of program.now).clauses depth q))) }
{
    let index = Index::of(alloc, program)?;
    first_outputs_by(rt, alloc, gate, depth, workers, limit, &index)
}

/// The outputs of a query in place of a program's, up to the last answer that is wanted, without their paths.
pub(crate) fn search<R: Threads + Wait + Sync, G: Gate>(
    rt: &R,
    alloc: Global,
    gate: &G,
    depth: Depth,
    workers: Workers,
    limit: Limit,
    program: Restricted,
    query: Query<Term>,
) -> Result<Searched, Memory>
    requires some { 1 ≤ length (program_of program).queries }
    requires typed { IsTypedQuery term_form (program_of program).signature (query_of query) }
    ensures program { IfOk result (λ s. program_of s.program
        ≡ asking (program_of program) (query_of query)) }
    ensures typed { IfOk result (λ s. IsTypedProgram (program_of s.program)) }
    ensures outs { IfOk result (λ s. outs_of s.outs.items
        ≡ map without_path
        (part limit (query_outs (program_of program).clauses depth (query_of query)))) }
{
    let asked = ask(alloc, program, query)?;
    let outs = first_outputs(rt, alloc, gate, depth, workers, limit, &asked.program)?;
    typed(&asked.program);
    Ok(Searched {
        program: asked.program,
        outs,
    })
}
