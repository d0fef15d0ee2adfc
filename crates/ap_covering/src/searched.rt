//! The outputs of the query that was searched last.

ghost use Rattle.std.specs.Prelude.{◌≡◌, ℕ, IfOk, length};
ghost use Rattle.ap_defs.specs.Goals.{NominalProgram, program_of};
ghost use Rattle.ap_covering.specs.Searched.{HasSearched};

use ap_backchain::problem::Problem;
use ap_defs::limits::{Depth, Workers};
use ap_defs::memory::Memory;
use ap_defs::paths::Out;
use ap_index::index::Index;
use ap_io::Gate;
use ap_paths::Limit;
use ap_replay::solver::solve;
use std::alloc::Global;
use std::sync::Wait;
use std::thread::Threads;

/// The outputs of the query with this number; none where there is no such query.
#[derive(Drop)]
pub(crate) struct Searched {
    pub query: u32,
    pub outs: Vec<Out>,
}

/// Nothing: there is no query 0.
pub(crate) fn nothing_searched(alloc: Global) -> Searched
    ensures { (p : NominalProgram) (depth : ℕ) → HasSearched p depth 0 result }
{
    Searched {
        query: 0,
        outs: Vec::new(alloc),
    }
}

/// How many queries a program has.
fn query_count(program: &Index<'_>) -> usize
    ensures { result ≡ length (program_of program.now).queries }
{
    program.program().queries.items().len()
}

/// The outputs of a query to a depth, which so many workers find between them.
fn search_query<R: Threads + Wait + Sync, G: Gate>(
    rt: &R,
    alloc: Global,
    gate: &G,
    depth: Depth,
    workers: Workers,
    program: &Index<'_>,
    query: u32,
) -> Result<Searched, Memory>
    ensures { IfOk result (λ s. HasSearched (program_of program.now) depth query s) }
{
    let count = query_count(program);
    if query == 0 {
        let outs = Vec::new(alloc);
        return Ok(Searched { query, outs });
    }
    if query as usize > count {
        let outs = Vec::new(alloc);
        return Ok(Searched { query, outs });
    }
    let problem = Problem {
        program: &*program,
        query,
        depth: depth.get(),
    };
    let outs = solve(rt, alloc, gate, workers, Limit::All, &problem)?;
    Ok(Searched { query, outs })
}

/// The same, or what was searched last, where it was this query.
pub(crate) fn searched_for<R: Threads + Wait + Sync, G: Gate>(
    rt: &R,
    alloc: Global,
    gate: &G,
    depth: Depth,
    workers: Workers,
    program: &Index<'_>,
    last: Searched,
    query: u32,
) -> Result<Searched, Memory>
    requires { HasSearched (program_of program.now) depth last.query last }
    ensures { IfOk result (λ s. HasSearched (program_of program.now) depth query s) }
{
    if last.query == query {
        return Ok(last);
    }
    search_query(rt, alloc, gate, depth, workers, &*program, query)
}
