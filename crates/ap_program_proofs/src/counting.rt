//! The uses of clauses in the derivations of a program's answers.

ghost use Rattle.std.specs.Prelude.{◌≡◌, [], IfOk};
ghost use Rattle.ap_defs.specs.Goals.{program_of};
ghost use Rattle.ap_derive.specs.Tables.{counts_of};
ghost use Rattle.ap_derive.specs.Uses.{use_table};
ghost use Rattle.ap_program_proofs.specs.ProgramUses as spec;

use crate::queries::query_count;
use ap_backchain::problem::Problem;
use ap_defs::limits::{Depth, Workers};
use ap_defs::memory::Memory;
use ap_derive::counting::tables::{sum_of_tables, unused_table};
use ap_index::index::Index;
use ap_io::Gate;
use ap_query_proofs::counting::uses_of_query;
use std::alloc::Global;
use std::sync::Wait;
use std::thread::Threads;

/// The table of a program of which nothing is used.
fn unused(alloc: Global, program: &Index<'_>) -> Result<Vec<Vec<u64>>, Memory>
    ensures { IfOk result (λ t. counts_of t ≡ use_table (program_of program.now).clauses []) }
{
    unused_table(alloc, program.program().clauses.items())
}

/// How often each clause of a program is used in the derivations of all answers of its queries to a depth:
/// a list a predicate, with a number a clause.
pub fn uses_of_program<R: Threads + Wait + Sync, G: Gate>(
    rt: &R,
    alloc: Global,
    gate: &G,
    depth: Depth,
    workers: Workers,
    program: &Index<'_>,
) -> Result<Vec<Vec<u64>>, Memory>
    ensures { IfOk result (λ t. counts_of t ≡ use_table (program_of program.now).clauses
        (spec.uses_of_queries (program_of program.now).clauses depth
        (program_of program.now).queries)) }
{
    let count = query_count(program);
    let mut table = unused(alloc, program)?;
    for place in 0..count {
        let problem = Problem {
            program: &*program,
            query: place + 1,
            depth: depth.get(),
        };
        let more = uses_of_query(rt, alloc, gate, workers, &problem)?;
        let sum = sum_of_tables(alloc, &table, &more)?;
        table = sum;
    }
    Ok(table)
}
