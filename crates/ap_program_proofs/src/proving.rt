//! The answers of a program with their derivations.

ghost use Rattle.std.specs.Prelude.{◌≡◌, IfOk, map};
ghost use Rattle.ap_defs.specs.Goals.{program_of};
ghost use Rattle.ap_shared.specs.SharedViews.{shared_proved};
ghost use Rattle.ap_verdicts.specs.Proofs.{limited_proofs};

use crate::queries::query_count;
use ap_backchain::problem::Problem;
use ap_defs::limits::{Depth, Workers};
use ap_defs::memory::Memory;
use ap_index::index::Index;
use ap_io::Gate;
use ap_paths::Limit;
use ap_query_proofs::proving::prove_query;
use ap_shared::derivations::SharedProved;
use std::alloc::Global;
use std::sync::Wait;
use std::thread::Threads;

/// The answers of a program's queries to a depth that are wanted, in order, each with its derivation. So
/// many workers search each query; two or more pass the gate before each path that they take up. The
/// answers do not depend on how many there are. `Err` is want of memory.
pub fn prove_program<R: Threads + Wait + Sync, G: Gate>(
    rt: &R,
    alloc: Global,
    gate: &G,
    depth: Depth,
    workers: Workers,
    limit: Limit,
    program: &Index<'_>,
) -> Result<Vec<SharedProved>, Memory>
    ensures { IfOk result (λ v. map shared_proved v.items
        ≡ limited_proofs depth limit (program_of program.now)) }
{
    let count = query_count(program);
    let mut all = Vec::new(alloc);
    for place in 0..count {
        let problem = Problem {
            program: &*program,
            query: place + 1,
            depth: depth.get(),
        };
        prove_query(rt, alloc, gate, workers, limit, &problem, &mut all)?;
    }
    Ok(all)
}
