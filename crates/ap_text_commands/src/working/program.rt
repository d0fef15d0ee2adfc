//! The totals of a program.

ghost use Rattle.std.specs.Prelude.{◌≡◌, IfOk, length};
ghost use Rattle.ap_defs.specs.Goals.{program_of};
ghost use Rattle.ap_text_commands.specs.WorkReports.{totals_of, work_depth};

use crate::working::query::query_totals;
use ap_answers::printing::taken_in;
use ap_backchain::problem::Problem;
use ap_defs::limits::Workers;
use ap_defs::memory::Memory;
use ap_index::index::Index;
use ap_io::Gate;
use ap_totals::totals::Totals;
use std::alloc::Global;
use std::sync::Wait;
use std::thread::Threads;

/// The depth to which a generated text is run.
const DEPTH: u32 = 4;

/// How many queries a program has.
pub(crate) fn query_count(program: &Index<'_>) -> u32
    ensures { result ≡ length (program_of program.now).queries }
{
    program.program().queries.items().len() as u32
}

/// The totals of a program's queries, which are answered one after the other.
pub(crate) fn program_totals<R: Threads + Wait + Sync, G: Gate>(
    rt: &R,
    alloc: Global,
    gate: &G,
    workers: Workers,
    program: &Index<'_>,
) -> Result<Totals, Memory>
    ensures { IfOk result (λ t. t ≡ totals_of (program_of program.now) work_depth) }
{
    let count = query_count(program);
    let taken = taken_in(alloc, program.restricted())?;
    let mut totals = Totals::none();
    for place in 0..count {
        let problem = Problem {
            program: &*program,
            query: place + 1,
            depth: DEPTH,
        };
        let more = query_totals(rt, alloc, gate, workers, &taken, &problem)?;
        totals = totals.with(more);
    }
    Ok(totals)
}
