//! The answers of a query with their derivations.

ghost use Rattle.std.specs.Prelude.{◌≡◌, ◌-◌, ◌++◌, Some, IfOk, OnOk, flat_map, map, slice_get};
ghost use Rattle.std.specs.List.{AllByRecursion};
ghost use Rattle.ap_defs.specs.Answers.{answer_of, out_of, outs_of};
ghost use Rattle.ap_defs.specs.Goals.{NominalQuery};
ghost use Rattle.ap_backchain.specs.Problems.{HasQuery, clauses_in, queries_in};
ghost use Rattle.ap_checks.specs.Traces.{Traced, traced_query};
ghost use Rattle.ap_derive.specs.Derived.{LeadsOn};
ghost use Rattle.ap_shared.specs.SharedViews.{shared_proved};
ghost use Rattle.ap_query_proofs.specs.ProvedPaths.{IsLed, proof_at, proof_by};
ghost use Rattle.ap_verdicts.specs.Proofs.{query_proofs, wanted_proofs};

use ap_backchain::problem::Problem;
use ap_defs::limits::Workers;
use ap_defs::memory::Memory;
use ap_defs::outcomes::Answer;
use ap_defs::paths::Out;
use ap_derive::assembling::Derived;
use ap_derive::derivations::derive_along;
use ap_io::Gate;
use ap_paths::Limit;
use ap_replay::solver::solve;
use ap_shared::arena::SharedTerms;
use ap_shared::derivations::SharedProved;
use ap_shared::sharing::share_answer;
use std::alloc::Global;
use std::rc::Rc;
use std::sync::Wait;
use std::thread::Threads;

/// An answer with the derivation to which its path leads, over a table of their own.
fn prove_answer(
    alloc: Global,
    p: &Problem<'_>,
    path: &[u32],
    answer: &Answer,
) -> Result<SharedProved, Memory>
    requires query { HasQuery p.now }
    requires leads { (q : NominalQuery) →
        slice_get (queries_in p.now) (p.now.query - 1) ≡ Some q →
        LeadsOn (clauses_in p.now) p.now.depth q path.now }
    ensures { IfOk result (λ r. (q : NominalQuery) (t : Traced) →
        slice_get (queries_in p.now) (p.now.query - 1) ≡ Some q →
        traced_query (clauses_in p.now) p.now.depth q path.now ≡ Some t →
        shared_proved r ≡ proof_by p.now.query (answer_of answer.now) t) }
{
    let mut terms = SharedTerms::new(alloc);
    let answer = share_answer(alloc, &mut terms, answer)?;
    let found = derive_along(alloc, p, path, terms)?;
    let Derived { terms, derivation } = found;
    let terms = Rc::new(alloc, terms)?;
    Ok(SharedProved {
        query: p.query,
        terms,
        answer,
        derivation,
    })
}

/// Adds an output with its derivation, if it is an answer.
fn prove_out(
    alloc: Global,
    p: &Problem<'_>,
    out: Out,
    all: &mut Vec<SharedProved>,
) -> Result<(), Memory>
    requires query { HasQuery p.now }
    requires led { (q : NominalQuery) →
        slice_get (queries_in p.now) (p.now.query - 1) ≡ Some q →
        IsLed (clauses_in p.now) p.now.depth q (out_of out) }
    ensures { OnOk result ((q : NominalQuery) →
        slice_get (queries_in p.now) (p.now.query - 1) ≡ Some q →
        map shared_proved all.new.items ≡ map shared_proved all.old.items
        ++ proof_at (clauses_in p.now) p.now.depth p.now.query q (out_of out)) }
{
    match out {
        Out::Found(path, answer) => {
            let proved = prove_answer(alloc, p, path.choices(), &answer)?;
            all.push(proved)?;
            Ok(())
        }
        Out::Cut(_path) => Ok(()),
        Out::Stuck(_path) => Ok(()),
    }
}

/// Adds the answers among outputs, with their derivations.
fn prove_outs(
    alloc: Global,
    p: &Problem<'_>,
    outs: Vec<Out>,
    all: &mut Vec<SharedProved>,
) -> Result<(), Memory>
    requires query { HasQuery p.now }
    requires led { (q : NominalQuery) →
        slice_get (queries_in p.now) (p.now.query - 1) ≡ Some q →
        AllByRecursion (IsLed (clauses_in p.now) p.now.depth q) (outs_of outs.items) }
    ensures { OnOk result ((q : NominalQuery) →
        slice_get (queries_in p.now) (p.now.query - 1) ≡ Some q →
        map shared_proved all.new.items ≡ map shared_proved all.old.items
        ++ flat_map (proof_at (clauses_in p.now) p.now.depth p.now.query q)
        (outs_of outs.items)) }
{
    for out in outs {
        prove_out(alloc, p, out, all)?;
    }
    Ok(())
}

/// Adds the answers of a query that are wanted, which so many workers find between them, with their
/// derivations.
pub fn prove_query<R: Threads + Wait + Sync, G: Gate>(
    rt: &R,
    alloc: Global,
    gate: &G,
    workers: Workers,
    limit: Limit,
    p: &Problem<'_>,
    all: &mut Vec<SharedProved>,
) -> Result<(), Memory>
    requires query { HasQuery p.now }
    ensures { OnOk result ((q : NominalQuery) →
        slice_get (queries_in p.now) (p.now.query - 1) ≡ Some q →
        map shared_proved all.new.items ≡ map shared_proved all.old.items
        ++ wanted_proofs limit (query_proofs (clauses_in p.now) p.now.depth p.now.query q)) }
{
    let outs = solve(rt, alloc, gate, workers, limit, p)?;
    prove_outs(alloc, p, outs, all)
}
