//! The derivations of the answers of branches.

ghost use Rattle.std.specs.Prelude.{◌≡◌, ◌-◌, [], ◌∷◌, Some, IfOk, slice_get};
ghost use Rattle.ap_defs.specs.Answers.{NominalAnswer, derivation_in, found, outs_at};
ghost use Rattle.ap_defs.specs.Goals.{NominalQuery, program_of};
ghost use Rattle.ap_backchain.specs.Branches.{IsAnswering, IsBranchOf, path_of_branch};
ghost use Rattle.ap_backchain.specs.Problems.{HasQuery, clauses_in, queries_in};
ghost use Rattle.ap_checks.specs.Checks.{Checks};
ghost use Rattle.ap_checks.specs.Traces.{Traced, traced_query};
ghost use Rattle.ap_shared.specs.Shared.{IsGrown};
ghost use Rattle.ap_shared.specs.SharedViews.{shared_terms};
ghost use Rattle.ap_derive.specs.Derived.{IsDerivationAt, LeadsOn, derived};

use crate::assembling::{Derived, assemble};
use crate::selecting::select_along;
use ap_backchain::branch::Branch;
use ap_backchain::problem::{Problem, query_of_problem};
use ap_backchain::run::first_machine;
use ap_defs::memory::Memory;
use ap_shared::arena::SharedTerms;
use std::alloc::Global;

/// The derivation to which a whole path leads, with what its variables stand for in the end, behind the terms of a
/// table. Where the search has an answer at the path, it checks against that.
pub fn derive_along(
    alloc: Global,
    p: &Problem<'_>,
    path: &[u32],
    terms: SharedTerms,
) -> Result<Derived, Memory>
    requires query { HasQuery p.now }
    requires leads { (q : NominalQuery) →
        slice_get (queries_in p.now) (p.now.query - 1) ≡ Some q →
        LeadsOn (clauses_in p.now) p.now.depth q path.now }
    ensures grown { IfOk result (λ d. IsGrown (shared_terms terms) (shared_terms d.terms)) }
    ensures derivation { IfOk result (λ d. (q : NominalQuery) (r : Traced) →
        slice_get (queries_in p.now) (p.now.query - 1) ≡ Some q →
        traced_query (clauses_in p.now) p.now.depth q path.now ≡ Some r →
        derived d ≡ derivation_in r.state r.derivation) }
    ensures checks { IfOk result (λ d. (q : NominalQuery) (a : NominalAnswer) →
        slice_get (queries_in p.now) (p.now.query - 1) ≡ Some q →
        outs_at (clauses_in p.now) p.now.depth q path.now ≡ found path.now a ∷ [] →
        Checks (program_of p.now.program.now) q a (derived d)) }
{
    let clauses = p.program.predicates();
    let query = query_of_problem(p);
    let mut machine = first_machine(alloc, p.depth, query)?;
    let nodes = select_along(alloc, clauses, &mut machine, path)?;
    assemble(alloc, &machine.store, terms, nodes)
}

/// The derivation of the answer at which a branch stands: the one of the state that the search
/// found at the branch's path, with what its variables stand for in the end, behind the terms of a table. It
/// checks against the answer.
pub fn derive<'a>(
    alloc: Global,
    p: &Problem<'a>,
    branch: &Branch<'a>,
    terms: SharedTerms,
) -> Result<Derived, Memory>
    requires query { HasQuery p.now }
    requires of { IsBranchOf p.now branch.now }
    requires answer { IsAnswering branch.now }
    ensures grown { IfOk result (λ d. IsGrown (shared_terms terms) (shared_terms d.terms)) }
    ensures derivation { IfOk result (λ d. (q : NominalQuery) →
        slice_get (queries_in p.now) (p.now.query - 1) ≡ Some q →
        IsDerivationAt (clauses_in p.now) p.now.depth q (path_of_branch branch.now)
        (derived d)) }
    ensures checks { IfOk result (λ d. (q : NominalQuery) (a : NominalAnswer) →
        slice_get (queries_in p.now) (p.now.query - 1) ≡ Some q →
        outs_at (clauses_in p.now) p.now.depth q (path_of_branch branch.now)
        ≡ found (path_of_branch branch.now) a ∷ [] →
        Checks (program_of p.now.program.now) q a (derived d)) }
{
    derive_along(alloc, p, branch.path(), terms)
}
