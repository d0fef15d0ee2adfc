//! Queries of restricted programs.

ghost use Rattle.std.specs.Prelude.{◌≡◌, ◌<◌, ◌-◌, None, Some, IfOk, IfSome, map, slice_get};
ghost use Rattle.ap_defs.specs.Answers.{outs_of, query_outs};
ghost use Rattle.ap_defs.specs.Goals.{NominalQuery, program_in, query_of};
ghost use Rattle.ap_machine.specs.Below.{AreClausesBelow, IsQueryBelow};
ghost use Rattle.ap_backchain.specs.Ends.{kept_out};
ghost use Rattle.ap_backchain.specs.Problems.{HasQuery, clauses_in, program_of_problem, queries_in};
ghost use Rattle.ap_backchain.specs.Turns.{few_turns, query_turns};
ghost use Rattle.ap_paths.specs.Limits.{part};
ghost use Rattle.ap_program.specs.Typed.{IsTypedProgram, IsTypedQuery, term_form};

use crate::run::{Paths, outputs_of_query, outputs_of_short_query};
use ap_defs::goals::Query;
use ap_defs::memory::Memory;
use ap_defs::paths::Out;
use ap_defs::terms::Term;
use ap_index::index::Index;
use ap_index::predicate::Predicate;
use ap_paths::Limit;
use std::alloc::Global;

/// A query of a program, by its number from 1, that is searched to a depth: so many clauses may be
/// used one inside another.
#[derive(Clone, Copy)]
pub struct Problem<'a> {
    pub program: &'a Index<'a>,
    pub query: u32,
    pub depth: u32,
}

/// The clauses of each predicate.
pub fn clauses_of_problem<'a>(p: &Problem<'a>) -> &'a [Predicate<'a>]
    ensures clauses { program_in result.now ≡ clauses_in p.now }
    ensures below { AreClausesBelow (program_in result.now) }
    ensures typed { IsTypedProgram (program_of_problem p.now) }
{
    p.program.predicates()
}

/// The query.
pub fn query_of_problem<'a>(p: &Problem<'a>) -> &'a Query<Term>
    requires { HasQuery p.now }
    ensures query { slice_get (queries_in p.now) (p.now.query - 1) ≡ Some (query_of result.now) }
    ensures below { IsQueryBelow (query_of result.now) }
    ensures typed { IsTypedQuery term_form (program_of_problem p.now).signature
        (query_of result.now) }
{
    let queries = p.program.program().queries.items();
    &queries[p.query as usize - 1]
}

/// The outputs of a query to a depth up to the last answer that is wanted, in order, each with its path
/// and its answer: the answers of sequential nominal resolution, and a note wherever a branch was cut or
/// is stuck (Cheney and Urban, "Nominal Logic Programming"). The search ends with the last of them.
pub fn outputs(alloc: Global, p: &Problem<'_>, limit: Limit) -> Result<Vec<Out>, Memory>
    requires { HasQuery p.now }
    ensures { IfOk result (λ v. (q : NominalQuery) →
        slice_get (queries_in p.now) (p.now.query - 1) ≡ Some q →
        outs_of v.items ≡ part limit (query_outs (clauses_in p.now) p.now.depth q)) }
{
    outputs_with(alloc, p, Paths::Kept, limit)
}

/// The outputs of a query to a depth, as `outputs`, with their paths, or without: a path takes memory in
/// proportion to the depth of its output.
pub fn outputs_with(
    alloc: Global,
    p: &Problem<'_>,
    paths: Paths,
    limit: Limit,
) -> Result<Vec<Out>, Memory>
    requires { HasQuery p.now }
    ensures { IfOk result (λ v. (q : NominalQuery) →
        slice_get (queries_in p.now) (p.now.query - 1) ≡ Some q →
        outs_of v.items
        ≡ map (kept_out paths) (part limit (query_outs (clauses_in p.now) p.now.depth q))) }
{
    let clauses = clauses_of_problem(p);
    let query = query_of_problem(p);
    outputs_of_query(alloc, clauses, p.depth, query, paths, limit)
}

/// The outputs of a query to a depth, as `outputs_with`, as long as the search isn't wide, which it may be
/// once it takes more than few turns: none says that it is.
pub fn short_outputs(
    alloc: Global,
    p: &Problem<'_>,
    paths: Paths,
    limit: Limit,
) -> Result<Option<Vec<Out>>, Memory>
    requires { HasQuery p.now }
    ensures outs { IfOk result (λ o. IfSome o (λ v. (q : NominalQuery) →
        slice_get (queries_in p.now) (p.now.query - 1) ≡ Some q →
        outs_of v.items
        ≡ map (kept_out paths) (part limit (query_outs (clauses_in p.now) p.now.depth q)))) }
    ensures many { IfOk result (λ o. o ≡ None → (q : NominalQuery) →
        slice_get (queries_in p.now) (p.now.query - 1) ≡ Some q →
        few_turns < query_turns (clauses_in p.now) p.now.depth q) }
{
    let clauses = clauses_of_problem(p);
    let query = query_of_problem(p);
    outputs_of_short_query(alloc, clauses, p.depth, query, paths, limit)
}
