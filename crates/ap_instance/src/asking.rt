//! A program that is asked another query.

ghost use Rattle.std.specs.Prelude.{◌≡◌, ◌≤◌, [], ◌∷◌, IfOk, length, map};
ghost use Rattle.ap_defs.specs.Goals.{program_of, query_of};
ghost use Rattle.ap_program.specs.NameRestriction.{IsRestricted};
ghost use Rattle.ap_program.specs.Typed.{IsTypedQuery, term_form};
ghost use Rattle.ap_property.specs.PutIn.{asking};

use ap_defs::goals::{Program, Query};
use ap_defs::lists::List;
use ap_defs::memory::Memory;
use ap_defs::terms::Term;
use ap_program::restricted::Restricted;
use std::alloc::Global;

/// A program with one query, and those that it had before.
#[derive(Drop)]
pub struct Asked {
    pub program: Restricted,
    pub former: List<Query<Term>>,
}

/// A list of one query.
fn only(alloc: Global, query: Query<Term>) -> Result<List<Query<Term>>, Memory>
    ensures { IfOk result (λ l. l ≡ query ∷ []) }
{
    let mut queries = Vec::new(alloc);
    queries.push(query)?;
    Ok(List::of(queries))
}

/// The program with queries in place of its own.
fn with_queries(program: Restricted, queries: List<Query<Term>>) -> Asked
    requires restricted { IsRestricted (record (program_of program)
        { queries = map query_of queries }) }
    ensures asked { program_of result.program
        ≡ record (program_of program) { queries = map query_of queries } }
    ensures former { map query_of result.former ≡ (program_of program).queries }
{
    let Program {
        signature,
        clauses,
        queries: former,
        words,
    } = program.into_program();
    let program = Restricted::of(Program {
        signature,
        clauses,
        queries,
        words,
    });
    Asked { program, former }
}

/// The program with a query in place of its own, and these.
pub fn ask(alloc: Global, program: Restricted, query: Query<Term>) -> Result<Asked, Memory>
    requires some { 1 ≤ length (program_of program).queries }
    requires typed { IsTypedQuery term_form (program_of program).signature (query_of query) }
    ensures asked { IfOk result (λ a. program_of a.program
        ≡ asking (program_of program) (query_of query)) }
    ensures former { IfOk result (λ a. map query_of a.former ≡ (program_of program).queries) }
{
    let queries = only(alloc, query)?;
    Ok(with_queries(program, queries))
}
