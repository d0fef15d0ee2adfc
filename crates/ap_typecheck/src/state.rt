//! What the items so far made.
ghost use Rattle.std.specs.Prelude.{◌≡◌, IfOk, map};
ghost use Rattle.ap_defs.specs.RawTerms.{raw_of};
ghost use Rattle.ap_defs.specs.Goals.{clause_over, program_over, query_over};
ghost use Rattle.ap_defs.specs.Types.{signature_of};
ghost use Rattle.ap_typecheck.specs.Declaring.{nothing_made, program_made};
ghost use Rattle.ap_typecheck.specs.Views.{AreTablesKept, made_of};

use ap_defs::goals::{Clause, Program, Query, Signature};
use ap_defs::lists::{List, Text};
use ap_defs::memory::Memory;
use ap_defs::terms::Raw;
use ap_scopes::declarations::Declarations;
use ap_types::inhabitants::{Inhabitants, no_inhabitants};
use std::alloc::Global;

/// What is declared, the data types that are inhabited by it, the clauses of each predicate, and the
/// queries.
pub struct State<'a> {
    pub declared: Declarations<'a>,
    pub inhabitants: Inhabitants,
    pub clauses: Vec<Vec<Clause<Raw>>>,
    pub queries: Vec<Query<Raw>>,
}

// Written out, so that it is not written out at each exit of what owns a state.
impl Drop for State<'_> {
    fn drop(self) {
        let State {
            declared: _declared,
            inhabitants: _inhabitants,
            clauses: _clauses,
            queries: _queries,
        } = self;
    }
}

impl<'a> State<'a> {
    /// Nothing is made yet.
    pub fn new(alloc: Global) -> State<'a>
        ensures made { made_of result ≡ nothing_made }
        ensures kept { AreTablesKept result }
    {
        State {
            declared: Declarations::new(alloc),
            inhabitants: no_inhabitants(alloc),
            clauses: Vec::new(alloc),
            queries: Vec::new(alloc),
        }
    }

    /// The program of a text that has these words.
    pub fn into_program(self, alloc: Global, words: List<Text>) -> Result<Program<Raw>, Memory>
        ensures { IfOk result (λ p. program_over raw_of p
            ≡ program_made words (made_of self.entry)) }
    {
        let State {
            declared,
            inhabitants: _inhabitants,
            clauses,
            queries,
        } = self;
        program_of_parts(alloc, declared.signature, clauses, queries, words)
    }
}

/// Lists in place of vectors.
fn lists_of(
    alloc: Global,
    clauses: Vec<Vec<Clause<Raw>>>,
) -> Result<List<List<Clause<Raw>>>, Memory>
    ensures { IfOk result (λ css. map (map (clause_over raw_of)) css
        ≡ map (λ cs. map (clause_over raw_of) cs.items) clauses.items) }
{
    let mut lists = Vec::new(alloc);
    for of_one in clauses {
        lists.push(List::of(of_one))?;
    }
    Ok(List::of(lists))
}

/// The program of these, with lists in place of vectors.
fn program_of_parts(
    alloc: Global,
    signature: Signature,
    clauses: Vec<Vec<Clause<Raw>>>,
    queries: Vec<Query<Raw>>,
    words: List<Text>,
) -> Result<Program<Raw>, Memory>
    ensures { IfOk result (λ p. program_over raw_of p ≡ record {
      signature = signature_of signature;
      clauses = map (λ cs. map (clause_over raw_of) cs.items) clauses.items;
      queries = map (query_over raw_of) queries.items;
      words = words;
    }) }
{
    let clauses = lists_of(alloc, clauses)?;
    Ok(Program {
        signature,
        clauses,
        queries: List::of(queries),
        words,
    })
}
