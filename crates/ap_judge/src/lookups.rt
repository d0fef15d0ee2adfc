//! Which identifiers of an item are free names and free variables; clauses and queries by number.

ghost use Rattle.std.specs.Prelude.{◌≡◌, zero, length, MatchOption, None, Some};
ghost use Rattle.ap_program.specs.FreeLocals.{free_sort, is_free_var};
ghost use Rattle.ap_defs.specs.Goals.{clause_of, clauses_of, program_of, query_of};
ghost use Rattle.ap_defs.specs.GroundProofs.{clause_at as clause_numbered};
ghost use Rattle.ap_defs.specs.Renaming.{local_names, local_vars};
ghost use Rattle.ap_defs.specs.Types.{local_of, locals_of};
ghost use Rattle.ap_checks.specs.Checks.{query_at as query_numbered};

use ap_defs::goals::{Clause, Kind, Local, Program, Query};
use ap_defs::terms::Term;

/// The sort of an identifier that is a free name.
pub fn sort_of(local: &Local) -> Option<u32>
    ensures { result ≡ free_sort (local_of local.now) }
{
    match &local.kind {
        Kind::Name(sort) if !local.bound => Some(*sort),
        _ => None,
    }
}

/// Whether an identifier is a free variable.
pub(crate) fn is_variable(local: &Local) -> bool
    ensures { result ≡ is_free_var (local_of local.now) }
{
    match &local.kind {
        Kind::Var(_) => !local.bound,
        Kind::Name(_) => false,
    }
}

/// How many identifiers are free names.
#[tactic(auto, using(crate::proofs::LocalLemmas::names_skip, crate::proofs::LocalLemmas::names_take))]
pub fn count_names(locals: &[Local]) -> usize
    ensures { result ≡ length (local_names zero (locals_of locals.now)) }
{
    let mut count = 0;
    for (i, local) in locals.iter().enumerate() {
        if sort_of(local).is_some() {
            count += 1;
        }
    }
    count
}

/// How many identifiers are free variables.
#[tactic(auto, using(crate::proofs::LocalLemmas::vars_skip, crate::proofs::LocalLemmas::vars_take))]
pub fn count_vars(locals: &[Local]) -> usize
    ensures { result ≡ length (local_vars zero (locals_of locals.now)) }
{
    let mut count = 0;
    for (i, local) in locals.iter().enumerate() {
        if is_variable(local) {
            count += 1;
        }
    }
    count
}

/// The clause of a predicate with this number, from 1.
pub fn clause_at(program: &Program<Term>, pred: u32, number: u32) -> Option<&Clause<Term>>
    ensures { MatchOption result (clause_numbered (clauses_of (program_of program.now).clauses pred)
        number ≡ None) (λ c. clause_numbered (clauses_of (program_of program.now).clauses pred)
        number ≡ Some (clause_of c.now)) }
{
    let clauses = program.clauses.items();
    let place = pred as usize;
    if place >= clauses.len() {
        return None;
    }
    let clauses = clauses[place].items();
    let number = number as usize;
    if number == 0 {
        return None;
    }
    if number > clauses.len() {
        return None;
    }
    Some(&clauses[number - 1])
}

/// The query with this number, from 1.
#[tactic(auto, using(crate::proofs::ClauseLemmas::query_zero, crate::proofs::ClauseLemmas::query_past, crate::proofs::ClauseLemmas::query_there))]
pub fn query_at(program: &Program<Term>, number: u32) -> Option<&Query<Term>>
    ensures { MatchOption result
        (query_numbered (program_of program.now).queries number ≡ None) (λ q.
        query_numbered (program_of program.now).queries number ≡ Some (query_of q.now)) }
{
    let queries = program.queries.items();
    let number = number as usize;
    if number == 0 {
        return None;
    }
    if number > queries.len() {
        return None;
    }
    Some(&queries[number - 1])
}
