//! The first fault of a program, and the program with its swappings carried out.

ghost use Rattle.std.specs.Prelude.{◌≡◌, ◌++◌, List as list, map, IfOk};
ghost use Rattle.ap_defs.specs.RawTerms.{raw_of};
ghost use Rattle.ap_defs.specs.Types.{signature_of};
ghost use Rattle.ap_defs.specs.Goals.{clause_of, clause_over, query_of, query_over, program_of, program_over};
ghost use Rattle.ap_program.specs.CarryingOut.{carried_out, map_clause, map_query, carried_out_program};
ghost use Rattle.ap_program.specs.NameRestriction.{RawItem, clause as clause_item, query as query_item, items_of, items_of_lists};
ghost use Rattle.ap_restrict.specs.Heads.{AreTables};
ghost use Rattle.ap_restrict.specs.Scans.{IsScan, earlier_of};

use crate::heads::Setting;
use crate::items::{clause_fault, query_fault};
use crate::owned::carry_own_terms;
use crate::owned_goals::carry_own_goal;
use crate::tables::make_tables;
use ap_defs::faults::NameFault;
use ap_defs::goals::{Clause, Program, Query, Signature};
use ap_defs::lists::List;
use ap_defs::memory::Memory;
use ap_defs::terms::{Raw, Term};
use std::alloc::Global;

/// The fault of the earlier item.
fn earlier(best: Option<NameFault>, new: Option<NameFault>) -> Option<NameFault>
    ensures { result ≡ earlier_of best new }
{
    match best {
        None => new,
        Some(old) => match new {
            None => Some(old),
            Some(other) => {
                if other.place.item < old.place.item {
                    Some(other)
                } else {
                    Some(old)
                }
            }
        },
    }
}

/// The first fault of the items before and of these clauses.
fn scan_clauses(
    alloc: Global,
    setting: &Setting<'_>,
    clauses: &[Clause<Raw>],
    before: Option<NameFault>,
) -> Result<Option<NameFault>, Memory>
    requires { AreTables (signature_of setting.now.sig.now).constructors setting.now.tables.now }
    ensures { IfOk result (λ o. (items : list RawItem) →
        IsScan (signature_of setting.now.sig.now).constructors items before →
        IsScan (signature_of setting.now.sig.now).constructors (items
        ++ map clause_item (map (clause_over raw_of) clauses.now)) o) }
{
    let mut best = before;
    for clause in clauses {
        let new = clause_fault(alloc, setting, clause)?;
        best = earlier(best, new);
    }
    Ok(best)
}

/// The first fault of the clauses of all predicates.
fn scan_lists(
    alloc: Global,
    setting: &Setting<'_>,
    lists: &[List<Clause<Raw>>],
) -> Result<Option<NameFault>, Memory>
    requires { AreTables (signature_of setting.now.sig.now).constructors setting.now.tables.now }
    ensures { IfOk result (IsScan (signature_of setting.now.sig.now).constructors (items_of_lists
        (map (map (clause_over raw_of)) lists.now))) }
{
    let mut best = None;
    for clauses in lists {
        let with = scan_clauses(alloc, setting, clauses.items(), best)?;
        best = with;
    }
    Ok(best)
}

/// The first fault of the items before and of these queries.
fn scan_queries(
    alloc: Global,
    sig: &Signature,
    queries: &[Query<Raw>],
    before: Option<NameFault>,
) -> Result<Option<NameFault>, Memory>
    ensures { IfOk result (λ o. (items : list RawItem) →
        IsScan (signature_of sig.now).constructors items before →
        IsScan (signature_of sig.now).constructors (items
        ++ map query_item (map (query_over raw_of) queries.now)) o) }
{
    let mut best = before;
    for query in queries {
        let new = query_fault(alloc, sig, query)?;
        best = earlier(best, new);
    }
    Ok(best)
}

/// The first fault of a program.
pub fn first_fault(alloc: Global, program: &Program<Raw>) -> Result<Option<NameFault>, Memory>
    ensures { IfOk result (IsScan (signature_of program.now.signature).constructors (items_of
        (program_over raw_of program.now))) }
{
    let tables = make_tables(alloc, program)?;
    let setting = Setting {
        sig: &program.signature,
        tables: tables.as_slice(),
    };
    let best = scan_lists(alloc, &setting, program.clauses.items())?;
    scan_queries(alloc, &program.signature, program.queries.items(), best)
}

/// A clause with its swappings carried out.
fn carry_clause(alloc: Global, clause: Clause<Raw>) -> Result<Clause<Term>, Memory>
    ensures { IfOk result (λ c. clause_of c ≡ map_clause carried_out (clause_over raw_of clause)) }
{
    let Clause {
        item,
        line,
        pred,
        args,
        body,
        locals,
    } = clause;
    let args = carry_own_terms(alloc, args)?;
    let body = carry_own_goal(alloc, body)?;
    Ok(Clause {
        item,
        line,
        pred,
        args,
        body,
        locals,
    })
}

/// Clauses with their swappings carried out.
fn carry_clauses(alloc: Global, clauses: List<Clause<Raw>>) -> Result<List<Clause<Term>>, Memory>
    ensures { IfOk result (λ cs. map clause_of cs
        ≡ map (map_clause carried_out) (map (clause_over raw_of) clauses)) }
{
    let clauses = clauses.into_vec();
    let mut carried = Vec::with_capacity(alloc, clauses.len())?;
    for clause in clauses {
        carried.push(carry_clause(alloc, clause)?)?;
    }
    Ok(List::of(carried))
}

/// The clauses of all predicates, with their swappings carried out.
fn carry_lists(
    alloc: Global,
    lists: List<List<Clause<Raw>>>,
) -> Result<List<List<Clause<Term>>>, Memory>
    ensures { IfOk result (λ css. map (map clause_of) css
        ≡ map (map (map_clause carried_out)) (map (map (clause_over raw_of)) lists)) }
{
    let lists = lists.into_vec();
    let mut carried = Vec::with_capacity(alloc, lists.len())?;
    for clauses in lists {
        carried.push(carry_clauses(alloc, clauses)?)?;
    }
    Ok(List::of(carried))
}

/// A query with its swappings carried out.
fn carry_query(alloc: Global, query: Query<Raw>) -> Result<Query<Term>, Memory>
    ensures { IfOk result (λ q. query_of q ≡ map_query carried_out (query_over raw_of query)) }
{
    let Query {
        item,
        line,
        goal,
        locals,
    } = query;
    let goal = carry_own_goal(alloc, goal)?;
    Ok(Query {
        item,
        line,
        goal,
        locals,
    })
}

/// Queries with their swappings carried out.
fn carry_queries(alloc: Global, queries: List<Query<Raw>>) -> Result<List<Query<Term>>, Memory>
    ensures { IfOk result (λ qs. map query_of qs
        ≡ map (map_query carried_out) (map (query_over raw_of) queries)) }
{
    let queries = queries.into_vec();
    let mut carried = Vec::with_capacity(alloc, queries.len())?;
    for query in queries {
        carried.push(carry_query(alloc, query)?)?;
    }
    Ok(List::of(carried))
}

/// A program with its swappings carried out.
pub fn carry_program(alloc: Global, program: Program<Raw>) -> Result<Program<Term>, Memory>
    ensures { IfOk result (λ p. program_of p ≡ carried_out_program (program_over raw_of program)) }
{
    let Program {
        signature,
        clauses,
        queries,
        words,
    } = program;
    let clauses = carry_lists(alloc, clauses)?;
    let queries = carry_queries(alloc, queries)?;
    Ok(Program {
        signature,
        clauses,
        queries,
        words,
    })
}
