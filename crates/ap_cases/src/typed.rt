//! Typed programs: the clauses and queries with their identifiers.

use crate::raws::{put_kind, put_raw_goal, put_raws};
use crate::reading::{items_of, tokens_of};
use crate::spelling::Spelling;
use ap_defs::goals::{Clause, Local, Program, Query};
use ap_defs::limits::SIZE_LIMIT;
use ap_defs::terms::Raw;
use ap_syntax::SynError;
use ap_trees::Item;
use ap_typecheck::TypeError;
use ap_whole::check;

/// Identifiers with their kinds.
fn put_locals(out: &mut Spelling, locals: &[Local]) {
    for local in locals {
        out.put(" ");
        out.put(local.text.as_str());
        out.put(":");
        put_kind(out, &local.kind);
        out.put(if local.bound { ":true" } else { ":false" });
    }
    out.put(";");
}

fn put_clause(out: &mut Spelling, clause: &Clause<Raw>) {
    put_raws(out, &clause.args);
    out.put(" ");
    put_raw_goal(out, &clause.body);
    put_locals(out, clause.locals.items());
}

fn put_query(out: &mut Spelling, query: &Query<Raw>) {
    put_raw_goal(out, &query.goal);
    put_locals(out, query.locals.items());
}

fn put_clauses(out: &mut Spelling, program: &Program<Raw>) {
    for clauses in program.clauses.items() {
        for clause in clauses.items() {
            put_clause(out, clause);
        }
    }
}

fn put_program(out: &mut Spelling, program: &Program<Raw>) {
    put_clauses(out, program);
    for query in program.queries.items() {
        put_query(out, query);
    }
}

/// The clauses and queries of items that are well typed.
fn put_typed_items(out: &mut Spelling, items: Vec<Item<'_>>) {
    if items.len() > SIZE_LIMIT {
        out.lose();
        return;
    }
    match check(out.alloc(), items) {
        Ok(program) => put_program(out, &program),
        Err(TypeError::Fault(_)) => out.put("ill typed"),
        Err(TypeError::Memory) => out.lose(),
    }
}

/// The clauses and queries of a text that is well typed.
pub fn put_typed(out: &mut Spelling, text: &str) -> Result<(), SynError> {
    let tokens = tokens_of(out.alloc(), text.as_bytes())?;
    let items = items_of(out.alloc(), &tokens)?;
    put_typed_items(out, items);
    Ok(())
}
