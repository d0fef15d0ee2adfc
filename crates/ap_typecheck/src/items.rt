//! What an item makes, or why it makes nothing.
ghost use Rattle.std.specs.Prelude.{◌≡◌, ◌≤◌, ◌<◌, None, IfErr, OnOk, length};
ghost use Rattle.ap_defs.specs.RawTerms.{raw_of};
ghost use Rattle.ap_defs.specs.Goals.{clause_over};
ghost use Rattle.ap_trees.specs.Trees.{form_of};
ghost use Rattle.ap_scopes.specs.Flaws.{item_flaw};
ghost use Rattle.ap_scopes.specs.Views.{IsSmall};
ghost use Rattle.ap_typecheck.specs.Checking.{Says, Makes};
ghost use Rattle.ap_typecheck.specs.Declaring.{with_clause_made};
ghost use Rattle.ap_typecheck.specs.Views.{AreTablesKept, IsRefusedItem, made_of};

use crate::declaring::{
    declare_constructor, declare_data_type, declare_name_type, declare_predicate,
};
use crate::error::Refusal;
use crate::spellings::Spellings;
use crate::state::State;
use crate::typing::{typed_clause, typed_query};
use ap_defs::faults::Place;
use ap_defs::goals::Clause;
use ap_defs::memory::Memory;
use ap_defs::terms::Raw;
use ap_scopes::item_flaws;
use ap_trees::Form;
use std::alloc::Global;

/// A clause is put behind the others of its predicate.
fn put_clause(state: &mut State<'_>, clause: Clause<Raw>) -> Result<(), Memory>
    requires kept { AreTablesKept state.old }
    requires declared { clause.pred < length state.old.declared.signature.predicates }
    ensures made { OnOk result (made_of state.new
        ≡ with_clause_made (clause_over raw_of clause) (made_of state.old)) }
    ensures kept { OnOk result (AreTablesKept state.new) }
{
    let pred = clause.pred as usize;
    state.clauses[pred].push(clause)?;
    Ok(())
}

/// What an item makes whose words show no fault.
fn add_item<'a>(
    alloc: Global,
    state: &mut State<'a>,
    spellings: &mut Spellings,
    place: Place,
    form: Form<'a>,
) -> Result<(), Refusal>
    requires kept { AreTablesKept state.old }
    requires small { IsSmall state.old.declared }
    requires flawless { item_flaw (made_of state.old).declared (form_of form) ≡ None }
    ensures made { OnOk result (Says (made_of state.old) place.item place.line (form_of form.entry)
        (made_of state.new)) }
    ensures kept { OnOk result (AreTablesKept state.new) }
    ensures err { IfErr result (λ e. IsRefusedItem e (made_of state.old).declared
        (form_of form.entry)) }
{
    match form {
        Form::NameType(word) => declare_name_type(alloc, state, word)?,
        Form::DataType(word) => declare_data_type(alloc, state, word)?,
        Form::Constructor(word, args, data_type) => {
            declare_constructor(alloc, state, word, args.items(), data_type)?;
        }
        Form::Predicate(word, args) => declare_predicate(alloc, state, word, args.items())?,
        Form::Clause(word, args, body) => {
            let clause = typed_clause(
                alloc,
                &state.declared,
                &state.inhabitants,
                spellings,
                place,
                word,
                args,
                body,
            )?;
            put_clause(state, clause)?;
        }
        Form::Query(goal) => {
            let query = typed_query(
                alloc,
                &state.declared,
                &state.inhabitants,
                spellings,
                place,
                goal,
            )?;
            state.queries.push(query)?;
        }
    }
    Ok(())
}

/// What an item makes, or the least kind of its faults.
pub fn check_item<'a>(
    alloc: Global,
    state: &mut State<'a>,
    spellings: &mut Spellings,
    place: Place,
    form: Form<'a>,
) -> Result<(), Refusal>
    requires kept { AreTablesKept state.old }
    requires small { IsSmall state.old.declared }
    ensures flawless { OnOk result (item_flaw (made_of state.old).declared (form_of form.entry)
        ≡ None) }
    ensures made { OnOk result (Says (made_of state.old) place.item place.line (form_of form.entry)
        (made_of state.new)) }
    ensures kept { OnOk result (AreTablesKept state.new) }
    ensures err { IfErr result (λ e. IsRefusedItem e (made_of state.old).declared
        (form_of form.entry)) }
{
    match item_flaws::item_flaw(&state.declared, &form) {
        Some(kind) => Err(Refusal::Kind(kind)),
        None => add_item(alloc, state, spellings, place, form),
    }
}
