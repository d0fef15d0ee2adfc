//! The fault of one clause or query.

ghost use Rattle.std.specs.Prelude.{◌≡◌, ◌++◌, List, map, IfOk};
ghost use Rattle.ap_defs.specs.RawTerms.{raw_of};
ghost use Rattle.ap_defs.specs.Types.{NominalConstructor, locals_of, signature_of};
ghost use Rattle.ap_defs.specs.Goals.{clause_over, query_over};
ghost use Rattle.ap_defs.specs.Renaming.{local_names};
ghost use Rattle.ap_program.specs.CarryingOut.{carried_out, map_clause};
ghost use Rattle.ap_program.specs.NameRestriction.{RawItem, clause as clause_item, query as query_item, item_terms, in_each, spelling_at};
ghost use Rattle.ap_restrict.specs.Places.{first_var, variables_at};
ghost use Rattle.ap_restrict.specs.Heads.{AreTables, IsFirstUnfresh};
ghost use Rattle.ap_restrict.specs.Scans.{IsMisplaced, IsVerdict};

use crate::carrying::{carry_goal, carry_terms};
use crate::heads::{Head, Setting, count_free_names, first_not_fresh};
use crate::places::{NamePlace, first_in_goal, first_in_terms};
use ap_defs::faults::{NameFault, NameKind, Place};
use ap_defs::goals::{Clause, Local, Query, Signature};
use ap_defs::lists::Text;
use ap_defs::memory::Memory;
use ap_defs::terms::{Name, Raw, Var};
use std::alloc::Global;

/// How the identifier with this number is spelled.
#[tactic(auto, using(crate::proofs::ItemLemmas::spelled_past, crate::proofs::ItemLemmas::spelled_there))]
fn spelling(alloc: Global, locals: &[Local], num: u64) -> Result<Text, Memory>
    ensures { IfOk result (λ t. t ≡ spelling_at (locals_of locals.now) num) }
{
    let place = num as usize;
    if place >= locals.len() {
        return Ok(Text::of(String::new(alloc)));
    }
    locals[place].text.text().copy(alloc)
}

/// Where an item stands, and its identifiers.
#[derive(Drop)]
struct Position<'a> {
    place: Place,
    locals: &'a [Local],
}

/// The fault of an item, by the identifier with this number.
fn fault(
    alloc: Global,
    position: &Position<'_>,
    kind: NameKind,
    num: u64,
) -> Result<NameFault, Memory>
    ensures place { IfOk result (λ f. f.place ≡ position.now.place) }
    ensures kind { IfOk result (λ f. f.kind ≡ kind) }
    ensures name { IfOk result (λ f. f.name ≡ spelling_at (locals_of position.now.locals.now) num) }
{
    let name = spelling(alloc, position.locals, num)?;
    Ok(NameFault {
        place: position.place,
        kind,
        name,
    })
}

/// The first variable at such a place of a clause.
#[tactic(auto, using(crate::proofs::PlaceLemmas::first_append, crate::proofs::PlaceLemmas::in_each_append))]
fn first_in_clause(place: NamePlace, clause: &Clause<Raw>) -> Option<Var>
    ensures { result
        ≡ first_var (in_each (variables_at place) (item_terms (clause_item
        (clause_over raw_of clause.now)))) }
{
    match first_in_terms(place, clause.args.items()) {
        Some(x) => Some(x),
        None => first_in_goal(place, &clause.body),
    }
}

/// What is wrong with a clause's variables, by a search for binders and one for swappings.
#[tactic(auto, using(crate::proofs::ItemLemmas::names_alone, crate::proofs::ItemLemmas::binder_is, crate::proofs::ItemLemmas::swap_is))]
fn wrong_in_clause(clause: &Clause<Raw>) -> Option<(NameKind, Var)>
    ensures { (cs : List NominalConstructor) →
        IsMisplaced cs (clause_item (clause_over raw_of clause.now)) result }
{
    match first_in_clause(NamePlace::Binder, clause) {
        Some(x) => Some((NameKind::VariableBinder, x)),
        None => match first_in_clause(NamePlace::Swap, clause) {
            Some(y) => Some((NameKind::VariableSwap, y)),
            None => None,
        },
    }
}

/// What is wrong with a clause's variables, if one stands where a name belongs. One walk tells that none does.
fn misplaced_in_clause(clause: &Clause<Raw>) -> Option<(NameKind, Var)>
    ensures { (cs : List NominalConstructor) →
        IsMisplaced cs (clause_item (clause_over raw_of clause.now)) result }
{
    match first_in_clause(NamePlace::Any, clause) {
        None => None,
        Some(_) => wrong_in_clause(clause),
    }
}

/// What is wrong with a query's variables, by a search for binders and one for swappings.
#[tactic(auto, using(crate::proofs::ItemLemmas::names_alone, crate::proofs::ItemLemmas::binder_is, crate::proofs::ItemLemmas::swap_is))]
fn wrong_in_query(query: &Query<Raw>) -> Option<(NameKind, Var)>
    ensures { (cs : List NominalConstructor) →
        IsMisplaced cs (query_item (query_over raw_of query.now)) result }
{
    match first_in_goal(NamePlace::Binder, &query.goal) {
        Some(x) => Some((NameKind::VariableBinder, x)),
        None => match first_in_goal(NamePlace::Swap, &query.goal) {
            Some(y) => Some((NameKind::VariableSwap, y)),
            None => None,
        },
    }
}

/// What is wrong with a query's variables, likewise.
fn misplaced_in_query(query: &Query<Raw>) -> Option<(NameKind, Var)>
    ensures { (cs : List NominalConstructor) →
        IsMisplaced cs (query_item (query_over raw_of query.now)) result }
{
    match first_in_goal(NamePlace::Any, &query.goal) {
        None => None,
        Some(_) => wrong_in_query(query),
    }
}

/// The first free name of a clause that is not fresh for its head, once swappings are carried out. Where
/// no name is free, nothing needs to be carried out.
fn head_name(
    alloc: Global,
    setting: &Setting<'_>,
    clause: &Clause<Raw>,
) -> Result<Option<Name>, Memory>
    requires { AreTables (signature_of setting.now.sig.now).constructors setting.now.tables.now }
    ensures { IfOk result (λ o. IsFirstUnfresh (signature_of setting.now.sig.now).constructors
        (map_clause carried_out (clause_over raw_of clause.now)) (local_names 0
        (locals_of clause.now.locals)) o) }
{
    if count_free_names(clause.locals.items()) == 0 {
        return Ok(None);
    }
    let args = carry_terms(alloc, clause.args.items())?;
    let body = carry_goal(alloc, &clause.body)?;
    let head = Head {
        args: args.items(),
        body: &body,
        locals: clause.locals.items(),
    };
    first_not_fresh(alloc, setting, &head)
}

/// The fault of a clause.
pub fn clause_fault(
    alloc: Global,
    setting: &Setting<'_>,
    clause: &Clause<Raw>,
) -> Result<Option<NameFault>, Memory>
    requires { AreTables (signature_of setting.now.sig.now).constructors setting.now.tables.now }
    ensures { IfOk result (IsVerdict (signature_of setting.now.sig.now).constructors (clause_item
        (clause_over raw_of clause.now))) }
{
    let position = Position {
        place: Place {
            item: clause.item,
            line: clause.line,
        },
        locals: clause.locals.items(),
    };
    if let Some((kind, x)) = misplaced_in_clause(clause) {
        return Ok(Some(fault(alloc, &position, kind, x.num)?));
    }
    match head_name(alloc, setting, clause)? {
        Some(a) => Ok(Some(fault(alloc, &position, NameKind::HeadName, a.num)?)),
        None => Ok(None),
    }
}

/// The fault of a query.
pub fn query_fault(
    alloc: Global,
    sig: &Signature,
    query: &Query<Raw>,
) -> Result<Option<NameFault>, Memory>
    ensures { IfOk result (IsVerdict (signature_of sig.now).constructors (query_item
        (query_over raw_of query.now))) }
{
    let position = Position {
        place: Place {
            item: query.item,
            line: query.line,
        },
        locals: query.locals.items(),
    };
    if let Some((kind, x)) = misplaced_in_query(query) {
        return Ok(Some(fault(alloc, &position, kind, x.num)?));
    }
    Ok(None)
}
