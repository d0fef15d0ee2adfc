//! Clauses and queries with the kinds of their identifiers.
ghost use Rattle.std.specs.Prelude.{◌≡◌, IfOk, IfErr, map};
ghost use Rattle.std.specs.Option.{option_map};
ghost use Rattle.ap_defs.specs.RawTerms.{raw_of};
ghost use Rattle.ap_defs.specs.Types.{kind_of};
ghost use Rattle.ap_defs.specs.Goals.{clause_over, query_over};
ghost use Rattle.ap_trees.specs.Trees.{goal_of_tree, trees_of};
ghost use Rattle.ap_types.specs.Tables.{AreInhabitants};
ghost use Rattle.ap_kinds.specs.ItemKinds.{IsInferred};
ghost use Rattle.ap_scopes.specs.Resolution.{resolved_clause, resolved_query};
ghost use Rattle.ap_scopes.specs.Views.{declared_of, IsIndexed, IsSmall};
ghost use Rattle.ap_typecheck.specs.Checking as spec;
ghost use Rattle.ap_typecheck.specs.Checking.{IsClauseOf, IsQueryOf, TypesParts, TypesGoalParts};
ghost use Rattle.ap_typecheck.specs.Views.{IsRefusedBy, clause_parts_of, query_parts_of};

use crate::error::{Refusal, refusal_of_kinds};
use crate::locals::{classes_of, with_kinds};
use crate::spellings::Spellings;
use ap_defs::faults::Place;
use ap_defs::goals::{Clause, Goal, Kind, Query};
use ap_defs::lists::List;
use ap_defs::memory::Memory;
use ap_defs::terms::Raw;
use ap_kinds::{goal_with_sorts, kinds_of_clause, kinds_of_query, terms_with_sorts};
use ap_scopes::declarations::Declarations;
use ap_scopes::goals::predicate_number;
use ap_scopes::identifiers::{Identifier, Identifiers};
use ap_scopes::owned::{own_body, own_goal, own_terms};
use ap_trees::{GoalTree, Tree};
use ap_types::inhabitants::Inhabitants;
use std::alloc::Global;

/// A clause's head and body with numbers for their words, and the identifiers.
#[derive(Drop)]
pub struct ClauseParts<'a> {
    pub args: List<Raw>,
    pub body: Goal<Raw>,
    pub found: Vec<Identifier<'a>>,
}

/// A query's goal with numbers for its words, and the identifiers.
#[derive(Drop)]
pub struct QueryParts<'a> {
    pub goal: Goal<Raw>,
    pub found: Vec<Identifier<'a>>,
}

#[tactic(auto, using(ap_scopes::proofs::Orders::in_order_is))]
fn clause_parts<'a>(
    alloc: Global,
    declared: &Declarations<'_>,
    args: List<Tree<'a>>,
    body: Option<GoalTree<'a>>,
) -> Result<ClauseParts<'a>, Memory>
    requires indexed { IsIndexed declared.now }
    requires small { IsSmall declared.now }
    ensures { IfOk result (λ r. clause_parts_of r
        ≡ resolved_clause (declared_of declared.now) (trees_of args.entry)
        (option_map goal_of_tree body.entry)) }
{
    let mut found = Identifiers::new(alloc);
    let args = own_terms(alloc, declared, args, &mut found)?;
    let body = own_body(alloc, declared, body, &mut found)?;
    Ok(ClauseParts {
        args,
        body,
        found: found.into_found(),
    })
}

fn query_parts<'a>(
    alloc: Global,
    declared: &Declarations<'_>,
    goal: GoalTree<'a>,
) -> Result<QueryParts<'a>, Memory>
    requires indexed { IsIndexed declared.now }
    requires small { IsSmall declared.now }
    ensures { IfOk result (λ r. query_parts_of r
        ≡ resolved_query (declared_of declared.now) (goal_of_tree goal.entry)) }
{
    let mut found = Identifiers::new(alloc);
    let goal = own_goal(alloc, declared, goal, &mut found)?;
    Ok(QueryParts {
        goal,
        found: found.into_found(),
    })
}

#[tactic(auto, using(crate::proofs::Refusals::refused))]
fn clause_kinds(
    alloc: Global,
    declared: &Declarations<'_>,
    inhabitants: &Inhabitants,
    pred: u32,
    parts: &ClauseParts<'_>,
) -> Result<Vec<Kind>, Refusal>
    requires { AreInhabitants (declared_of declared.now).signature.constructors inhabitants.now }
    ensures ok { IfOk result (λ ks. IsInferred (declared_of declared.now).signature.constructors
        (TypesParts (declared_of declared.now) pred (clause_parts_of parts.now))
        (map kind_of ks.items)) }
    ensures err { IfErr result (λ e. IsRefusedBy e (declared_of declared.now) (TypesParts
        (declared_of declared.now) pred (clause_parts_of parts.now))) }
{
    let classes = classes_of(alloc, parts.found.as_slice())?;
    let signature = &declared.signature;
    match kinds_of_clause(
        alloc,
        signature,
        inhabitants,
        pred,
        &parts.args,
        &parts.body,
        classes.as_slice(),
    ) {
        Ok(kinds) => Ok(kinds),
        Err(refused) => Err(refusal_of_kinds(refused)),
    }
}

#[tactic(auto, using(crate::proofs::Refusals::refused))]
fn query_kinds(
    alloc: Global,
    declared: &Declarations<'_>,
    inhabitants: &Inhabitants,
    parts: &QueryParts<'_>,
) -> Result<Vec<Kind>, Refusal>
    requires { AreInhabitants (declared_of declared.now).signature.constructors inhabitants.now }
    ensures ok { IfOk result (λ ks. IsInferred (declared_of declared.now).signature.constructors
        (TypesGoalParts (declared_of declared.now) (query_parts_of parts.now))
        (map kind_of ks.items)) }
    ensures err { IfErr result (λ e. IsRefusedBy e (declared_of declared.now) (TypesGoalParts
        (declared_of declared.now) (query_parts_of parts.now))) }
{
    let classes = classes_of(alloc, parts.found.as_slice())?;
    match kinds_of_query(
        alloc,
        &declared.signature,
        inhabitants,
        &parts.goal,
        classes.as_slice(),
    ) {
        Ok(kinds) => Ok(kinds),
        Err(refused) => Err(refusal_of_kinds(refused)),
    }
}

fn clause_with(
    alloc: Global,
    spellings: &mut Spellings,
    place: Place,
    pred: u32,
    parts: ClauseParts<'_>,
    kinds: Vec<Kind>,
) -> Result<Clause<Raw>, Memory>
    ensures { IfOk result (λ c. clause_over raw_of c
        ≡ spec.clause_with_kinds place.item place.line pred (clause_parts_of parts.entry)
        (map kind_of kinds.items)) }
{
    let ClauseParts { args, body, found } = parts;
    Ok(Clause {
        item: place.item,
        line: place.line,
        pred,
        args: terms_with_sorts(alloc, kinds.as_slice(), args)?,
        body: goal_with_sorts(alloc, kinds.as_slice(), body)?,
        locals: with_kinds(alloc, spellings, found.as_slice(), kinds)?,
    })
}

fn query_with(
    alloc: Global,
    spellings: &mut Spellings,
    place: Place,
    parts: QueryParts<'_>,
    kinds: Vec<Kind>,
) -> Result<Query<Raw>, Memory>
    ensures { IfOk result (λ q. query_over raw_of q
        ≡ spec.query_with_kinds place.item place.line (query_parts_of parts.entry)
        (map kind_of kinds.items)) }
{
    let QueryParts { goal, found } = parts;
    Ok(Query {
        item: place.item,
        line: place.line,
        goal: goal_with_sorts(alloc, kinds.as_slice(), goal)?,
        locals: with_kinds(alloc, spellings, found.as_slice(), kinds)?,
    })
}

/// A clause of a predicate with the kinds of its identifiers. Its trees are let go before its types are inferred.
#[tactic(auto, using(crate::proofs::Refusals::clause_refused, crate::proofs::Refusals::clause_made))]
pub fn typed_clause<'a>(
    alloc: Global,
    declared: &Declarations<'_>,
    inhabitants: &Inhabitants,
    spellings: &mut Spellings,
    place: Place,
    word: &str,
    args: List<Tree<'a>>,
    body: Option<GoalTree<'a>>,
) -> Result<Clause<Raw>, Refusal>
    requires indexed { IsIndexed declared.now }
    requires small { IsSmall declared.now }
    requires inhabited { AreInhabitants (declared_of declared.now).signature.constructors
        inhabitants.now }
    ensures ok { IfOk result (λ c. IsClauseOf (declared_of declared.now) place.item place.line
        word.now (trees_of args.entry) (option_map goal_of_tree body.entry) (clause_over raw_of c)) }
    ensures err { IfErr result (λ e. IsRefusedBy e (declared_of declared.now) (spec.TypesClauseOf
        (declared_of declared.now) word.now (trees_of args.entry)
        (option_map goal_of_tree body.entry))) }
{
    let parts = clause_parts(alloc, declared, args, body)?;
    let pred = predicate_number(declared.predicate_place(word));
    match clause_kinds(alloc, declared, inhabitants, pred, &parts) {
        Err(refusal) => Err(refusal),
        Ok(kinds) => Ok(clause_with(alloc, spellings, place, pred, parts, kinds)?),
    }
}

/// A query with the kinds of its identifiers. Its tree is let go before its types are inferred.
#[tactic(auto, using(crate::proofs::Refusals::query_refused, crate::proofs::Refusals::query_made))]
pub fn typed_query<'a>(
    alloc: Global,
    declared: &Declarations<'_>,
    inhabitants: &Inhabitants,
    spellings: &mut Spellings,
    place: Place,
    goal: GoalTree<'a>,
) -> Result<Query<Raw>, Refusal>
    requires indexed { IsIndexed declared.now }
    requires small { IsSmall declared.now }
    requires inhabited { AreInhabitants (declared_of declared.now).signature.constructors
        inhabitants.now }
    ensures ok { IfOk result (λ q. IsQueryOf (declared_of declared.now) place.item place.line
        (goal_of_tree goal.entry) (query_over raw_of q)) }
    ensures err { IfErr result (λ e. IsRefusedBy e (declared_of declared.now) (spec.TypesQueryOf
        (declared_of declared.now) (goal_of_tree goal.entry))) }
{
    let parts = query_parts(alloc, declared, goal)?;
    match query_kinds(alloc, declared, inhabitants, &parts) {
        Err(refusal) => Err(refusal),
        Ok(kinds) => Ok(query_with(alloc, spellings, place, parts, kinds)?),
    }
}
