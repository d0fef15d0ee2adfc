//! The query of a conclusion with terms put in.

ghost use Rattle.std.specs.Prelude.{◌≡◌, ◌++◌, [], IfOk, OnOk, map};
ghost use Rattle.ap_defs.specs.Goals as goals;
ghost use Rattle.ap_defs.specs.Goals.{NominalGoal, goal_of, query_of};
ghost use Rattle.ap_defs.specs.Renaming.{local_vars};
ghost use Rattle.ap_defs.specs.Spines.{goal_within};
ghost use Rattle.ap_defs.specs.Terms.{susp, term_of};
ghost use Rattle.ap_defs.specs.Types.{local_of, locals_of};
ghost use Rattle.ap_instance.specs.Equations.{with_equations};
ghost use Rattle.ap_instance.specs.Views.{IsStated};
ghost use Rattle.ap_property.specs.Properties.{conclusion};
ghost use Rattle.ap_property.specs.PutIn.{name_local, query_put_in};
ghost use Rattle.ap_property.specs.Stated.{Instance};

use crate::parts::{conclusion_of, copy_locals};
use crate::stating::Stated;
use ap_defs::copies::copy_term;
use ap_defs::goals::{Goal, Kind, Local, Query};
use ap_defs::lists::{List, SharedText, Swaps, Text};
use ap_defs::memory::Memory;
use ap_defs::spines::{GoalLayer, close_goal};
use ap_defs::terms::{Term, Var};
use ap_machine::renaming::vars_of_locals;
use std::alloc::Global;

/// A variable is equal to a copy of a term.
fn equation(alloc: Global, x: Var, term: &Term) -> Result<Goal<Term>, Memory>
    ensures { IfOk result (λ g. goal_of g ≡ goals.equal (susp [] x) (term_of term.now)) }
{
    let copied = copy_term(alloc, term)?;
    let swaps = Swaps::none(alloc)?;
    Ok(Goal::Equal(Term::Susp(swaps, x), copied))
}

/// Layers: each variable is equal to the term beside it, and what is inside.
#[tactic(auto, using(ap_defs::proofs::SpineLemmas::goal_within_last))]
fn equations(alloc: Global, vars: &[Var], terms: &[Term]) -> Result<Vec<GoalLayer>, Memory>
    ensures { IfOk result (λ v. (g : NominalGoal) → goal_within v.items g
        ≡ with_equations vars.now (map term_of terms.now) g) }
{
    let mut layers = Vec::new(alloc);
    let mut left = vars;
    let mut right = terms;
    'adding: while let Some((x, others)) = left.split_first() {
        let Some((term, more)) = right.split_first() else {
            return Ok(layers);
        };
        layers.push(GoalLayer::Both(equation(alloc, *x, term)?))?;
        left = others;
        right = more;
    }
    Ok(layers)
}

/// The conclusion of a goal, behind equations of the free variables among identifiers with terms.
fn put_in_goal(
    alloc: Global,
    locals: &[Local],
    terms: &[Term],
    goal: &Goal<Term>,
) -> Result<Goal<Term>, Memory>
    ensures { IfOk result (λ g. goal_of g ≡ with_equations (local_vars 0 (locals_of locals.now))
        (map term_of terms.now) (conclusion (goal_of goal.now))) }
{
    let vars = vars_of_locals(alloc, 0, locals)?;
    let layers = equations(alloc, &vars, terms)?;
    let conclusion = conclusion_of(alloc, goal)?;
    close_goal(alloc, layers, conclusion)
}

/// A free name of a sort, as an identifier without a spelling.
fn name_of_sort(alloc: Global, sort: u32) -> Result<Local, Memory>
    ensures { IfOk result (λ l. local_of l ≡ name_local sort) }
{
    Ok(Local {
        kind: Kind::Name(sort),
        bound: false,
        text: SharedText::of(alloc, Text::of(String::new(alloc)))?,
    })
}

/// Adds a free name of each sort.
fn add_names_of_sorts(alloc: Global, locals: &mut Vec<Local>, sorts: &[u32]) -> Result<(), Memory>
    ensures { OnOk result (locals_of locals.new.items
        ≡ locals_of locals.old.items ++ map name_local sorts.now) }
{
    let mut rest = sorts;
    'adding: while let [sort, others @ ..] = rest {
        locals.push(name_of_sort(alloc, *sort)?)?;
        rest = others;
    }
    Ok(())
}

/// Copies of identifiers, with a free name of each sort behind them.
fn put_in_locals(alloc: Global, locals: &[Local], sorts: &[u32]) -> Result<Vec<Local>, Memory>
    ensures { IfOk result (λ v. locals_of v.items
        ≡ locals_of locals.now ++ map name_local sorts.now) }
{
    let mut copied = copy_locals(alloc, locals)?;
    add_names_of_sorts(alloc, &mut copied, sorts)?;
    Ok(copied)
}

/// The query of a property's conclusion, in which each free variable is equal to a term: its identifiers are
/// the query's and the terms' further names.
pub fn put_in_of(alloc: Global, query: &Query<Term>, stated: &Stated) -> Result<Query<Term>, Memory>
    ensures { IfOk result (λ q. (i : Instance) → IsStated stated.now i →
        query_of q ≡ query_put_in (query_of query.now) i) }
{
    let goal = put_in_goal(alloc, query.locals.items(), &stated.terms, &query.goal)?;
    let locals = put_in_locals(alloc, query.locals.items(), &stated.sorts)?;
    Ok(Query {
        item: query.item,
        line: query.line,
        goal,
        locals: List::of(locals),
    })
}
