//! The uses in one derivation.

ghost use Rattle.std.specs.Prelude.{◌≡◌, ◌≤◌, ◌<◌, ◌+◌, ℕ, ◌++◌, MatchOption, None, Some, OnOk, List as list};
ghost use Rattle.ap_defs.specs.declared.terms.Name.{Name as name};
ghost use Rattle.ap_defs.specs.Derivations as nodes;
ghost use Rattle.ap_defs.specs.Derivations.{NominalDerivation, derivation_weight};
ghost use Rattle.ap_defs.specs.Goals.{Clauses, clause_of, clauses_of, goal_of, program_in};
ghost use Rattle.ap_defs.specs.GroundProofs.{clause_at as clause_numbered};
ghost use Rattle.ap_defs.specs.Terms.{NominalTerm};
ghost use Rattle.ap_shared.specs.SharedViews.{shared_derivation};
ghost use Rattle.ap_derive.specs.Uses.{uses, uses_of_clause};
ghost use Rattle.ap_derive.specs.Tables.{counts_of, with_uses};
ghost use Rattle.ap_derive.specs.Waiting.{bare_derivation, if_any, uses_of_all, uses_waiting, weight_of_all};

use crate::counting::tables::add_use;
use ap_defs::goals::{Clause, Goal};
use ap_defs::lists::List;
use ap_defs::memory::Memory;
use ap_defs::terms::Term;
use ap_shared::derivations::SharedDerivation;
use std::alloc::Global;

/// A goal that waits, with its derivation.
#[derive(Clone, Copy)]
struct Waiting<'a> {
    goal: &'a Goal<Term>,
    derivation: &'a SharedDerivation,
}

/// The clause of a predicate with this number, from 1.
fn clause_at(program: &[List<Clause<Term>>], pred: u32, number: u32) -> Option<&Clause<Term>>
    ensures { MatchOption result
        (clause_numbered (clauses_of (program_in program.now) pred) number ≡ None)
        (λ c. clause_numbered (clauses_of (program_in program.now) pred) number
        ≡ Some (clause_of c.now)) }
{
    let place = pred as usize;
    if place >= program.len() {
        return None;
    }
    let clauses = program[place].items();
    let number = number as usize;
    if number == 0 {
        return None;
    }
    if number > clauses.len() {
        return None;
    }
    Some(&clauses[number - 1])
}

/// The predicate of an atom.
fn pred_of_atom(goal: &Goal<Term>) -> Option<u32>
    ensures { (program : Clauses) (k : ℕ) (as' : list name) (ts : list NominalTerm)
        (d : NominalDerivation) → uses program (nodes.atom k as' ts d) (goal_of goal.now)
        ≡ if_any result (λ p. uses_of_clause program p k d) }
{
    match goal {
        Goal::Atom(pred, _) => Some(*pred),
        Goal::True => None,
        Goal::Equal(_, _) => None,
        Goal::Fresh(_, _) => None,
        Goal::Both(_, _) => None,
        Goal::Either(_, _) => None,
        Goal::Exists(_, _) => None,
        Goal::New(_, _) => None,
    }
}

/// The parts of a conjunction.
fn parts_of_both(goal: &Goal<Term>) -> Option<(&Goal<Term>, &Goal<Term>)>
    ensures { (program : Clauses) (d e : NominalDerivation) →
        uses program (nodes.both d e) (goal_of goal.now)
        ≡ if_any result (λ p. uses program d (goal_of p.0.now)
        ++ uses program e (goal_of p.1.now)) }
{
    match goal {
        Goal::Both(left, right) => Some((left, right)),
        Goal::True => None,
        Goal::Atom(_, _) => None,
        Goal::Equal(_, _) => None,
        Goal::Fresh(_, _) => None,
        Goal::Either(_, _) => None,
        Goal::Exists(_, _) => None,
        Goal::New(_, _) => None,
    }
}

/// The left side of a disjunction.
fn left_of_either(goal: &Goal<Term>) -> Option<&Goal<Term>>
    ensures { (program : Clauses) (d : NominalDerivation) →
        uses program (nodes.left d) (goal_of goal.now)
        ≡ if_any result (λ g. uses program d (goal_of g.now)) }
{
    match goal {
        Goal::Either(side, _) => Some(side),
        Goal::True => None,
        Goal::Atom(_, _) => None,
        Goal::Equal(_, _) => None,
        Goal::Fresh(_, _) => None,
        Goal::Both(_, _) => None,
        Goal::Exists(_, _) => None,
        Goal::New(_, _) => None,
    }
}

/// The right side of a disjunction.
fn right_of_either(goal: &Goal<Term>) -> Option<&Goal<Term>>
    ensures { (program : Clauses) (d : NominalDerivation) →
        uses program (nodes.right d) (goal_of goal.now)
        ≡ if_any result (λ g. uses program d (goal_of g.now)) }
{
    match goal {
        Goal::Either(_, side) => Some(side),
        Goal::True => None,
        Goal::Atom(_, _) => None,
        Goal::Equal(_, _) => None,
        Goal::Fresh(_, _) => None,
        Goal::Both(_, _) => None,
        Goal::Exists(_, _) => None,
        Goal::New(_, _) => None,
    }
}

/// The goal below an `exists`.
fn below_exists(goal: &Goal<Term>) -> Option<&Goal<Term>>
    ensures { (program : Clauses) (t : NominalTerm) (d : NominalDerivation) →
        uses program (nodes.exists t d) (goal_of goal.now)
        ≡ if_any result (λ g. uses program d (goal_of g.now)) }
{
    match goal {
        Goal::Exists(_, below) => Some(below),
        Goal::True => None,
        Goal::Atom(_, _) => None,
        Goal::Equal(_, _) => None,
        Goal::Fresh(_, _) => None,
        Goal::Both(_, _) => None,
        Goal::Either(_, _) => None,
        Goal::New(_, _) => None,
    }
}

/// The goal below a `new`.
fn below_new(goal: &Goal<Term>) -> Option<&Goal<Term>>
    ensures { (program : Clauses) (a : name) (d : NominalDerivation) →
        uses program (nodes.new a d) (goal_of goal.now)
        ≡ if_any result (λ g. uses program d (goal_of g.now)) }
{
    match goal {
        Goal::New(_, below) => Some(below),
        Goal::True => None,
        Goal::Atom(_, _) => None,
        Goal::Equal(_, _) => None,
        Goal::Fresh(_, _) => None,
        Goal::Both(_, _) => None,
        Goal::Either(_, _) => None,
        Goal::Exists(_, _) => None,
    }
}

/// Has a goal wait with its derivation, if there is one.
fn wait_for<'a>(
    goal: Option<&'a Goal<Term>>,
    derivation: &'a SharedDerivation,
    waiting: &mut Vec<Waiting<'a>>,
) -> Result<(), Memory>
    ensures uses { (program : Clauses) → OnOk result (uses_of_all program waiting.new.items
        ≡ if_any goal.entry (λ g. uses program (bare_derivation derivation.now) (goal_of g.now))
        ++ uses_of_all program waiting.old.items) }
    ensures weight { OnOk result (weight_of_all waiting.new.items
        ≤ derivation_weight (bare_derivation derivation.now) + weight_of_all waiting.old.items) }
{
    if let Some(goal) = goal {
        waiting.push(Waiting { goal, derivation })?;
    }
    Ok(())
}

/// Has the parts of a conjunction wait with their derivations, the left one first.
fn wait_for_both<'a>(
    goals: Option<(&'a Goal<Term>, &'a Goal<Term>)>,
    left: &'a SharedDerivation,
    right: &'a SharedDerivation,
    waiting: &mut Vec<Waiting<'a>>,
) -> Result<(), Memory>
    ensures weight { OnOk result (weight_of_all waiting.new.items
        ≤ derivation_weight (bare_derivation left.now)
        + derivation_weight (bare_derivation right.now)
        + weight_of_all waiting.old.items) }
    ensures uses { (program : Clauses) → OnOk result (uses_of_all program waiting.new.items
        ≡ if_any goals.entry (λ p. uses program (bare_derivation left.now) (goal_of p.0.now)
        ++ uses program (bare_derivation right.now) (goal_of p.1.now))
        ++ uses_of_all program waiting.old.items) }
{
    if let Some((first, second)) = goals {
        wait_for(Some(second), right, waiting)?;
        wait_for(Some(first), left, waiting)?;
    }
    Ok(())
}

/// Counts the use of a clause, and has its body wait.
fn count_clause<'a>(
    program: &'a [List<Clause<Term>>],
    pred: u32,
    number: u32,
    below: &'a SharedDerivation,
    waiting: &mut Vec<Waiting<'a>>,
    table: &mut Vec<Vec<u64>>,
) -> Result<(), Memory>
    ensures weight { OnOk result (weight_of_all waiting.new.items
        ≤ derivation_weight (bare_derivation below.now) + weight_of_all waiting.old.items) }
    ensures uses { OnOk result (
        with_uses (uses_of_all (program_in program.now) waiting.new.items) (counts_of table.new)
        ≡ with_uses (uses_of_clause (program_in program.now) pred number (bare_derivation below.now)
        ++ uses_of_all (program_in program.now) waiting.old.items) (counts_of table.old)) }
{
    add_use(table, pred, number);
    let clause = clause_at(program, pred, number);
    if let Some(clause) = clause {
        wait_for(Some(&clause.body), below, waiting)?;
    }
    Ok(())
}

/// Counts the use at a node, and has what is below it wait.
fn count_node<'a>(
    program: &'a [List<Clause<Term>>],
    node: Waiting<'a>,
    waiting: &mut Vec<Waiting<'a>>,
    table: &mut Vec<Vec<u64>>,
) -> Result<(), Memory>
    ensures weight { OnOk result (weight_of_all waiting.new.items
        < derivation_weight (bare_derivation node.entry.derivation.now)
        + weight_of_all waiting.old.items) }
    ensures uses { OnOk result (
        with_uses (uses_of_all (program_in program.now) waiting.new.items) (counts_of table.new)
        ≡ with_uses (uses_waiting (program_in program.now) node.entry
        ++ uses_of_all (program_in program.now) waiting.old.items) (counts_of table.old)) }
{
    match node.derivation {
        SharedDerivation::Eq => Ok(()),
        SharedDerivation::Fresh => Ok(()),
        SharedDerivation::True => Ok(()),
        SharedDerivation::Atom(used, below) => match pred_of_atom(node.goal) {
            Some(pred) => count_clause(program, pred, used.clause, below, waiting, table),
            None => Ok(()),
        },
        SharedDerivation::Both(left, right) => {
            wait_for_both(parts_of_both(node.goal), left, right, waiting)
        }
        SharedDerivation::Left(side) => wait_for(left_of_either(node.goal), side, waiting),
        SharedDerivation::Right(side) => wait_for(right_of_either(node.goal), side, waiting),
        SharedDerivation::Exists(_, below) => wait_for(below_exists(node.goal), below, waiting),
        SharedDerivation::New(_, below) => wait_for(below_new(node.goal), below, waiting),
    }
}

/// Adds the uses in a derivation of a goal to a table.
pub fn add_uses(
    alloc: Global,
    program: &[List<Clause<Term>>],
    goal: &Goal<Term>,
    derivation: &SharedDerivation,
    table: &mut Vec<Vec<u64>>,
) -> Result<(), Memory>
    ensures { OnOk result ((ts : list NominalTerm) → counts_of table.new ≡ with_uses (uses
        (program_in program.now) (shared_derivation ts derivation.now) (goal_of goal.now))
        (counts_of table.old)) }
{
    let mut waiting = Vec::new(alloc);
    waiting.push(Waiting { goal, derivation })?;
    'walking: while let Some(node) = waiting.pop() {
        count_node(program, node, &mut waiting, table)?;
    }
    Ok(())
}
