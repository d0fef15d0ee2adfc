//! The names and the variables of an answer with its derivation, each once, by its first occurrence.

ghost use Rattle.std.specs.Prelude.{◌≡◌, ◌<◌, ◌+◌, ◌∷◌, ◌++◌, map, IfOk, OnOk};
ghost use Rattle.ap_defs.specs.declared.terms.Cond.{Cond as condition};
ghost use Rattle.ap_defs.specs.Answers.{answer_of};
ghost use Rattle.ap_defs.specs.Derivations.{NominalDerivation, derivation_of};
ghost use Rattle.ap_defs.specs.Occurrences.{names_of_terms, vars_of_terms};
ghost use Rattle.ap_defs.specs.Terms.{term_of};
ghost use Rattle.ap_answers.specs.Occurring.{more_names, more_vars};
ghost use Rattle.ap_checks.specs.Checks.{node_count};
ghost use Rattle.ap_steps.specs.Names.{count_left, derivations_of, names_in, own_names, own_vars, subderivations, preorder_left, vars_of_proof};

use ap_answers::occurrences::{add_name, add_names, add_var, add_vars};
use ap_defs::memory::Memory;
use ap_defs::outcomes::{Answer, Derivation};
use ap_defs::terms::{Cond, Name, Term, Var};
use indexmap::IndexSet;
use std::alloc::Global;

/// Adds the names of a list.
fn add_listed(names: &mut IndexSet<Name>, more: &[Name]) -> Result<(), Memory>
    ensures { OnOk result (names.new.keys ≡ more_names names.old.keys more.now) }
{
    let mut rest = more;
    'names: while let Some((name, others)) = rest.split_first() {
        add_name(names, *name)?;
        rest = others;
    }
    Ok(())
}

/// Adds the names of terms.
fn add_names_of(alloc: Global, names: &mut IndexSet<Name>, terms: &[Term]) -> Result<(), Memory>
    ensures { OnOk result (names.new.keys
        ≡ more_names names.old.keys (names_of_terms (map term_of terms.now))) }
{
    let mut rest = terms;
    'terms: while let Some((term, others)) = rest.split_first() {
        add_names(alloc, names, term)?;
        rest = others;
    }
    Ok(())
}

/// Adds the variables of terms.
fn add_vars_of(alloc: Global, vars: &mut IndexSet<Var>, terms: &[Term]) -> Result<(), Memory>
    ensures { OnOk result (vars.new.keys
        ≡ more_vars vars.old.keys (vars_of_terms (map term_of terms.now))) }
{
    let mut rest = terms;
    'terms: while let Some((term, others)) = rest.split_first() {
        add_vars(alloc, vars, term)?;
        rest = others;
    }
    Ok(())
}

/// Adds the names of conditions.
fn add_names_in(names: &mut IndexSet<Name>, conds: &[Cond]) -> Result<(), Memory>
    ensures { OnOk result (names.new.keys
        ≡ more_names names.old.keys (map (λ (c : condition). c.name) conds.now)) }
{
    let mut rest = conds;
    'conds: while let Some((cond, others)) = rest.split_first() {
        add_name(names, cond.name)?;
        rest = others;
    }
    Ok(())
}

/// Adds the variables of conditions.
fn add_vars_in(vars: &mut IndexSet<Var>, conds: &[Cond]) -> Result<(), Memory>
    ensures { OnOk result (vars.new.keys
        ≡ more_vars vars.old.keys (map (λ (c : condition). c.var) conds.now)) }
{
    let mut rest = conds;
    'conds: while let Some((cond, others)) = rest.split_first() {
        add_var(vars, cond.var)?;
        rest = others;
    }
    Ok(())
}

/// Has a derivation wait.
#[tactic(auto, using(crate::proofs::NameLemmas::last_preorder, crate::proofs::NameLemmas::last_count))]
fn wait_for<'a>(waiting: &mut Vec<&'a Derivation>, derivation: &'a Derivation) -> Result<(), Memory>
    ensures nodes { OnOk result (preorder_left waiting.new.items
        ≡ subderivations (derivation_of derivation.now) ++ preorder_left waiting.old.items) }
    ensures count { OnOk result (count_left waiting.new.items
        ≡ node_count (derivation_of derivation.now) + count_left waiting.old.items) }
{
    waiting.push(derivation)?;
    Ok(())
}

/// Has what is below a node wait, the left part first.
fn wait_below<'a>(
    waiting: &mut Vec<&'a Derivation>,
    derivation: &'a Derivation,
) -> Result<(), Memory>
    ensures nodes { OnOk result (derivation_of derivation.now ∷ preorder_left waiting.new.items
        ≡ subderivations (derivation_of derivation.now) ++ preorder_left waiting.old.items) }
    ensures count { OnOk result (count_left waiting.new.items
        < node_count (derivation_of derivation.now) + count_left waiting.old.items) }
{
    match derivation {
        Derivation::Eq => Ok(()),
        Derivation::Fresh => Ok(()),
        Derivation::True => Ok(()),
        Derivation::Atom(_, below) => wait_for(waiting, below),
        Derivation::Both(left, right) => {
            wait_for(waiting, right)?;
            wait_for(waiting, left)
        }
        Derivation::Left(side) => wait_for(waiting, side),
        Derivation::Right(side) => wait_for(waiting, side),
        Derivation::Exists(_, below) => wait_for(waiting, below),
        Derivation::New(_, below) => wait_for(waiting, below),
    }
}

/// The nodes of a derivation, in preorder.
pub(crate) fn nodes_of(alloc: Global, derivation: &Derivation) -> Result<Vec<&Derivation>, Memory>
    ensures { IfOk result (λ nodes. derivations_of nodes.items
        ≡ subderivations (derivation_of derivation.now)) }
{
    let mut nodes = Vec::new(alloc);
    let mut waiting = Vec::new(alloc);
    waiting.push(derivation)?;
    'nodes: while let Some(next) = waiting.pop() {
        nodes.push(next)?;
        wait_below(&mut waiting, next)?;
    }
    Ok(nodes)
}

/// Adds the names of a node.
#[tactic(auto, using(ap_answers::proofs::OccurrenceLemmas::more_names_append))]
fn add_own_names(alloc: Global, names: &mut IndexSet<Name>, node: &Derivation) -> Result<(), Memory>
    ensures { OnOk result (names.new.keys
        ≡ more_names names.old.keys (own_names (derivation_of node.now))) }
{
    match node {
        Derivation::Atom(used, _) => {
            add_listed(names, used.names.items())?;
            add_names_of(alloc, names, used.terms.items())
        }
        Derivation::Exists(term, _) => add_names(alloc, names, term),
        Derivation::New(own, _) => add_name(names, **own),
        Derivation::Eq | Derivation::Fresh | Derivation::True => Ok(()),
        Derivation::Both(_, _) | Derivation::Left(_) | Derivation::Right(_) => Ok(()),
    }
}

/// Adds the variables of a node.
fn add_own_vars(alloc: Global, vars: &mut IndexSet<Var>, node: &Derivation) -> Result<(), Memory>
    ensures { OnOk result (vars.new.keys
        ≡ more_vars vars.old.keys (own_vars (derivation_of node.now))) }
{
    match node {
        Derivation::Atom(used, _) => add_vars_of(alloc, vars, used.terms.items()),
        Derivation::Exists(term, _) => add_vars(alloc, vars, term),
        Derivation::New(_, _) => Ok(()),
        Derivation::Eq | Derivation::Fresh | Derivation::True => Ok(()),
        Derivation::Both(_, _) | Derivation::Left(_) | Derivation::Right(_) => Ok(()),
    }
}

/// Adds the names of an answer with its derivation, which has these nodes.
pub(crate) fn add_all_names(
    alloc: Global,
    names: &mut IndexSet<Name>,
    answer: &Answer,
    nodes: &[&Derivation],
) -> Result<(), Memory>
    ensures { OnOk result ((d : NominalDerivation) → derivations_of nodes.now ≡ subderivations d →
        names.new.keys ≡ more_names names.old.keys (names_in (answer_of answer.now) d)) }
{
    add_names_of(alloc, names, answer.binds.items())?;
    add_names_in(names, answer.conds.items())?;
    for i in 0..nodes.len() {
        add_own_names(alloc, names, nodes[i])?;
    }
    Ok(())
}

/// Adds the variables of an answer with its derivation, which has these nodes.
pub(crate) fn add_all_vars(
    alloc: Global,
    vars: &mut IndexSet<Var>,
    answer: &Answer,
    nodes: &[&Derivation],
) -> Result<(), Memory>
    ensures { OnOk result ((d : NominalDerivation) → derivations_of nodes.now ≡ subderivations d →
        vars.new.keys ≡ more_vars vars.old.keys (vars_of_proof (answer_of answer.now) d)) }
{
    add_vars_of(alloc, vars, answer.binds.items())?;
    add_vars_in(vars, answer.conds.items())?;
    for i in 0..nodes.len() {
        add_own_vars(alloc, vars, nodes[i])?;
    }
    Ok(())
}
