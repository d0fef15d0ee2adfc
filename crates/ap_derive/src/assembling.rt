//! Derivations made of their nodes.

ghost use Rattle.std.specs.Prelude.{◌≡◌, [], IfOk, OnOk, length, map};
ghost use Rattle.ap_defs.specs.Answers.{closed_term, derivation_in};
ghost use Rattle.ap_defs.specs.Derivations.{NominalDerivation};
ghost use Rattle.ap_defs.specs.Terms.{susp};
ghost use Rattle.ap_machine.specs.Views.{state_in};
ghost use Rattle.ap_shared.specs.FirstNodes.{map_node, node_terms};
ghost use Rattle.ap_shared.specs.LineNodes.{node_by_lines};
ghost use Rattle.ap_shared.specs.Shared.{AreLinesBelow, IsGrown, shared_at};
ghost use Rattle.ap_shared.specs.SharedViews.{shared_terms};
ghost use Rattle.ap_derive.specs.Closing.{IsClosing, closing_terms};
ghost use Rattle.ap_derive.specs.Derived.{derived};
ghost use Rattle.ap_derive.specs.Nodes.{closed_node, nodes_before, selected_node};

use crate::closing::{Closing, close_each, close_var};
use crate::nodes::SelectedGoal;
use ap_defs::lists::List;
use ap_defs::memory::Memory;
use ap_defs::terms::{Name, Var};
use ap_shared::arena::SharedTerms;
use ap_shared::derivations::{SharedDerivation, SharedUse};
use ap_shared::nodes::{SharedNode, whole_derivation};
use ap_store::store::Store;
use std::alloc::Global;

/// A derivation with the table of its terms.
#[derive(Drop)]
pub struct Derived {
    pub terms: SharedTerms,
    pub derivation: SharedDerivation,
}

/// How an atom used a clause, with the lines of what the clause's variables stand for.
fn close_use(
    alloc: Global,
    store: &Store<'_>,
    closing: &mut Closing,
    clause: u32,
    names: &[Name],
    vars: &[Var],
) -> Result<SharedUse, Memory>
    requires { IsClosing store.now closing.old }
    ensures closing { OnOk result (IsClosing store.now closing.new) }
    ensures grown { OnOk result (IsGrown (closing_terms closing.old) (closing_terms closing.new)) }
    ensures below { IfOk result (λ u.
        AreLinesBelow (length (closing_terms closing.new)) u.terms) }
    ensures clause { IfOk result (λ u. u.clause ≡ clause) }
    ensures names { IfOk result (λ u. u.names ≡ names.now) }
    ensures terms { IfOk result (λ u. map (shared_at (closing_terms closing.new)) u.terms
        ≡ map (closed_term (state_in store.now)) (map (susp []) vars.now)) }
{
    let names = List::of(names.to_vec(alloc)?);
    let terms = List::of(close_each(alloc, store, closing, vars)?);
    Ok(SharedUse {
        clause,
        names,
        terms,
    })
}

/// The node of a goal that was selected, with the lines of what its variables stand for.
fn close_node(
    alloc: Global,
    store: &Store<'_>,
    closing: &mut Closing,
    node: &SelectedGoal,
) -> Result<SharedNode, Memory>
    requires { IsClosing store.now closing.old }
    ensures closing { OnOk result (IsClosing store.now closing.new) }
    ensures grown { OnOk result (IsGrown (closing_terms closing.old) (closing_terms closing.new)) }
    ensures below { IfOk result (λ n. AreLinesBelow (length (closing_terms closing.new))
        (node_terms (node_by_lines n))) }
    ensures node { IfOk result (λ n.
        map_node (shared_at (closing_terms closing.new)) (node_by_lines n)
        ≡ closed_node (state_in store.now) (selected_node node.now)) }
{
    match node {
        SelectedGoal::Atom(clause, names, vars) => {
            let used = close_use(alloc, store, closing, *clause, names.items(), vars.items())?;
            let boxed = Box::new(alloc, used)?;
            Ok(SharedNode::Atom(boxed))
        }
        SelectedGoal::Equal => Ok(SharedNode::Eq),
        SelectedGoal::Fresh => Ok(SharedNode::Fresh),
        SelectedGoal::True => Ok(SharedNode::True),
        SelectedGoal::Both => Ok(SharedNode::And),
        SelectedGoal::Left => Ok(SharedNode::Left),
        SelectedGoal::Right => Ok(SharedNode::Right),
        SelectedGoal::Exists(x) => {
            let line = close_var(alloc, store, closing, *x)?;
            Ok(SharedNode::Exists(line))
        }
        SelectedGoal::New(name) => {
            let boxed = Box::new(alloc, *name)?;
            Ok(SharedNode::New(boxed))
        }
    }
}

/// The nodes of goals that were selected, in order.
fn close_nodes(
    alloc: Global,
    store: &Store<'_>,
    closing: &mut Closing,
    nodes: &[SelectedGoal],
) -> Result<Vec<SharedNode>, Memory>
    requires { IsClosing store.now closing.old }
    ensures grown { OnOk result (IsGrown (closing_terms closing.old) (closing_terms closing.new)) }
    ensures nodes { IfOk result (λ ns. map (map_node (shared_at (closing_terms closing.new)))
        (map node_by_lines ns.items)
        ≡ map (closed_node (state_in store.now)) (map selected_node nodes.now)) }
{
    let mut closed = Vec::new(alloc);
    for node in nodes {
        let shared = close_node(alloc, store, closing, node)?;
        closed.push(shared)?;
    }
    Ok(closed)
}

/// The derivation whose nodes these are, in preorder, with what its variables stand for entered in a table.
pub fn assemble(
    alloc: Global,
    store: &Store<'_>,
    terms: SharedTerms,
    nodes: Vec<SelectedGoal>,
) -> Result<Derived, Memory>
    requires { (d : NominalDerivation) × (map selected_node nodes.items ≡ nodes_before d []) }
    ensures grown { IfOk result (λ r. IsGrown (shared_terms terms) (shared_terms r.terms)) }
    ensures derivation { IfOk result (λ r. (d : NominalDerivation) →
        map selected_node nodes.items ≡ nodes_before d [] →
        derived r ≡ derivation_in (state_in store.now) d) }
{
    let lines = Vec::from_elem(alloc, None, store.next() as usize)?;
    let mut closing = Closing { terms, lines };
    let nodes = close_nodes(alloc, store, &mut closing, &nodes)?;
    let derivation = whole_derivation(alloc, nodes)?;
    let Closing {
        terms,
        lines: _lines,
    } = closing;
    Ok(Derived { terms, derivation })
}
