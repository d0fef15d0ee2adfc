// The derivation that nodes are. Derivations wait on a stack, the last of it the first.
ghost use Rattle.std.specs.Prelude.{◌≡◌, ◌∷◌, map, IfOk};
ghost use Rattle.std.specs.Option.{option_map};
ghost use Rattle.ap_defs.specs.Derivations as derivation;
ghost use Rattle.ap_defs.specs.Derivations.{derivation_of};
ghost use Rattle.ap_defs.specs.Terms.{term_of};
ghost use Rattle.ap_bundle.specs.Forms as forms;
ghost use Rattle.ap_bundle.specs.Nodes as tree;
ghost use Rattle.ap_bundle.specs.Reading as spec;
ghost use Rattle.ap_bundle_read.specs.Nodes.{node_of};
ghost use Rattle.ap_bundle_read.specs.Outcomes.{Gives, place_of};
ghost use Rattle.ap_bundle_read.specs.Stacks.{stacked};
ghost use Rattle.ap_bundle_read.specs.Tables.{reader_of};

use crate::error::ReadError;
use crate::nodes::{Node, read_nodes};
use crate::place::{Place, wrong};
use crate::room::{give_all_back, give_back};
use crate::table::term_lines::Terms;
use ap_bundle::faults::BundleKind;
use ap_defs::memory::Memory;
use ap_defs::outcomes::{ClauseUse, Derivation};
use ap_defs::terms::{Name, Term};
use std::alloc::Global;

/// The first derivation, taken off, in a box.
fn first_in_box(
    alloc: Global,
    stack: &mut Vec<Derivation>,
) -> Result<Option<Box<Derivation>>, Memory>
    ensures { IfOk result (λ r. option_map
        (λ d. (derivation_of d.value, stacked derivation_of stack.new.items)) r
        ≡ forms.first (stacked derivation_of stack.old.items)) }
{
    match stack.pop() {
        Some(first) => Ok(Some(Box::new(alloc, first)?)),
        None => Ok(None),
    }
}

/// A node over the first derivation.
fn left_over(alloc: Global, stack: &mut Vec<Derivation>) -> Result<Option<Derivation>, Memory>
    ensures { IfOk result (λ r.
        option_map (λ d. derivation_of d ∷ stacked derivation_of stack.new.items) r
        ≡ tree.over_first derivation.left (stacked derivation_of stack.old.items)) }
{
    match first_in_box(alloc, stack)? {
        Some(child) => Ok(Some(Derivation::Left(child))),
        None => Ok(None),
    }
}

fn right_over(alloc: Global, stack: &mut Vec<Derivation>) -> Result<Option<Derivation>, Memory>
    ensures { IfOk result (λ r.
        option_map (λ d. derivation_of d ∷ stacked derivation_of stack.new.items) r
        ≡ tree.over_first derivation.right (stacked derivation_of stack.old.items)) }
{
    match first_in_box(alloc, stack)? {
        Some(child) => Ok(Some(Derivation::Right(child))),
        None => Ok(None),
    }
}

fn atom_over(
    alloc: Global,
    used: Box<ClauseUse>,
    stack: &mut Vec<Derivation>,
) -> Result<Option<Derivation>, Memory>
    ensures { IfOk result (λ r.
        option_map (λ d. derivation_of d ∷ stacked derivation_of stack.new.items) r
        ≡ tree.over_first
        (derivation.atom used.value.clause used.value.names (map term_of used.value.terms))
        (stacked derivation_of stack.old.items)) }
{
    match first_in_box(alloc, stack)? {
        Some(child) => Ok(Some(Derivation::Atom(used, child))),
        None => Ok(None),
    }
}

fn exists_over(
    alloc: Global,
    term: Box<Term>,
    stack: &mut Vec<Derivation>,
) -> Result<Option<Derivation>, Memory>
    ensures { IfOk result (λ r.
        option_map (λ d. derivation_of d ∷ stacked derivation_of stack.new.items) r
        ≡ tree.over_first (derivation.exists (term_of term.value))
        (stacked derivation_of stack.old.items)) }
{
    match first_in_box(alloc, stack)? {
        Some(child) => Ok(Some(Derivation::Exists(term, child))),
        None => Ok(None),
    }
}

fn new_over(
    alloc: Global,
    name: Name,
    stack: &mut Vec<Derivation>,
) -> Result<Option<Derivation>, Memory>
    ensures { IfOk result (λ r.
        option_map (λ d. derivation_of d ∷ stacked derivation_of stack.new.items) r
        ≡ tree.over_first (derivation.new name) (stacked derivation_of stack.old.items)) }
{
    let name = Box::new(alloc, name)?;
    match first_in_box(alloc, stack)? {
        Some(child) => Ok(Some(Derivation::New(name, child))),
        None => Ok(None),
    }
}

fn both_over(alloc: Global, stack: &mut Vec<Derivation>) -> Result<Option<Derivation>, Memory>
    ensures { IfOk result (λ r.
        option_map (λ d. derivation_of d ∷ stacked derivation_of stack.new.items) r
        ≡ tree.over_two (stacked derivation_of stack.old.items)) }
{
    let Some(left) = first_in_box(alloc, stack)? else {
        return Ok(None);
    };
    match first_in_box(alloc, stack)? {
        Some(right) => Ok(Some(Derivation::Both(left, right))),
        None => Ok(None),
    }
}

/// The derivation that a node is over those on the stack, of which it takes its children.
fn node_over(
    alloc: Global,
    node: Node,
    stack: &mut Vec<Derivation>,
) -> Result<Option<Derivation>, Memory>
    ensures { IfOk result (λ r.
        option_map (λ d. derivation_of d ∷ stacked derivation_of stack.new.items) r
        ≡ tree.node_onto (node_of node) (stacked derivation_of stack.old.items)) }
{
    match node {
        Node::Atom(used) => atom_over(alloc, used, stack),
        Node::Eq => Ok(Some(Derivation::Eq)),
        Node::Fresh => Ok(Some(Derivation::Fresh)),
        Node::True => Ok(Some(Derivation::True)),
        Node::And => both_over(alloc, stack),
        Node::Left => left_over(alloc, stack),
        Node::Right => right_over(alloc, stack),
        Node::Exists(term) => exists_over(alloc, term, stack),
        Node::New(name) => new_over(alloc, name, stack),
    }
}

/// The one derivation whose nodes these are. The room that nodes took is given back as derivations are made.
#[tactic(auto, unfolding(ap_bundle::specs::Nodes::derivation_from))]
fn derivation_from(alloc: Global, nodes: Vec<Node>) -> Result<Option<Derivation>, Memory>
    ensures { IfOk result (λ r. option_map derivation_of r
        ≡ tree.derivation_from (map node_of nodes.items)) }
{
    let mut nodes = nodes;
    let mut stack = Vec::new(alloc);
    while let Some(node) = nodes.pop() {
        match node_over(alloc, node, &mut stack)? {
            Some(whole) => stack.push(whole)?,
            None => return Ok(None),
        }
        give_all_back(&mut nodes);
        give_back(&mut stack);
    }
    if stack.len() == 1 {
        Ok(stack.pop())
    } else {
        Ok(None)
    }
}

/// The derivation whose nodes begin at the place.
#[tactic(auto, unfolding(ap_bundle::specs::Reading::read_derivation))]
pub(crate) fn read_derivation<'a>(
    alloc: Global,
    terms: &Terms,
    place: Place<'a>,
) -> Result<(Derivation, Place<'a>), ReadError>
    ensures { Gives (λ r. (derivation_of r.0, place_of r.1)) result
        (spec.read_derivation (reader_of terms.now) (place_of place.entry)) }
{
    let (nodes, rest) = read_nodes(alloc, terms, place)?;
    let Some(derivation) = derivation_from(alloc, nodes)? else {
        return Err(wrong(BundleKind::Node, place));
    };
    Ok((derivation, rest))
}
