// The derivation that nodes are. Derivations wait on a stack, the last of it the first.
ghost use Rattle.std.specs.Prelude.{◌≡◌, ◌∷◌, List as list, map, IfOk};
ghost use Rattle.std.specs.Option.{option_map};
ghost use Rattle.ap_defs.specs.Derivations as derivation;
ghost use Rattle.ap_defs.specs.Derivations.{NominalDerivation};
ghost use Rattle.ap_defs.specs.Terms.{NominalTerm};
ghost use Rattle.ap_bundle.specs.Forms as forms;
ghost use Rattle.ap_bundle.specs.Nodes as tree;
ghost use Rattle.ap_shared.specs.Expanding.{stacked};
ghost use Rattle.ap_shared.specs.LineDerivations.{derivation_lines};
ghost use Rattle.ap_shared.specs.LineNodes.{node_by_lines};
ghost use Rattle.ap_shared.specs.FirstNodes.{map_node};
ghost use Rattle.ap_shared.specs.Shared.{shared_at};
ghost use Rattle.ap_shared.specs.SharedViews.{shared_derivation};

use crate::derivations::{SharedDerivation, SharedUse};
use ap_defs::memory::Memory;
use ap_defs::terms::Name;
use std::alloc::Global;

/// A node without its children.
#[derive(Drop)]
pub enum SharedNode {
    Atom(Box<SharedUse>),
    Eq,
    Fresh,
    True,
    And,
    Left,
    Right,
    Exists(usize),
    New(Box<Name>),
}

/// The first derivation, taken off, in a box.
fn first_in_box(
    alloc: Global,
    stack: &mut Vec<SharedDerivation>,
) -> Result<Option<Box<SharedDerivation>>, Memory>
    ensures { IfOk result (λ r. option_map
        (λ d. (derivation_lines d.value, stacked derivation_lines stack.new.items)) r
        ≡ forms.first (stacked derivation_lines stack.old.items)) }
{
    match stack.pop() {
        Some(first) => Ok(Some(Box::new(alloc, first)?)),
        None => Ok(None),
    }
}

/// A node over the first derivation.
fn left_over(
    alloc: Global,
    stack: &mut Vec<SharedDerivation>,
) -> Result<Option<SharedDerivation>, Memory>
    ensures { IfOk result (λ r.
        option_map (λ d. derivation_lines d ∷ stacked derivation_lines stack.new.items) r
        ≡ tree.over_first derivation.left (stacked derivation_lines stack.old.items)) }
{
    match first_in_box(alloc, stack)? {
        Some(child) => Ok(Some(SharedDerivation::Left(child))),
        None => Ok(None),
    }
}

fn right_over(
    alloc: Global,
    stack: &mut Vec<SharedDerivation>,
) -> Result<Option<SharedDerivation>, Memory>
    ensures { IfOk result (λ r.
        option_map (λ d. derivation_lines d ∷ stacked derivation_lines stack.new.items) r
        ≡ tree.over_first derivation.right (stacked derivation_lines stack.old.items)) }
{
    match first_in_box(alloc, stack)? {
        Some(child) => Ok(Some(SharedDerivation::Right(child))),
        None => Ok(None),
    }
}

fn atom_over(
    alloc: Global,
    used: Box<SharedUse>,
    stack: &mut Vec<SharedDerivation>,
) -> Result<Option<SharedDerivation>, Memory>
    ensures { IfOk result (λ r.
        option_map (λ d. derivation_lines d ∷ stacked derivation_lines stack.new.items) r
        ≡ tree.over_first
        (derivation.atom used.value.clause used.value.names used.value.terms)
        (stacked derivation_lines stack.old.items)) }
{
    match first_in_box(alloc, stack)? {
        Some(child) => Ok(Some(SharedDerivation::Atom(used, child))),
        None => Ok(None),
    }
}

fn exists_over(
    alloc: Global,
    line: usize,
    stack: &mut Vec<SharedDerivation>,
) -> Result<Option<SharedDerivation>, Memory>
    ensures { IfOk result (λ r.
        option_map (λ d. derivation_lines d ∷ stacked derivation_lines stack.new.items) r
        ≡ tree.over_first (derivation.exists line) (stacked derivation_lines stack.old.items)) }
{
    match first_in_box(alloc, stack)? {
        Some(child) => Ok(Some(SharedDerivation::Exists(line, child))),
        None => Ok(None),
    }
}

fn new_over(
    alloc: Global,
    name: Box<Name>,
    stack: &mut Vec<SharedDerivation>,
) -> Result<Option<SharedDerivation>, Memory>
    ensures { IfOk result (λ r.
        option_map (λ d. derivation_lines d ∷ stacked derivation_lines stack.new.items) r
        ≡ tree.over_first (derivation.new name.value) (stacked derivation_lines stack.old.items)) }
{
    match first_in_box(alloc, stack)? {
        Some(child) => Ok(Some(SharedDerivation::New(name, child))),
        None => Ok(None),
    }
}

fn both_over(
    alloc: Global,
    stack: &mut Vec<SharedDerivation>,
) -> Result<Option<SharedDerivation>, Memory>
    ensures { IfOk result (λ r.
        option_map (λ d. derivation_lines d ∷ stacked derivation_lines stack.new.items) r
        ≡ tree.over_two (stacked derivation_lines stack.old.items)) }
{
    let Some(left) = first_in_box(alloc, stack)? else {
        return Ok(None);
    };
    match first_in_box(alloc, stack)? {
        Some(right) => Ok(Some(SharedDerivation::Both(left, right))),
        None => Ok(None),
    }
}

/// The derivation that a node is over those on the stack, of which it takes its children.
fn node_over(
    alloc: Global,
    node: SharedNode,
    stack: &mut Vec<SharedDerivation>,
) -> Result<Option<SharedDerivation>, Memory>
    ensures { IfOk result (λ r.
        option_map (λ d. derivation_lines d ∷ stacked derivation_lines stack.new.items) r
        ≡ tree.node_onto (node_by_lines node) (stacked derivation_lines stack.old.items)) }
{
    match node {
        SharedNode::Atom(used) => atom_over(alloc, used, stack),
        SharedNode::Eq => Ok(Some(SharedDerivation::Eq)),
        SharedNode::Fresh => Ok(Some(SharedDerivation::Fresh)),
        SharedNode::True => Ok(Some(SharedDerivation::True)),
        SharedNode::And => both_over(alloc, stack),
        SharedNode::Left => left_over(alloc, stack),
        SharedNode::Right => right_over(alloc, stack),
        SharedNode::Exists(line) => exists_over(alloc, line, stack),
        SharedNode::New(name) => new_over(alloc, name, stack),
    }
}

/// The one derivation whose nodes these are.
#[tactic(auto, unfolding(ap_bundle::specs::Nodes::derivation_from))]
pub fn derivation_from(
    alloc: Global,
    nodes: Vec<SharedNode>,
) -> Result<Option<SharedDerivation>, Memory>
    ensures { IfOk result (λ r. option_map derivation_lines r
        ≡ tree.derivation_from (map node_by_lines nodes.items)) }
{
    let mut nodes = nodes;
    let mut stack = Vec::new(alloc);
    while let Some(node) = nodes.pop() {
        match node_over(alloc, node, &mut stack)? {
            Some(whole) => stack.push(whole)?,
            None => return Ok(None),
        }
    }
    if stack.len() == 1 {
        Ok(stack.pop())
    } else {
        Ok(None)
    }
}

/// The derivation whose nodes these are, where over the terms of some table they are those of one.
pub fn whole_derivation(alloc: Global, nodes: Vec<SharedNode>) -> Result<SharedDerivation, Memory>
    requires { (ts : list NominalTerm) × (d : NominalDerivation) ×
        (map (map_node (shared_at ts)) (map node_by_lines nodes.items) ≡ tree.preorder d) }
    ensures { IfOk result (λ r. (ts : list NominalTerm) (d : NominalDerivation) →
        map (map_node (shared_at ts)) (map node_by_lines nodes.items) ≡ tree.preorder d →
        shared_derivation ts r ≡ d) }
{
    let Some(derivation) = derivation_from(alloc, nodes)? else {
        unreachable!();
    };
    Ok(derivation)
}
