// The nodes of a derivation in preorder, and the derivation, by the lines of their terms.
ghost use Rattle.std.specs.Prelude.{◌≡◌, ◌≤◌, List as list, IfOk, length, map};
ghost use Rattle.std.specs.Option.{option_map};
ghost use Rattle.ap_bundle.specs.LineForms as lines;
ghost use Rattle.ap_bundle.specs.Nodes as tree;
ghost use Rattle.ap_defs.specs.Terms.{NominalTerm};
ghost use Rattle.ap_bundle.specs.Readers.{repeated};
ghost use Rattle.ap_bundle.specs.Reading as spec;
ghost use Rattle.ap_bundle.specs.TableForms.{read_cited as cited};
ghost use Rattle.ap_bundle_read.specs.CitedNodes.{cited_node};
ghost use Rattle.ap_bundle_read.specs.Nodes.{bare_node, node_line_of};
ghost use Rattle.ap_bundle_read.specs.Outcomes.{Gives, place_of};
ghost use Rattle.ap_shared.specs.LineNodes.{node_by_lines};
ghost use Rattle.ap_shared.specs.Shared.{shared_at};
ghost use Rattle.ap_shared.specs.SharedViews.{shared_derivation, shared_terms};

use crate::error::ReadError;
use crate::nodes::{Bare, NodeLine, read_names, read_node_line, room_for};
use crate::place::{Place, wrong};
use crate::table::term_lines::read_cited;
use ap_bundle::faults::BundleKind;
use ap_defs::lists::List;
use ap_defs::memory::Memory;
use ap_shared::arena::SharedTerms;
use ap_shared::derivations::{SharedDerivation, SharedUse};
use ap_shared::nodes::{SharedNode, derivation_from};
use std::alloc::Global;

/// The lines of so many terms.
pub(crate) fn read_lines<'a>(
    alloc: Global,
    table: &SharedTerms,
    count: u64,
    place: Place<'a>,
) -> Result<(Vec<usize>, Place<'a>), ReadError>
    ensures { Gives (λ r. (map (shared_at (shared_terms table.now)) r.0.items, place_of r.1)) result
        (repeated (cited (shared_terms table.now)) count (place_of place.entry)) }
{
    let mut all = room_for(alloc, count, place)?;
    let mut place = place;
    for _ in 0..count {
        let (line, rest) = read_cited(alloc, table, place)?;
        all.push(line)?;
        place = rest;
    }
    Ok((all, place))
}

/// The names and terms of an atom.
#[tactic(auto, unfolding(ap_bundle::specs::Reading::read_atom))]
fn read_atom<'a>(
    alloc: Global,
    table: &SharedTerms,
    clause: u32,
    name_count: u64,
    term_count: u64,
    place: Place<'a>,
) -> Result<(SharedNode, Place<'a>), ReadError>
    ensures { Gives (λ r. (cited_node (shared_terms table.now) r.0, place_of r.1)) result
        (spec.read_atom (cited (shared_terms table.now)) clause name_count term_count
        (place_of place.entry)) }
{
    let (names, rest) = read_names(alloc, name_count, place)?;
    let (all, rest) = read_lines(alloc, table, term_count, rest)?;
    let names = List::of(names);
    let terms = List::of(all);
    let used = Box::new(
        alloc,
        SharedUse {
            clause,
            names,
            terms,
        },
    )?;
    Ok((SharedNode::Atom(used), rest))
}

/// The term of an `exists`.
#[tactic(auto, unfolding(ap_bundle::specs::Reading::read_exists))]
fn read_exists<'a>(
    alloc: Global,
    table: &SharedTerms,
    place: Place<'a>,
) -> Result<(SharedNode, Place<'a>), ReadError>
    ensures { Gives (λ r. (cited_node (shared_terms table.now) r.0, place_of r.1)) result
        (spec.read_exists (cited (shared_terms table.now)) (place_of place.entry)) }
{
    let (line, rest) = read_cited(alloc, table, place)?;
    Ok((SharedNode::Exists(line), rest))
}

/// A node that brings no terms, as a node by lines.
fn without_terms(alloc: Global, node: Bare) -> Result<SharedNode, Memory>
    ensures { IfOk result (λ n. node_by_lines n ≡ bare_node node) }
{
    match node {
        Bare::Eq => Ok(SharedNode::Eq),
        Bare::Fresh => Ok(SharedNode::Fresh),
        Bare::True => Ok(SharedNode::True),
        Bare::And => Ok(SharedNode::And),
        Bare::Left => Ok(SharedNode::Left),
        Bare::Right => Ok(SharedNode::Right),
        Bare::New(name) => Ok(SharedNode::New(Box::new(alloc, name)?)),
    }
}

/// A node that brings no terms, with the place behind it.
#[tactic(auto, using(crate::proofs::CitedLemmas::bare_cited))]
fn without_terms_at<'a>(
    alloc: Global,
    node: Bare,
    place: Place<'a>,
) -> Result<(SharedNode, Place<'a>), ReadError>
    ensures { (ts : list NominalTerm) → Gives (λ r. (cited_node ts r.0, place_of r.1)) result
        (spec.read_behind (cited ts) (lines.whole (bare_node node)) (place_of place.entry)) }
{
    Ok((without_terms(alloc, node)?, place))
}

/// What follows the line of a node.
fn read_behind<'a>(
    alloc: Global,
    table: &SharedTerms,
    line: NodeLine,
    place: Place<'a>,
) -> Result<(SharedNode, Place<'a>), ReadError>
    ensures { Gives (λ r. (cited_node (shared_terms table.now) r.0, place_of r.1)) result
        (spec.read_behind (cited (shared_terms table.now)) (node_line_of line) (place_of place.entry)) }
{
    match line {
        NodeLine::Atom(clause, names, all) => read_atom(alloc, table, clause, names, all, place),
        NodeLine::Exists => read_exists(alloc, table, place),
        NodeLine::Whole(node) => without_terms_at(alloc, node, place),
    }
}

/// The node at the place.
#[tactic(auto, unfolding(ap_bundle::specs::Reading::read_node))]
fn read_node<'a>(
    alloc: Global,
    table: &SharedTerms,
    place: Place<'a>,
) -> Result<(SharedNode, Place<'a>), ReadError>
    ensures { Gives (λ r. (cited_node (shared_terms table.now) r.0, place_of r.1)) result
        (spec.read_node (cited (shared_terms table.now)) (place_of place.entry)) }
{
    let (line, rest) = read_node_line(alloc, place)?;
    read_behind(alloc, table, line, rest)
}

/// How many children a node has.
fn children(node: &SharedNode) -> u64
    ensures value { result ≡ tree.children (node_by_lines node.now) }
    ensures few { result ≤ 2 }
{
    match node {
        SharedNode::Eq | SharedNode::Fresh | SharedNode::True => 0,
        SharedNode::And => 2,
        SharedNode::Atom(_)
        | SharedNode::Left
        | SharedNode::Right
        | SharedNode::Exists(_)
        | SharedNode::New(_) => 1,
    }
}

/// Nodes in preorder, until no derivation is wanted any more. Each takes a byte at least.
fn read_nodes<'a>(
    alloc: Global,
    table: &SharedTerms,
    place: Place<'a>,
) -> Result<(Vec<SharedNode>, Place<'a>), ReadError>
    ensures { Gives (λ r. (map (cited_node (shared_terms table.now)) r.0.items, place_of r.1))
        result (spec.read_nodes (cited (shared_terms table.now)) (length place.entry.rest.now) 1
        (place_of place.entry)) }
{
    let mut all = Vec::new(alloc);
    let mut wanted = 1;
    let bound = place.rest.len();
    let mut place = place;
    for _ in 0..bound {
        if wanted == 0 {
            return Ok((all, place));
        }
        let (node, rest) = read_node(alloc, table, place)?;
        wanted = wanted - 1 + children(&node);
        all.push(node)?;
        place = rest;
    }
    if wanted == 0 {
        Ok((all, place))
    } else {
        Err(ReadError::Wrong(BundleKind::Unended, 0))
    }
}

/// The derivation whose nodes begin at the place.
#[tactic(auto, unfolding(ap_bundle::specs::Reading::read_derivation))]
pub(crate) fn read_derivation<'a>(
    alloc: Global,
    table: &SharedTerms,
    place: Place<'a>,
) -> Result<(SharedDerivation, Place<'a>), ReadError>
    ensures { Gives (λ r. (shared_derivation (shared_terms table.now) r.0, place_of r.1)) result
        (spec.read_derivation (cited (shared_terms table.now)) (place_of place.entry)) }
{
    let (nodes, rest) = read_nodes(alloc, table, place)?;
    let Some(derivation) = derivation_from(alloc, nodes)? else {
        return Err(wrong(BundleKind::Node, place));
    };
    Ok((derivation, rest))
}
