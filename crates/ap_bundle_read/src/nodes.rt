// The nodes of a derivation, in preorder.
ghost use Rattle.std.specs.Prelude.{◌≡◌, ◌≤◌, [], length, map, IfOk};
ghost use Rattle.ap_bundle.specs.LineForms as lines;
ghost use Rattle.ap_bundle.specs.Readers as readers;
ghost use Rattle.ap_defs.specs.Terms.{term_of};
ghost use Rattle.ap_bundle.specs.Nodes as tree;
ghost use Rattle.ap_bundle.specs.Readers.{repeated};
ghost use Rattle.ap_bundle.specs.Reading as spec;
ghost use Rattle.ap_bundle_read.specs.Nodes.{bare_node, node_line_of, node_of};
ghost use Rattle.ap_bundle_read.specs.Outcomes.{Gives, place_of};
ghost use Rattle.ap_bundle_read.specs.Tables.{reader_of};

use crate::error::ReadError;
use crate::line_forms::{name_form, node_form};
use crate::place::{Place, words_at, wrong};
use crate::table::term_lines::{Terms, read_term};
use ap_bundle::faults::BundleKind;
use ap_defs::lists::List;
use ap_defs::outcomes::ClauseUse;
use ap_defs::terms::{Name, Term};
use std::alloc::{AllocError, Global};

/// A node without its children. It takes 24 bytes: what it brings stands in a box of its own, as in the
/// derivation that is made of it.
#[derive(Drop)]
pub(crate) enum Node {
    Atom(Box<ClauseUse>),
    Eq,
    Fresh,
    True,
    And,
    Left,
    Right,
    Exists(Box<Term>),
    New(Name),
}

/// A node that brings no terms.
#[derive(Clone, Copy)]
pub(crate) enum Bare {
    Eq,
    Fresh,
    True,
    And,
    Left,
    Right,
    New(Name),
}

/// What the line of a node says: the clause of an atom and how many names and terms follow, that a term
/// follows, or all.
#[derive(Clone, Copy)]
pub(crate) enum NodeLine {
    Atom(u32, u64, u64),
    Exists,
    Whole(Bare),
}

/// A node that brings no terms, as a node.
fn without_terms(node: Bare) -> Node
    ensures { node_of result ≡ bare_node node }
{
    match node {
        Bare::Eq => Node::Eq,
        Bare::Fresh => Node::Fresh,
        Bare::True => Node::True,
        Bare::And => Node::And,
        Bare::Left => Node::Left,
        Bare::Right => Node::Right,
        Bare::New(name) => Node::New(name),
    }
}

/// The name at the place.
#[tactic(auto, unfolding(ap_bundle::specs::Readers::read_form))]
fn read_name<'a>(alloc: Global, place: Place<'a>) -> Result<(Name, Place<'a>), ReadError>
    ensures { Gives (λ r. (r.0, place_of r.1)) result (spec.read_name (place_of place.entry)) }
{
    let (words, rest) = words_at(alloc, BundleKind::Term, place)?;
    let Some(name) = name_form(&words) else {
        return Err(wrong(BundleKind::Term, place));
    };
    Ok((name, rest))
}

/// Room for so many lines that are yet to be read, each of which has four bytes at least.
pub(crate) fn room_for<T>(alloc: Global, count: u64, place: Place<'_>) -> Result<Vec<T>, AllocError>
    ensures { IfOk result (λ v. v.items ≡ []) }
{
    let most = place.rest.len() / 4;
    Vec::with_capacity(alloc, count.min(most as u64) as usize)
}

/// So many names.
pub(crate) fn read_names<'a>(
    alloc: Global,
    count: u64,
    place: Place<'a>,
) -> Result<(Vec<Name>, Place<'a>), ReadError>
    ensures { Gives (λ r. (r.0.items, place_of r.1)) result
        (repeated spec.read_name count (place_of place.entry)) }
{
    let mut names = room_for(alloc, count, place)?;
    let mut place = place;
    for _ in 0..count {
        let (name, rest) = read_name(alloc, place)?;
        names.push(name)?;
        place = rest;
    }
    Ok((names, place))
}

/// So many terms.
pub(crate) fn read_terms<'a>(
    alloc: Global,
    terms: &Terms,
    count: u64,
    place: Place<'a>,
) -> Result<(Vec<Term>, Place<'a>), ReadError>
    ensures { Gives (λ r. (map term_of r.0.items, place_of r.1)) result
        (repeated (reader_of terms.now) count (place_of place.entry)) }
{
    let mut all = room_for(alloc, count, place)?;
    let mut place = place;
    for _ in 0..count {
        let (term, rest) = read_term(alloc, terms, place)?;
        all.push(term)?;
        place = rest;
    }
    Ok((all, place))
}

/// The names and terms of an atom.
#[tactic(auto, unfolding(ap_bundle::specs::Reading::read_atom))]
fn read_atom<'a>(
    alloc: Global,
    terms: &Terms,
    clause: u32,
    name_count: u64,
    term_count: u64,
    place: Place<'a>,
) -> Result<(Node, Place<'a>), ReadError>
    ensures { Gives (λ r. (node_of r.0, place_of r.1)) result
        (spec.read_atom (reader_of terms.now) clause name_count term_count (place_of place.entry)) }
{
    let (names, rest) = read_names(alloc, name_count, place)?;
    let (all, rest) = read_terms(alloc, terms, term_count, rest)?;
    let names = List::of(names);
    let terms = List::of(all);
    let used = Box::new(
        alloc,
        ClauseUse {
            clause,
            names,
            terms,
        },
    )?;
    Ok((Node::Atom(used), rest))
}

/// The term of an `exists`.
#[tactic(auto, unfolding(ap_bundle::specs::Reading::read_exists))]
fn read_exists<'a>(
    alloc: Global,
    terms: &Terms,
    place: Place<'a>,
) -> Result<(Node, Place<'a>), ReadError>
    ensures { Gives (λ r. (node_of r.0, place_of r.1)) result
        (spec.read_exists (reader_of terms.now) (place_of place.entry)) }
{
    let (term, rest) = read_term(alloc, terms, place)?;
    let term = Box::new(alloc, term)?;
    Ok((Node::Exists(term), rest))
}

/// What follows the line of a node.
fn read_behind<'a>(
    alloc: Global,
    terms: &Terms,
    line: NodeLine,
    place: Place<'a>,
) -> Result<(Node, Place<'a>), ReadError>
    ensures { Gives (λ r. (node_of r.0, place_of r.1)) result
        (spec.read_behind (reader_of terms.now) (node_line_of line) (place_of place.entry)) }
{
    match line {
        NodeLine::Atom(clause, names, all) => read_atom(alloc, terms, clause, names, all, place),
        NodeLine::Exists => read_exists(alloc, terms, place),
        NodeLine::Whole(node) => Ok((without_terms(node), place)),
    }
}

/// The line of a node.
#[tactic(auto, unfolding(ap_bundle::specs::Readers::read_form))]
pub(crate) fn read_node_line<'a>(
    alloc: Global,
    place: Place<'a>,
) -> Result<(NodeLine, Place<'a>), ReadError>
    ensures { Gives (λ r. (node_line_of r.0, place_of r.1)) result
        (readers.read_form BundleKind.Node lines.node_form (place_of place.entry)) }
{
    let (words, rest) = words_at(alloc, BundleKind::Node, place)?;
    let Some(line) = node_form(&words) else {
        return Err(wrong(BundleKind::Node, place));
    };
    Ok((line, rest))
}

/// The node at the place.
#[tactic(auto, unfolding(ap_bundle::specs::Reading::read_node))]
fn read_node<'a>(
    alloc: Global,
    terms: &Terms,
    place: Place<'a>,
) -> Result<(Node, Place<'a>), ReadError>
    ensures { Gives (λ r. (node_of r.0, place_of r.1)) result
        (spec.read_node (reader_of terms.now) (place_of place.entry)) }
{
    let (line, rest) = read_node_line(alloc, place)?;
    read_behind(alloc, terms, line, rest)
}

/// How many children a node has.
fn children(node: &Node) -> u64
    ensures value { result ≡ tree.children (node_of node.now) }
    ensures few { result ≤ 2 }
{
    match node {
        Node::Eq | Node::Fresh | Node::True => 0,
        Node::And => 2,
        Node::Atom(_) | Node::Left | Node::Right | Node::Exists(_) | Node::New(_) => 1,
    }
}

/// Nodes in preorder, until no derivation is wanted any more. Each takes a byte at least.
pub(crate) fn read_nodes<'a>(
    alloc: Global,
    terms: &Terms,
    place: Place<'a>,
) -> Result<(Vec<Node>, Place<'a>), ReadError>
    ensures { Gives (λ r. (map node_of r.0.items, place_of r.1)) result
        (spec.read_nodes (reader_of terms.now) (length place.entry.rest.now) 1
        (place_of place.entry)) }
{
    let mut all = Vec::new(alloc);
    let mut wanted = 1;
    let bound = place.rest.len();
    let mut place = place;
    for _ in 0..bound {
        if wanted == 0 {
            return Ok((all, place));
        }
        let (node, rest) = read_node(alloc, terms, place)?;
        wanted = wanted - 1 + children(&node);
        all.push(node)?;
        place = rest;
    }
    if wanted == 0 {
        Ok((all, place))
    } else {
        Err(ReadError::Wrong(BundleKind::Unended, 0))
    }
}
