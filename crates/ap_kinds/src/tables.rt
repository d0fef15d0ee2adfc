//! The types of the first holes, read off the table of a system. Each place of it is read once, behind its parts.

ghost use Rattle.std.specs.Prelude.{◌≡◌, ◌<◌, ℕ, length, min, IfOk, IfSome};
ghost use Rattle.ap_types.specs.Solving.{shape_at};
ghost use Rattle.ap_types.specs.Triangular.{shapes_of_nodes, value_of, assignment_of, IsSettledTable};
ghost use Rattle.ap_types.specs.Walking.{IsPart, AreInOrder};
ghost use Rattle.ap_kinds.specs.ReadTypes.{IsReadBy, AreReadAt, AreAllRead, AreFirstRead, read_at};

use crate::read_types::{
    Declared, TypeRead, copy_read, read_abs, read_base, read_list, read_names, read_open,
    read_pair, read_unit,
};
use ap_defs::memory::Memory;
use ap_defs::terms::Ty;
use ap_types::entries::entry_at;
use ap_types::nodes::Node;
use ap_types::solved::Solved;
use std::alloc::Global;
use std::sync::Arc;

/// What is read off a place without parts.
fn read_plain(by: Declared<'_>, nodes: &[Node], x: usize) -> Option<TypeRead>
    requires { IsSettledTable (shapes_of_nodes nodes.now) }
    ensures { IfSome result (λ r. IsReadBy by.entry (value_of (shapes_of_nodes nodes.now) x) r) }
{
    match entry_at(nodes, x) {
        Node::Place(_) => Some(read_open()),
        Node::Unit => Some(read_unit()),
        Node::Names(sort) => Some(read_names(by, sort)),
        Node::Base(base) => Some(read_base(by, base)),
        Node::Pair(_, _) | Node::List(_) | Node::Abs(_, _) => None,
    }
}

/// What is read off a hole that has no parts.
fn read_plain_hole(by: Declared<'_>, table: &Solved, x: usize) -> Option<TypeRead>
    requires { IsSettledTable (shapes_of_nodes table.now.nodes.items) }
    ensures { IfSome result (λ r. IsReadBy by.entry (shape_at (assignment_of table.now) x) r) }
{
    if x >= table.holes {
        return Some(read_open());
    }
    read_plain(by, table.nodes.as_slice(), x)
}

/// What is read off the first holes, where none has parts.
fn read_plain_holes(
    alloc: Global,
    by: Declared<'_>,
    table: &Solved,
    count: usize,
) -> Result<Option<Vec<TypeRead>>, Memory>
    requires { IsSettledTable (shapes_of_nodes table.now.nodes.items) }
    ensures { IfOk result (λ o. IfSome o (λ v.
        AreFirstRead by.entry count (assignment_of table.now) v.items)) }
{
    let mut reads = Vec::with_capacity(alloc, count)?;
    for x in 0..count {
        let Some(read) = read_plain_hole(by, table, x) else {
            return Ok(None);
        };
        reads.push(read)?;
    }
    Ok(Some(reads))
}

/// What was read off a place.
fn read_of_place<'a>(reads: &'a [TypeRead], x: usize) -> &'a TypeRead
    requires { x < length reads.now }
    ensures { result.now ≡ read_at reads.now x }
{
    &reads[x]
}

/// What is read off a place whose parts were read. `last` is the data type that was the last to be a part.
fn read_place(
    alloc: Global,
    by: Declared<'_>,
    last: &mut Option<Arc<Ty>>,
    nodes: &[Node],
    reads: &[TypeRead],
    x: usize,
) -> Result<TypeRead, Memory>
    requires settled { IsSettledTable (shapes_of_nodes nodes.now) }
    requires within { x < length nodes.now }
    requires parts { AreReadAt by (shapes_of_nodes nodes.now) reads.now
        (IsPart (shapes_of_nodes nodes.now) x) }
    ensures { IfOk result (λ r. IsReadBy by.entry (value_of (shapes_of_nodes nodes.now) x) r) }
{
    match nodes[x] {
        Node::Place(y) => {
            if y == x {
                return Ok(read_open());
            }
            let part = read_of_place(reads, y);
            copy_read(part)
        }
        Node::Unit => Ok(read_unit()),
        Node::Names(sort) => Ok(read_names(by, sort)),
        Node::Base(base) => Ok(read_base(by, base)),
        Node::Pair(y, z) => {
            let first = read_of_place(reads, y);
            let second = read_of_place(reads, z);
            read_pair(alloc, last, first, second)
        }
        Node::List(y) => {
            let element = read_of_place(reads, y);
            read_list(alloc, last, element)
        }
        Node::Abs(y, z) => {
            let left = read_of_place(reads, y);
            let body = read_of_place(reads, z);
            read_abs(alloc, last, left, body)
        }
    }
}

/// So many places of which nothing is read yet.
fn unread(alloc: Global, count: usize) -> Result<Vec<TypeRead>, Memory>
    ensures { IfOk result (λ v. length v.items ≡ count) }
{
    let mut reads = Vec::with_capacity(alloc, count)?;
    for _ in 0..count {
        reads.push(read_open())?;
    }
    Ok(reads)
}

/// What is read off all places.
fn read_places(
    alloc: Global,
    by: Declared<'_>,
    nodes: &[Node],
    order: &[u32],
) -> Result<Vec<TypeRead>, Memory>
    requires settled { IsSettledTable (shapes_of_nodes nodes.now) }
    requires order { AreInOrder (shapes_of_nodes nodes.now) order.now }
    ensures { IfOk result (λ v. AreAllRead by.entry (shapes_of_nodes nodes.now) v.items) }
{
    let mut reads = unread(alloc, nodes.len())?;
    let mut last = None;
    for i in 0..order.len() {
        let x = order[i] as usize;
        let read = read_place(alloc, by, &mut last, nodes, reads.as_slice(), x)?;
        reads[x] = read;
    }
    Ok(reads)
}

/// The lesser of two numbers.
fn lesser(a: usize, b: usize) -> usize
    ensures { result ≡ min a b }
{
    if a < b { a } else { b }
}

/// What is read off the first holes, by what was read off all places, of which they are the first.
fn first_reads(table: &Solved, all: Vec<TypeRead>, count: usize) -> Result<Vec<TypeRead>, Memory>
    ensures { IfOk result (λ v. (by : Declared) →
        AreAllRead by (shapes_of_nodes table.now.nodes.items) all.items →
        AreFirstRead by count (assignment_of table.now) v.items) }
{
    let kept = lesser(table.holes, count);
    let mut reads = all;
    reads.truncate(kept);
    'rest: while reads.len() < count {
        reads.push(read_open())?;
    }
    Ok(reads)
}

/// What is read off the first holes.
pub(crate) fn read_holes(
    alloc: Global,
    by: Declared<'_>,
    table: &Solved,
    count: usize,
) -> Result<Vec<TypeRead>, Memory>
    requires settled { IsSettledTable (shapes_of_nodes table.now.nodes.items) }
    requires order { AreInOrder (shapes_of_nodes table.now.nodes.items) table.now.order.items }
    ensures { IfOk result (λ v. AreFirstRead by.entry count (assignment_of table.now) v.items) }
{
    if let Some(reads) = read_plain_holes(alloc, by, table, count)? {
        return Ok(reads);
    }
    let all = read_places(alloc, by, table.nodes.as_slice(), table.order.as_slice())?;
    first_reads(table, all, count)
}
