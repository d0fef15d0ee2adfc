//! The types of the parts of an item's nodes, by their numbers, and the first place at which they differ.
ghost use Rattle.std.specs.Prelude.{◌≡◌};

use crate::declared::{Entry, tuple_shape};
use crate::types::{Shape, Types};
use ap_located::nodes::{Form, Node};
use std::alloc::Global;

/// Why no types fit.
#[derive(Clone, Copy)]
pub enum Cause {
    /// The types with these numbers differ: the one that is wanted at the place, and the one that its part has.
    Types(usize, usize),
    /// A constructor stands where a name belongs.
    Constructor,
}

/// The first place at which no types fit: a node, and why.
#[derive(Clone, Copy)]
pub struct Clash {
    pub node: usize,
    pub cause: Cause,
}

/// The types of the nodes of an item, as far as they are known.
#[derive(Drop)]
pub struct Slots {
    pub types: Types,
    // for each node the number of the type of its first part
    bases: Vec<usize>,
    pub clash: Option<Clash>,
}

impl Slots {
    /// No node has a type yet.
    pub fn new(alloc: Global, types: Types) -> Slots {
        Slots {
            types,
            bases: Vec::new(alloc),
            clash: None,
        }
    }

    /// The number of the type of a node.
    pub fn slot_of(&self, node: Node) -> usize {
        let base = self.bases.get(node.parent).copied().unwrap_or(0);
        base.saturating_add(node.rank)
    }

    /// Tells that no types fit at a node.
    pub fn refuse(&mut self, place: usize, cause: Cause) {
        if self.clash.is_none() {
            self.clash = Some(Clash { node: place, cause });
        }
    }

    /// Asks a node's type to be equal to another.
    pub fn equate(&mut self, place: usize, own: usize, other: usize) {
        if !self.types.equate(own, other) {
            self.refuse(place, Cause::Types(own, other));
        }
    }

    /// Asks a node to have a type of this shape.
    fn give(&mut self, place: usize, own: usize, shape: Shape) {
        let other = self.types.add(shape);
        self.equate(place, own, other);
    }

    /// The parts of a node have types with a shape each, and the number of the first.
    fn add_parts(&mut self, node: Node, shape: Shape) -> usize {
        let base = self.types.add_many(node.count, shape);
        if self.bases.push(base).is_err() {
            self.types.lose();
        }
        base
    }

    /// The parts of a node have types of their own.
    pub fn give_own(&mut self, node: Node) -> usize {
        self.add_parts(node, Shape::Open)
    }

    /// The types of the parts of a node are those of the arguments of a declared word.
    pub fn give_parts(&mut self, node: Node, entry: Entry<'_>) {
        let base = self.give_own(node);
        for part in 0..node.count.min(entry.count) {
            let shape = Shape::Link(entry.args.saturating_add(part));
            self.types.set(base.saturating_add(part), shape);
        }
    }

    fn type_tuple(&mut self, place: usize, node: Node) {
        let own = self.slot_of(node);
        let base = self.give_own(node);
        let shape = tuple_shape(&mut self.types, base, node.count);
        self.give(place, own, shape);
    }

    fn type_list(&mut self, place: usize, node: Node) {
        let own = self.slot_of(node);
        let element = self.types.add(Shape::Open);
        let list = self.types.add(Shape::List(element));
        self.equate(place, own, list);
        let base = self.add_parts(node, Shape::Link(element));
        if matches!(node.form, Form::ListTail) {
            let last = base.saturating_add(node.count.saturating_sub(1));
            self.types.set(last, Shape::Link(list));
        }
    }

    fn type_abs(&mut self, place: usize, node: Node) {
        let own = self.slot_of(node);
        let base = self.give_own(node);
        self.types.set(base, Shape::OpenName);
        self.give(place, own, Shape::Abs(base, base.saturating_add(1)));
    }

    fn type_swap(&mut self, node: Node) {
        let own = self.slot_of(node);
        let base = self.give_own(node);
        let types = &mut self.types;
        types.set(base, Shape::OpenName);
        types.set(base.saturating_add(1), Shape::Link(base));
        types.set(base.saturating_add(2), Shape::Link(own));
    }

    fn type_equal(&mut self, node: Node) {
        let base = self.give_own(node);
        self.types.set(base.saturating_add(1), Shape::Link(base));
    }

    fn type_fresh(&mut self, node: Node) {
        let base = self.give_own(node);
        self.types.set(base, Shape::OpenName);
    }

    /// Types the parts of the node at a place, by its form alone.
    pub fn type_form(&mut self, place: usize, node: Node) {
        match node.form {
            Form::Tuple => self.type_tuple(place, node),
            Form::List | Form::ListTail => self.type_list(place, node),
            Form::Abs => self.type_abs(place, node),
            Form::Swap => self.type_swap(node),
            Form::Equal => self.type_equal(node),
            Form::Fresh => self.type_fresh(node),
            _ => {
                let _base = self.give_own(node);
            }
        }
    }
}
