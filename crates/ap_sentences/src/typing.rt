//! The types of an item's parts, up to the first place at which they differ.
ghost use Rattle.std.specs.Prelude.{◌≡◌};

use crate::declared::{Declared, Entry, Words};
use crate::idents::{Ident, Idents};
use crate::slots::{Cause, Slots};
use crate::types::Shape;
use ap_lexer::{Token, TokenKind};
use ap_located::items::{Space, text_at};
use ap_located::nodes::{Form, Node, node_at};
use std::alloc::Global;

/// An item with the types of its parts. Where memory is wanting for one, that is lost, and they are not whole.
pub struct Typing<'t, 'a> {
    pub tokens: &'t [Token<'a>],
    pub words: Words<'a>,
    pub idents: Idents<'a>,
    pub slots: Slots,
}

// Written out, so that it is not written out at each exit of what owns a typing.
impl Drop for Typing<'_, '_> {
    fn drop(self) {
        let Typing {
            tokens: _,
            words: _words,
            idents: _idents,
            slots: _slots,
        } = self;
    }
}

impl<'t, 'a> Typing<'t, 'a> {
    /// Adds a name or a variable that stands first at a node, and gives the number of its type.
    fn add_ident(&mut self, place: usize, node: Node, brought: bool) -> usize {
        let word = text_at(self.tokens, node.first);
        let is_name = is_word(self.tokens, node.first);
        let slot = self.slots.types.add(open_shape(is_name));
        let ident = Ident {
            node: place,
            slot,
            is_name,
        };
        if brought {
            self.idents.bring(node.parent, ident);
        } else if word == "_" {
            self.idents.add(ident);
        } else {
            self.idents.add_free(word, ident);
        }
        slot
    }

    /// A name or a variable.
    fn type_ident(&mut self, place: usize, nodes: &[Node]) {
        let node = node_at(nodes, place);
        let above = node_at(nodes, node.parent).form;
        let brought = matches!(node.form, Form::Binder) && !matches!(above, Form::Abs);
        let known = if brought || text_at(self.tokens, node.first) == "_" {
            None
        } else {
            self.idents.find(self.tokens, nodes, place)
        };
        let slot = match known {
            Some(ident) => ident.slot,
            None => self.add_ident(place, node, brought),
        };
        let own = self.slots.slot_of(node);
        self.slots.equate(place, own, slot);
    }

    /// A word that is an argument: a constructor, or a name.
    fn type_word(&mut self, place: usize, nodes: &[Node]) {
        let node = node_at(nodes, place);
        let word = text_at(self.tokens, node.first);
        match self.words.entry(Space::Constructors, word) {
            Some(_) if is_name_place(node, nodes) => {
                self.slots.refuse(place, Cause::Constructor);
            }
            Some(entry) => {
                let own = self.slots.slot_of(node);
                self.slots.equate(place, own, entry.result);
            }
            None => self.type_ident(place, nodes),
        }
    }

    fn type_apply(&mut self, place: usize, nodes: &[Node]) {
        let node = node_at(nodes, place);
        let is_call = is_goal(node_at(nodes, node.parent).form);
        let word = text_at(self.tokens, node.first);
        let Some(entry) = self.words.entry(applied_space(is_call), word) else {
            self.slots.type_form(place, node);
            return;
        };
        if !is_call {
            let own = self.slots.slot_of(node);
            self.slots.equate(place, own, entry.result);
        }
        self.slots.give_parts(node, entry);
    }

    /// Types the node at a place.
    fn type_node(&mut self, place: usize, nodes: &[Node]) {
        let node = node_at(nodes, place);
        if matches!(node.form, Form::Apply) {
            self.type_apply(place, nodes);
            return;
        }
        self.slots.type_form(place, node);
        match node.form {
            Form::Word | Form::Binder if is_goal(node_at(nodes, node.parent).form) => {}
            Form::Word | Form::Binder => self.type_word(place, nodes),
            Form::Variable => self.type_ident(place, nodes),
            _ => {}
        }
    }

    /// Types the nodes of the item.
    fn type_all(&mut self, nodes: &[Node]) {
        for place in 0..nodes.len() {
            self.type_node(place, nodes);
        }
        self.slots.types.settle();
        if self.slots.clash.is_none() {
            self.give_names();
        }
    }

    /// Whether no memory was wanting.
    pub fn is_whole(&self) -> bool {
        self.idents.is_whole() && self.slots.types.is_whole()
    }

    /// Gives names of which nothing else is known the only name type, if there is only one.
    fn give_names(&mut self) {
        if let Some(only) = only_name_type(self.words.types.entries()) {
            self.slots.types.close_names(only);
        }
    }
}

/// What is known of a type where nothing else stands: that it is a name's.
fn open_shape(is_name: bool) -> Shape {
    if is_name {
        Shape::OpenName
    } else {
        Shape::Open
    }
}

/// Whether a node of this form has goals as its parts.
pub fn is_goal(form: Form) -> bool {
    matches!(form, Form::Atom | Form::Head)
}

/// Whether a node stands where a name belongs.
fn is_name_place(node: Node, nodes: &[Node]) -> bool {
    let above = node_at(nodes, node.parent).form;
    matches!(node.form, Form::Binder) || (matches!(above, Form::Swap) && node.rank < 2)
}

/// The space of the word of an application: a predicate, where it is a call.
pub fn applied_space(is_call: bool) -> Space {
    if is_call {
        Space::Predicates
    } else {
        Space::Constructors
    }
}

/// The place of the only name type, if there is only one.
fn only_name_type(entries: &[Entry<'_>]) -> Option<usize> {
    let mut only = None;
    for (place, entry) in entries.iter().enumerate() {
        if entry.is_name {
            if only.is_some() {
                return None;
            }
            only = Some(place);
        }
    }
    only
}

/// Whether the token at a place is a word, and not a variable.
fn is_word(tokens: &[Token<'_>], place: usize) -> bool {
    match tokens.get(place) {
        Some(token) => token.kind == TokenKind::Ident,
        None => false,
    }
}

/// The types of an item's parts.
pub fn type_item<'t, 'a>(
    alloc: Global,
    declared: Declared<'a>,
    tokens: &'t [Token<'a>],
    nodes: &[Node],
) -> Typing<'t, 'a> {
    let Declared { words, types } = declared;
    let mut typing = Typing {
        tokens,
        words,
        idents: Idents::new(alloc),
        slots: Slots::new(alloc, types),
    };
    typing.type_all(nodes);
    typing
}
