//! What is said where more than one choice of types fits, or a variable has a type that no term has.
ghost use Rattle.std.specs.Prelude.{◌≡◌};

use crate::closures::Question;
use crate::declared::{Entry, Words};
use crate::idents::Ident;
use crate::subject::{Subject, say_declared};
use crate::types::{Shape, Types};
use crate::typing::Typing;
use crate::written::say_type;
use ap_defs::memory::Memory;
use ap_located::items::{span_at, text_at};
use ap_located::messages::{Message, Piece};
use ap_located::nodes::{Node, node_at};
use std::alloc::Global;

/// Labels a variable or a name with what is known of its type.
fn label_type(message: &mut Message, alloc: Global, typing: &Typing<'_, '_>, slot: usize) {
    match typing.slots.types.shape(slot) {
        Shape::Open => message.label_text("nothing is known of its type"),
        Shape::OpenName => message.label_text(
            "its type is a name type, of which there are several",
        ),
        _ => {
            message.label_text("its type is `");
            say_type(message, alloc, &typing.words, &typing.slots.types, slot);
            message.say_text("`");
        }
    }
}

/// What is said of the type of a variable or a name.
fn ident_message(
    alloc: Global,
    typing: &Typing<'_, '_>,
    nodes: &[Node],
    ident: Ident,
    what: &'static str,
) -> Message {
    let token = node_at(nodes, ident.node).first;
    let mut message = Message::new(alloc, span_at(typing.tokens, token));
    let said = if ident.is_name {
        "@ of the name `@`"
    } else {
        "@ of the variable `@`"
    };
    let word = text_at(typing.tokens, token);
    message.say(said, &[Piece::Text(what), Piece::Word(word)]);
    label_type(&mut message, alloc, typing, ident.slot);
    message
}

/// What is said where no variable or name is found to which it applies.
fn vague_message(alloc: Global, typing: &Typing<'_, '_>, sentence: &str) -> Message {
    let mut message = Message::new(alloc, span_at(typing.tokens, 0));
    message.say_text(sentence);
    message
}

/// The first variable or name whose type is open.
fn open_ident(alloc: Global, typing: &Typing<'_, '_>) -> Result<Option<Ident>, Memory> {
    for ident in typing.idents.all() {
        if typing.slots.types.is_open(alloc, ident.slot)? {
            return Ok(Some(*ident));
        }
    }
    Ok(None)
}

/// What is said where more than one choice of types fits an item.
pub fn explain_open(
    alloc: Global,
    typing: &Typing<'_, '_>,
    nodes: &[Node],
) -> Result<Message, Memory> {
    let mut message = match open_ident(alloc, typing)? {
        Some(ident) => ident_message(alloc, typing, nodes, ident, "nothing fixes the type"),
        None => vague_message(alloc, typing, "nothing fixes the types of the item"),
    };
    message.note_text(
        "types are found from the item alone: a predicate or constructor that it is an argument of fixes its type",
    );
    Ok(message)
}

/// A constructor of a data type.
fn constructor_of<'a>(words: &Words<'a>, types: &Types, word: usize) -> Option<Entry<'a>> {
    for entry in words.constructors.entries() {
        if types.shape(entry.result) == Shape::Data(word) {
            return Some(*entry);
        }
    }
    None
}

/// Notes what the constructors of a type without terms need.
fn note_constructors(
    message: &mut Message,
    subject: Subject<'_, '_>,
    typing: &Typing<'_, '_>,
    slot: usize,
) {
    if let Shape::Data(word) = typing.slots.types.shape(slot) {
        match constructor_of(&typing.words, &typing.slots.types, word) {
            Some(entry) => {
                message.note_text("each constructor needs a term of a type without terms: ");
                say_declared(message, subject, entry);
            }
            None => message.note_text("it has no constructors before this item"),
        }
    }
}

/// The first variable whose type has no terms.
fn empty_ident(
    alloc: Global,
    typing: &Typing<'_, '_>,
    answers: &[bool],
) -> Result<Option<Ident>, Memory> {
    for ident in typing.idents.all() {
        let types = &typing.slots.types;
        if !ident.is_name && !Question::HasTerm.answer(alloc, types, answers, ident.slot)? {
            return Ok(Some(*ident));
        }
    }
    Ok(None)
}

fn empty_message(
    alloc: Global,
    subject: Subject<'_, '_>,
    typing: &Typing<'_, '_>,
    nodes: &[Node],
    ident: Ident,
) -> Message {
    let mut message = ident_message(alloc, typing, nodes, ident, "no term has the type");
    note_constructors(&mut message, subject, typing, ident.slot);
    message.note_text("declare a constructor that needs no such term, in an item before");
    message
}

/// What is said where a variable of an item has a type that no term has.
pub fn explain_empty(
    alloc: Global,
    subject: Subject<'_, '_>,
    typing: &Typing<'_, '_>,
    nodes: &[Node],
) -> Result<Message, Memory> {
    let answers = Question::HasTerm.answers(alloc, &typing.words, &typing.slots.types)?;
    match empty_ident(alloc, typing, answers.as_slice())? {
        Some(ident) => Ok(empty_message(alloc, subject, typing, nodes, ident)),
        None => Ok(vague_message(alloc, typing, "a variable has a type that no term has")),
    }
}
