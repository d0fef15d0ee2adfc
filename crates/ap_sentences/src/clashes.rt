//! What is said where no types fit.
ghost use Rattle.std.specs.Prelude.{◌≡◌};

use crate::declared::Entry;
use crate::slots::{Cause, Clash};
use crate::subject::{COMPARED, Subject, note_declared, note_meant, say_declared};
use crate::types::Shape;
use crate::typing::{Typing, applied_space, is_goal};
use crate::written::say_kind;
use ap_defs::memory::Memory;
use ap_lexer::Token;
use ap_located::items::{span_at, span_between, text_at};
use ap_located::messages::{Message, Piece};
use ap_located::nearest::Nearest;
use ap_located::nodes::{Form, LEVELS, Node, node_at};
use ap_located::spots::spot_of;
use std::alloc::{AllocError, Global};

/// Says what a node is.
fn say_what(message: &mut Message, tokens: &[Token<'_>], node: Node) {
    let word = Piece::Word(text_at(tokens, node.first));
    match node.form {
        Form::Tuple if node.count == 0 => message.say_text("this"),
        Form::Tuple => message.say_text("this tuple"),
        Form::List | Form::ListTail => message.say_text("this list"),
        Form::Abs => message.say_text("this abstraction"),
        Form::Apply => message.say("`@(..)`", &[word]),
        _ => message.say("`@`", &[word]),
    }
}

/// Whether a node is a name: a word that is no constructor.
fn is_name(typing: &Typing<'_, '_>, node: Node) -> bool {
    let word = text_at(typing.tokens, node.first);
    matches!(node.form, Form::Word) && typing.words.constructors.get(word).is_none()
}

/// The node, or the largest one round it of which it is a part by abstractions, tuples and lists alone.
fn argument_round(nodes: &[Node], node: Node) -> Node {
    let mut at = node;
    for _ in 0..LEVELS {
        let above = node_at(nodes, at.parent);
        match above.form {
            Form::Abs | Form::Tuple | Form::List | Form::ListTail | Form::Swap => at = above,
            _ => return at,
        }
    }
    at
}

/// The word whose argument a node is, with its declaration.
fn argument_of<'a>(typing: &Typing<'_, 'a>, nodes: &[Node], node: Node) -> Option<Entry<'a>> {
    let above = node_at(nodes, node.parent);
    if !matches!(above.form, Form::Apply) {
        return None;
    }
    let space = applied_space(is_goal(node_at(nodes, above.parent).form));
    typing
        .words
        .entry(space, text_at(typing.tokens, above.first))
}

/// Why a type is wanted at a part of a node, where it isn't an argument.
fn place_note(above: Form, rank: usize) -> Option<&'static str> {
    match above {
        Form::Equal => Some("both sides of `=` are of one type"),
        Form::Fresh if rank == 0 => Some("left of `#` stands a term of a name type"),
        Form::Abs if rank == 0 => Some("left of `\\` stands a name, which has a name type"),
        Form::List if rank > 0 => Some("the elements of a list are of one type"),
        Form::ListTail if rank > 0 => Some(
            "the elements of a list are of one type, and behind `|` stands a list of them",
        ),
        Form::Swap if rank < 2 => Some("the first two parts of `swap` are names of one type"),
        Form::New => Some("`new` brings a name, which has a name type"),
        _ => None,
    }
}

/// Notes which argument a node is, or stands in.
fn note_argument(
    message: &mut Message,
    subject: Subject<'_, '_>,
    typing: &Typing<'_, '_>,
    nodes: &[Node],
    node: Node,
) {
    let part = argument_round(nodes, node);
    if let Some(entry) = argument_of(typing, nodes, part) {
        let said = if part.first == node.first && part.last == node.last {
            "this is argument @; "
        } else {
            "this stands in argument @; "
        };
        let number = part.rank.saturating_add(1) as u64;
        message.note(said, &[Piece::Number(number)]);
        say_declared(message, subject, entry);
    }
}

/// Notes why a type is wanted at a node.
fn note_wanted(
    message: &mut Message,
    subject: Subject<'_, '_>,
    typing: &Typing<'_, '_>,
    nodes: &[Node],
    node: Node,
) {
    match place_note(node_at(nodes, node.parent).form, node.rank) {
        Some(note) => message.note_text(note),
        None => note_argument(message, subject, typing, nodes, node),
    }
}

/// Notes where a variable or name stood first.
fn note_first(
    message: &mut Message,
    subject: Subject<'_, '_>,
    typing: &Typing<'_, '_>,
    nodes: &[Node],
    place: usize,
) {
    let Some(ident) = typing.idents.find(typing.tokens, nodes, place) else {
        return;
    };
    if ident.node == place {
        return;
    }
    let token = node_at(nodes, ident.node).first;
    let spot = spot_of(subject.text, span_at(typing.tokens, token).start);
    message.note(
        "`@` stands first in line @, column @",
        &[
            Piece::Word(text_at(typing.tokens, token)),
            Piece::Number(spot.line as u64),
            Piece::Number(spot.column as u64),
        ],
    );
}

/// Notes where the type of a node comes from.
fn note_given(
    message: &mut Message,
    subject: Subject<'_, '_>,
    typing: &Typing<'_, '_>,
    nodes: &[Node],
    place: usize,
) {
    let node = node_at(nodes, place);
    let is_word = matches!(node.form, Form::Word | Form::Apply);
    let word = text_at(typing.tokens, node.first);
    match typing.words.constructors.get(word) {
        Some(entry) if is_word => note_declared(message, subject, entry),
        _ if is_word || matches!(node.form, Form::Variable | Form::Binder) => {
            note_first(message, subject, typing, nodes, place);
        }
        _ => {}
    }
}

/// The constructor that is spelled most like a name, of those that make terms of a type alone.
fn meant<'a>(typing: &Typing<'_, 'a>, word: &'a str, wanted: Shape) -> Option<&'a str> {
    let mut nearest = Nearest::new(word);
    let mut only = None;
    let mut count: usize = 0;
    for entry in typing.words.constructors.entries() {
        let fits = entry.count == 0 && typing.slots.types.shape(entry.result) == wanted;
        if fits && count < COMPARED {
            nearest.compare(entry.word);
            only = Some(entry.word);
            count = count.saturating_add(1);
        }
    }
    match nearest.found() {
        None if count == 1 => only,
        found => found,
    }
}

fn begins_ascii(word: &str) -> bool {
    match word.as_bytes() {
        [byte, ..] => byte.is_ascii(),
        [] => true,
    }
}

/// Labels a name where a term of a data type is wanted, and notes what may be meant.
fn label_name<'a>(message: &mut Message, typing: &Typing<'_, 'a>, token: usize, wanted: Shape) {
    let word = text_at(typing.tokens, token);
    message.label("no constructor `@` is declared", &[Piece::Word(word)]);
    match meant(typing, word, wanted) {
        Some(near) => note_meant(message, near),
        None if !begins_ascii(word) => message.note_text(
            "a variable begins with `A` to `Z` or `_`; a word with another letter is a name or a constructor",
        ),
        None => {}
    }
}

/// What is said where the types with two numbers differ at a node.
fn types_message(
    alloc: Global,
    typing: &Typing<'_, '_>,
    node: Node,
    wanted: usize,
    given: usize,
) -> Message {
    let mut message = Message::new(alloc, span_between(typing.tokens, node.first, node.last));
    message.say_text("a term of ");
    say_kind(
        &mut message,
        alloc,
        &typing.words,
        &typing.slots.types,
        wanted,
    );
    message.say_text(" is wanted here, and ");
    say_what(&mut message, typing.tokens, node);
    if is_name(typing, node) {
        message.say_text(" is a name");
        let shape = typing.slots.types.shape(wanted);
        label_name(&mut message, typing, node.first, shape);
    } else {
        message.say_text(" is of ");
        say_kind(
            &mut message,
            alloc,
            &typing.words,
            &typing.slots.types,
            given,
        );
    }
    message
}

/// What is said where a constructor stands in the place of a name.
fn constructor_message(
    alloc: Global,
    subject: Subject<'_, '_>,
    typing: &Typing<'_, '_>,
    node: Node,
) -> Message {
    let word = text_at(typing.tokens, node.first);
    let mut message = Message::new(alloc, span_at(typing.tokens, node.first));
    message.say(
        "a name is wanted here, and `@` is a constructor",
        &[Piece::Word(word)],
    );
    if let Some(entry) = typing.words.constructors.get(word) {
        note_declared(&mut message, subject, entry);
    }
    message
}

/// The first token of the first variable or name whose type is a part of itself, or the item's.
fn endless_token(
    alloc: Global,
    typing: &Typing<'_, '_>,
    nodes: &[Node],
) -> Result<usize, AllocError> {
    for ident in typing.idents.all() {
        if typing.slots.types.is_endless(alloc, ident.slot)? {
            return Ok(node_at(nodes, ident.node).first);
        }
    }
    Ok(0)
}

/// What is said where types would contain themselves.
fn endless_message(
    alloc: Global,
    typing: &Typing<'_, '_>,
    nodes: &[Node],
) -> Result<Message, Memory> {
    let token = endless_token(alloc, typing, nodes)?;
    let mut message = Message::new(alloc, span_at(typing.tokens, token));
    message.say_text("no types fit: a type would be a part of itself");
    message.note_text(
        "no term is equal to a list or a tuple that has it as a part, as in `X = [X]`",
    );
    Ok(message)
}

/// What is said of an item for which no types fit.
pub fn explain_clash(
    alloc: Global,
    subject: Subject<'_, '_>,
    typing: &Typing<'_, '_>,
    nodes: &[Node],
) -> Result<Message, Memory> {
    let Some(Clash { node: place, cause }) = typing.slots.clash else {
        return endless_message(alloc, typing, nodes);
    };
    let node = node_at(nodes, place);
    match cause {
        Cause::Types(wanted, given) => {
            let mut message = types_message(alloc, typing, node, wanted, given);
            note_wanted(&mut message, subject, typing, nodes, node);
            note_given(&mut message, subject, typing, nodes, place);
            Ok(message)
        }
        Cause::Constructor => Ok(constructor_message(alloc, subject, typing, node)),
    }
}
