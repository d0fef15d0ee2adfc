//! What is said where an item breaks the name restriction.
ghost use Rattle.std.specs.Prelude.{◌≡◌};

use crate::closures::Question;
use crate::types::Shape;
use crate::typing::Typing;
use ap_defs::memory::Memory;
use ap_lexer::Token;
use ap_located::items::{span_at, text_at};
use ap_located::messages::{Message, Piece};
use ap_located::nodes::{Form, LEVELS, Node, node_at};
use indexmap::IndexSet;
use std::alloc::Global;

/// The token of the first node of a spelling that stands as a binder or in one of the first two places of a
/// swapping.
fn find_place(tokens: &[Token<'_>], nodes: &[Node], word: &str, above: Form) -> usize {
    for node in nodes {
        let is_place = node_at(nodes, node.parent).form == above && node.rank < 2;
        let is_kind = matches!(node.form, Form::Binder | Form::Variable);
        if is_place && is_kind && text_at(tokens, node.first) == word {
            return node.first;
        }
    }
    0
}

/// What is said of a variable left of `\`.
pub fn explain_binder(alloc: Global, tokens: &[Token<'_>], nodes: &[Node], word: &str) -> Message {
    let token = find_place(tokens, nodes, word, Form::Abs);
    let mut message = Message::new(alloc, span_at(tokens, token));
    message.say(
        "left of `\\` stands a name, and `@` is a variable",
        &[Piece::Word(word)],
    );
    message.note_text(
        "a name is spelled with a small letter: `x\\t`; each name of a clause stands for any name that is different from its other names",
    );
    message.note(
        "how it stands to `@` is said by goals: `x # @`, or `x = @`",
        &[Piece::Word(word), Piece::Word(word), Piece::Word(word)],
    );
    message
}

/// What is said of a variable in one of the first two places of a swapping.
pub fn explain_swap(alloc: Global, tokens: &[Token<'_>], nodes: &[Node], word: &str) -> Message {
    let token = find_place(tokens, nodes, word, Form::Swap);
    let mut message = Message::new(alloc, span_at(tokens, token));
    message.say(
        "the first two parts of `swap` are names, and `@` is a variable",
        &[Piece::Word(word)],
    );
    message.note_text("a name is spelled with a small letter: `swap(a, b, t)`");
    message
}

/// Whether a node stands inside a head.
fn is_in_head(nodes: &[Node], place: usize) -> bool {
    let mut at = place;
    for _ in 0..LEVELS {
        let node = node_at(nodes, at);
        if matches!(node.form, Form::Head) {
            return true;
        }
        if at == 0 {
            return false;
        }
        at = node.parent;
    }
    false
}

/// Whether a node stands in an abstraction of a name.
fn is_bound(tokens: &[Token<'_>], nodes: &[Node], place: usize, word: &str) -> bool {
    let mut at = place;
    for _ in 0..LEVELS {
        if at == 0 {
            return false;
        }
        let parent = node_at(nodes, at).parent;
        let above = node_at(nodes, parent);
        if matches!(above.form, Form::Abs) && text_at(tokens, above.first) == word {
            return true;
        }
        at = parent;
    }
    false
}

/// Whether the node at a place is a goal that must hold: it stands under `,` alone.
fn must_hold(nodes: &[Node], place: usize) -> bool {
    let mut at = place;
    for _ in 0..LEVELS {
        let parent = node_at(nodes, at).parent;
        let above = node_at(nodes, parent);
        if above.choice || !matches!(above.form, Form::Group | Form::Item) {
            return false;
        }
        if parent == 0 {
            return true;
        }
        at = parent;
    }
    false
}

/// Whether the node at a place is a goal that a name is fresh, and must hold.
fn is_fresh_goal(tokens: &[Token<'_>], nodes: &[Node], place: usize, word: &str) -> bool {
    let left = node_at(nodes, place.saturating_add(1));
    matches!(node_at(nodes, place).form, Form::Fresh)
        && matches!(left.form, Form::Word)
        && text_at(tokens, left.first) == word
        && must_hold(nodes, place)
}

/// Whether a node stands in a goal that a name is fresh, and that must hold.
fn is_in_fresh_goal(tokens: &[Token<'_>], nodes: &[Node], place: usize, name: &str) -> bool {
    let mut at = place;
    for _ in 0..LEVELS {
        if at == 0 {
            return false;
        }
        if is_fresh_goal(tokens, nodes, at, name) {
            return true;
        }
        at = node_at(nodes, at).parent;
    }
    false
}

/// The variables for which goals say that a name is fresh.
fn covered_by<'a>(
    alloc: Global,
    tokens: &[Token<'a>],
    nodes: &[Node],
    name: &str,
) -> Result<IndexSet<&'a str>, Memory> {
    let mut covered = IndexSet::new(alloc);
    for (place, node) in nodes.iter().enumerate() {
        if matches!(node.form, Form::Variable) && is_in_fresh_goal(tokens, nodes, place, name) {
            covered.insert(text_at(tokens, node.first))?;
        }
    }
    Ok(covered)
}

/// A name that stands free in a head itself.
fn free_in_head(tokens: &[Token<'_>], nodes: &[Node], name: &str) -> Option<usize> {
    for (place, node) in nodes.iter().enumerate() {
        let is_name = matches!(node.form, Form::Word) && text_at(tokens, node.first) == name;
        let is_call = matches!(node_at(nodes, node.parent).form, Form::Head);
        if is_name
            && !is_call
            && is_in_head(nodes, place)
            && !is_bound(tokens, nodes, place, name)
        {
            return Some(node.first);
        }
    }
    None
}

/// Whether a node is a variable of a head that the binder of a name doesn't stand over.
fn is_open(tokens: &[Token<'_>], nodes: &[Node], place: usize, name: &str) -> bool {
    matches!(node_at(nodes, place).form, Form::Variable)
        && is_in_head(nodes, place)
        && !is_bound(tokens, nodes, place, name)
}

/// The token of the first variable of a head that the binder of a name doesn't stand over, for which no goal says that
/// the name is fresh, and for whose type the answer is yes.
fn first_of(
    alloc: Global,
    typing: &Typing<'_, '_>,
    nodes: &[Node],
    name: &str,
    covered: &IndexSet<&str>,
    question: Question,
    answers: &[bool],
) -> Result<Option<usize>, Memory> {
    let tokens = typing.tokens;
    for (place, node) in nodes.iter().enumerate() {
        if is_open(tokens, nodes, place, name) && !covered.contains(text_at(tokens, node.first)) {
            let slot = typing.slots.slot_of(*node);
            if question.answer(alloc, &typing.slots.types, answers, slot)? {
                return Ok(Some(node.first));
            }
        }
    }
    Ok(None)
}

/// The token of the first such variable whose type may hold the name, where these are covered by goals.
fn first_holding(
    alloc: Global,
    typing: &Typing<'_, '_>,
    nodes: &[Node],
    name: &str,
    covered: &IndexSet<&str>,
) -> Result<Option<usize>, Memory> {
    let question = Question::HoldsName(type_of_name(typing, nodes, name));
    let answers = question.answers(alloc, &typing.words, &typing.slots.types)?;
    first_of(
        alloc,
        typing,
        nodes,
        name,
        covered,
        question,
        answers.as_slice(),
    )
}

/// The token of the first variable of a head through which a name may stand free in it.
fn first_open(
    alloc: Global,
    typing: &Typing<'_, '_>,
    nodes: &[Node],
    name: &str,
) -> Result<Option<usize>, Memory> {
    let covered = covered_by(alloc, typing.tokens, nodes, name)?;
    first_holding(alloc, typing, nodes, name, &covered)
}

/// The place of the name type of a name of an item.
fn type_of_name(typing: &Typing<'_, '_>, nodes: &[Node], name: &str) -> usize {
    for ident in typing.idents.all() {
        let token = node_at(nodes, ident.node).first;
        if ident.is_name && text_at(typing.tokens, token) == name {
            if let Shape::Name(word) = typing.slots.types.shape(ident.slot) {
                return word;
            }
        }
    }
    usize::MAX
}

/// What is said of a name that stands free in a head itself.
fn free_message(alloc: Global, tokens: &[Token<'_>], token: usize, name: &str) -> Message {
    let mut message = Message::new(alloc, span_at(tokens, token));
    message.say(
        "the name `@` stands free in the head of its clause",
        &[Piece::Word(name)],
    );
    message.label_text("a name, since no constructor of this spelling is declared");
    message.note_text(
        "a name of a clause stands for any name, so a head can't tell one from another: write a variable, or declare a constructor",
    );
    message
}

// What a goal that a name is fresh for a variable of the head is for.
const NO_FORMALITY: &str =
    "this is no formality: where the name is free in what the variable stands for, the clause would hold for one choice of the name and not for another, and the goal makes it fail there";

/// Notes the goal to add.
fn note_goal<'x>(message: &mut Message, name: &'x str, variable: &'x str) {
    if variable == "_" {
        message.note(
            "give `_` a spelling, as `T`, and add the goal `@ # T`",
            &[Piece::Word(name)],
        );
        return;
    }
    message.note(
        "add the goal `@ # @` to the body, under `,` alone",
        &[Piece::Word(name), Piece::Word(variable)],
    );
    message.note_text(NO_FORMALITY);
}

/// What is said of a name that a variable of the head may hold.
fn variable_message<'x>(
    alloc: Global,
    tokens: &[Token<'x>],
    token: usize,
    name: &'x str,
) -> Message {
    let variable = text_at(tokens, token);
    let mut message = Message::new(alloc, span_at(tokens, token));
    message.say(
        "the name `@` may stand free in the head, through `@`",
        &[Piece::Word(name), Piece::Word(variable)],
    );
    note_goal(&mut message, name, variable);
    message
}

/// What is said of a name where no such variable is found.
fn vague_message(alloc: Global, tokens: &[Token<'_>], name: &str) -> Message {
    let mut message = Message::new(alloc, span_at(tokens, 0));
    message.say(
        "the name `@` isn't known to be fresh for the head of its clause",
        &[Piece::Word(name)],
    );
    message.note(
        "add goals `@ # X` for the variables of the head, under `,` alone",
        &[Piece::Word(name)],
    );
    message
}

/// What is said of a name of a clause that isn't fresh for its head.
pub fn explain_head(
    alloc: Global,
    typing: &Typing<'_, '_>,
    nodes: &[Node],
    name: &str,
) -> Result<Message, Memory> {
    if !typing.is_whole() {
        return Err(Memory);
    }
    let tokens = typing.tokens;
    if let Some(token) = free_in_head(tokens, nodes, name) {
        return Ok(free_message(alloc, tokens, token, name));
    }
    match first_open(alloc, typing, nodes, name) {
        Ok(Some(token)) => Ok(variable_message(alloc, tokens, token, name)),
        Ok(None) => Ok(vague_message(alloc, tokens, name)),
        Err(Memory) => Err(Memory),
    }
}
