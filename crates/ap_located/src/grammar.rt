//! What is said of an item that isn't in the grammar.
ghost use Rattle.std.specs.Prelude.{◌≡◌};

use crate::habits::habit;
use crate::items::{line_at, span_at, text_at};
use crate::messages::{Message, Piece};
use crate::nodes::{Form, Node, node_at};
use crate::reader::read_item;
use crate::slips::{Slip, Wanted};
use crate::spots::Span;
use crate::symbols::{Symbol, symbol_of};
use ap_defs::memory::Memory;
use ap_lexer::Token;
use std::alloc::Global;

/// What closes or goes on with an open node.
fn wanted_in(form: Form) -> &'static str {
    match form {
        Form::List => "`,`, `|` or `]` is wanted here",
        Form::ListTail => "`]` is wanted here",
        Form::Group | Form::Exists | Form::New => "`,`, `;` or `)` is wanted here",
        _ => "`,` or `)` is wanted here",
    }
}

/// What could stand where an item can't go on.
fn wanted_text(wanted: Wanted, open: Form) -> &'static str {
    match wanted {
        Wanted::Item => "an item begins with a word, `pred` or `?-`",
        Wanted::Goal =>
            "a goal is wanted here: `p(t)`, `t = u`, `a # t`, `exists X (..)` or `new a (..)`",
        Wanted::Term => "a term is wanted here",
        Wanted::Type => "a type is wanted here",
        Wanted::Name => "a name is wanted here",
        Wanted::Variable => "a variable is wanted here",
        Wanted::Word => "the word of a predicate is wanted here",
        Wanted::ResultWord => "the word of a data type is wanted here",
        Wanted::Open => "`(` is wanted here",
        Wanted::Close => wanted_in(open),
        Wanted::Swap => "`,` is wanted here, as in `swap(a, b, t)`",
        Wanted::Relation => "`=` or `#` is wanted here: a term alone is no goal",
        Wanted::Body => "`:-` or `.` is wanted here",
        Wanted::Arrow => "`->` and the word of a data type are wanted here",
        Wanted::PredicateTypes => "types in parentheses, or `.`, are wanted here",
        Wanted::NextGoal => "`,`, `;` or `.` is wanted here",
        Wanted::End => "`.` is wanted here",
    }
}

/// Whether the token begins an item in a line of its own, where one could end before it.
fn begins_item(tokens: &[Token<'_>], slip: Slip) -> bool {
    let Some(token) = tokens.get(slip.token) else {
        return false;
    };
    let ends = matches!(
        slip.wanted,
        Wanted::NextGoal | Wanted::Body | Wanted::Arrow | Wanted::End | Wanted::PredicateTypes
    );
    let symbol = symbol_of(token);
    let begins = matches!(symbol, Symbol::Word | Symbol::Ask | Symbol::Predicate);
    let before = line_at(tokens, slip.token.saturating_sub(1));
    slip.token > 0 && ends && begins && token.line > before
}

fn missing_end(alloc: Global, tokens: &[Token<'_>], slip: Slip) -> Message {
    let start = span_at(tokens, slip.token.saturating_sub(1)).end;
    let end = start.saturating_add(1);
    let mut message = Message::new(alloc, Span { start, end });
    message.say_text("a `.` is missing before the next item");
    message.label_text("the item ends here by a `.`");
    let line = line_at(tokens, slip.token);
    message.note("the next item begins in line @", &[Piece::Number(line)]);
    message
}

fn say_slip(message: &mut Message, tokens: &[Token<'_>], place: usize) {
    if place >= tokens.len() {
        message.say_text("the item can't end here");
    } else {
        message.say(
            "the item can't go on with `@`",
            &[Piece::Word(text_at(tokens, place))],
        );
    }
}

/// Whether a node is one that a bracket opens.
fn has_bracket(node: Node) -> bool {
    matches!(
        node.form,
        Form::Apply | Form::Tuple | Form::List | Form::ListTail | Form::Group | Form::Predicate
    )
}

/// Where the bracket that is open begins.
fn note_open(message: &mut Message, tokens: &[Token<'_>], node: Node) {
    message.note(
        "what `@` opens in line @ is not closed",
        &[
            Piece::Word(text_at(tokens, node.first)),
            Piece::Number(line_at(tokens, node.first)),
        ],
    );
}

fn slip_message(alloc: Global, tokens: &[Token<'_>], nodes: &[Node], slip: Slip) -> Message {
    let open = node_at(nodes, slip.open);
    let mut message = Message::new(alloc, span_at(tokens, slip.token));
    say_slip(&mut message, tokens, slip.token);
    message.label_text(wanted_text(slip.wanted, open.form));
    match habit(tokens, nodes, slip) {
        Some(note) => message.note_text(note),
        None if matches!(slip.wanted, Wanted::Close) && has_bracket(open) => {
            note_open(&mut message, tokens, open);
        }
        None => {}
    }
    message
}

fn vague_message(alloc: Global, tokens: &[Token<'_>]) -> Message {
    let mut message = Message::new(alloc, span_at(tokens, 0));
    message.say_text("the item is not in the grammar");
    message
}

/// What is said of an item, without its `.`, that isn't in the grammar.
pub fn explain_grammar(alloc: Global, tokens: &[Token<'_>]) -> Result<Message, Memory> {
    let reading = read_item(alloc, tokens)?;
    let message = match reading.slip {
        Some(slip) if begins_item(tokens, slip) => missing_end(alloc, tokens, slip),
        Some(slip) => slip_message(alloc, tokens, reading.nodes.all(), slip),
        None => vague_message(alloc, tokens),
    };
    Ok(message)
}
