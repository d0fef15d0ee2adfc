//! What is said of an item that no `.` ends, or that is nested too deep.
ghost use Rattle.std.specs.Prelude.{◌≡◌};

use crate::items::{line_at, span_at, text_at};
use crate::messages::{Message, Piece};
use crate::spots::Span;
use crate::symbols::{Symbol, symbol_at, symbol_of};
use ap_defs::memory::Memory;
use ap_lexer::Token;
use std::alloc::{AllocFailed, Global};

/// The most levels that an item may have.
const MOST_LEVELS: usize = 256;

/// Drops the levels of abstractions at the end.
fn to_bracket(levels: &mut Vec<bool>) {
    for _ in 0..levels.len() {
        if levels.last().copied().unwrap_or(true) {
            return;
        }
        let _level = levels.pop();
    }
}

/// Goes on with the levels, of each whether a bracket opened it, by a token.
fn count_levels(levels: &mut Vec<bool>, symbol: Symbol) -> Result<(), AllocFailed<bool>> {
    match symbol {
        Symbol::Open | Symbol::OpenList => levels.push(true),
        Symbol::Lambda => levels.push(false),
        Symbol::Close | Symbol::CloseList => {
            to_bracket(levels);
            let _level = levels.pop();
            Ok(())
        }
        Symbol::Comma
        | Symbol::Semicolon
        | Symbol::Bar
        | Symbol::Equal
        | Symbol::Fresh
        | Symbol::If
        | Symbol::Arrow => {
            to_bracket(levels);
            Ok(())
        }
        _ => Ok(()),
    }
}

/// The token that opens one level too many, or the first.
fn deepest(alloc: Global, tokens: &[Token<'_>]) -> Result<usize, Memory> {
    let mut levels = Vec::new(alloc);
    for (place, token) in tokens.iter().enumerate() {
        count_levels(&mut levels, symbol_of(token))?;
        if levels.len() > MOST_LEVELS {
            return Ok(place);
        }
    }
    Ok(0)
}

/// What is said of an item that is nested too deep.
pub fn explain_depth(alloc: Global, tokens: &[Token<'_>]) -> Result<Message, Memory> {
    let place = deepest(alloc, tokens)?;
    let mut message = Message::new(alloc, span_at(tokens, place));
    message.say_text("the item is nested more than 256 deep");
    message.label_text("this opens level 257; `(`, `[` and `\\` count");
    note_begin(&mut message, tokens);
    Ok(message)
}

/// The note that tells where an item begins.
fn note_begin(message: &mut Message, tokens: &[Token<'_>]) {
    let line = line_at(tokens, 0);
    message.note("the item begins in line @", &[Piece::Number(line)]);
}

/// The last bracket that is open at the end.
fn last_open(tokens: &[Token<'_>]) -> Option<usize> {
    let mut closed: usize = 0;
    for place in (0..tokens.len()).rev() {
        match symbol_at(tokens, place) {
            Symbol::Close | Symbol::CloseList => closed = closed.saturating_add(1),
            Symbol::Open | Symbol::OpenList if closed == 0 => return Some(place),
            Symbol::Open | Symbol::OpenList => closed = closed.saturating_sub(1),
            _ => {}
        }
    }
    None
}

/// What is said of an item that no `.` ends.
pub fn explain_unended(alloc: Global, tokens: &[Token<'_>]) -> Message {
    let start = span_at(tokens, tokens.len().saturating_sub(1)).end;
    let end = start.saturating_add(1);
    let mut message = Message::new(alloc, Span { start, end });
    message.say_text("the text ends before the item's `.`");
    message.label_text("a `.` is missing here");
    note_begin(&mut message, tokens);
    if let Some(place) = last_open(tokens) {
        message.note(
            "a `@` of line @ is not closed",
            &[
                Piece::Text(text_at(tokens, place)),
                Piece::Number(line_at(tokens, place)),
            ],
        );
    }
    message
}
