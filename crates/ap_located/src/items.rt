//! The tokens of each item.
ghost use Rattle.std.specs.Prelude.{◌≡◌};

use crate::spots::Span;
use crate::symbols::{Symbol, symbol_at, symbol_of};
use ap_defs::memory::Memory;
use ap_lexer::Token;
use std::alloc::Global;

/// The tokens of an item: the places of its first and of its `.`, or of the end of the text.
#[derive(Clone, Copy)]
pub struct Range {
    pub first: usize,
    pub end: usize,
}

/// The items of tokens. The last may have no `.`.
pub fn ranges_of(alloc: Global, tokens: &[Token<'_>]) -> Result<Vec<Range>, Memory> {
    let mut ranges = Vec::new(alloc);
    let mut first = 0;
    for (place, token) in tokens.iter().enumerate() {
        if matches!(symbol_of(token), Symbol::Dot) {
            ranges.push(Range { first, end: place })?;
            first = place.saturating_add(1);
        }
    }
    if first < tokens.len() {
        ranges.push(Range {
            first,
            end: tokens.len(),
        })?;
    }
    Ok(ranges)
}

/// The tokens of a range, without the `.`.
pub fn tokens_in<'t, 'a>(tokens: &'t [Token<'a>], range: Range) -> &'t [Token<'a>] {
    if range.first <= range.end && range.end <= tokens.len() {
        &tokens[range.first..range.end]
    } else {
        tokens
    }
}

/// The bytes of a token.
pub fn span_of(token: &Token<'_>) -> Span {
    Span {
        start: token.start as usize,
        end: token.end as usize,
    }
}

/// The bytes from one token to another.
pub fn span_between(tokens: &[Token<'_>], first: usize, last: usize) -> Span {
    let start = span_at(tokens, first);
    let end = span_at(tokens, last);
    Span {
        start: start.start,
        end: end.end,
    }
}

/// The bytes of the token at a place; behind the last one those behind it.
pub fn span_at(tokens: &[Token<'_>], place: usize) -> Span {
    match tokens.get(place) {
        Some(token) => span_of(token),
        None => match tokens.last() {
            Some(token) => {
                let end = token.end as usize;
                Span {
                    start: end,
                    end: end.saturating_add(1),
                }
            }
            None => Span { start: 0, end: 1 },
        },
    }
}

/// The text of the token at a place, or nothing.
pub fn text_at<'a>(tokens: &[Token<'a>], place: usize) -> &'a str {
    match tokens.get(place) {
        Some(token) => token.text,
        None => "",
    }
}

/// The line of the token at a place, or 0.
pub fn line_at(tokens: &[Token<'_>], place: usize) -> u64 {
    match tokens.get(place) {
        Some(token) => token.line,
        None => 0,
    }
}

/// The word that an item declares in one of the spaces, if it declares any: the place of its token.
pub fn declared_word(tokens: &[Token<'_>]) -> Option<(Space, usize)> {
    let colon = symbol_at(tokens, 1);
    match symbol_at(tokens, 0) {
        Symbol::Predicate => Some((Space::Predicates, 1)),
        Symbol::Word if matches!(colon, Symbol::Colon) => match symbol_at(tokens, 2) {
            Symbol::Type | Symbol::NameType => Some((Space::Types, 0)),
            _ => Some((Space::Constructors, 0)),
        },
        _ => None,
    }
}

/// The spaces of words, in each of which a word is declared once.
#[derive(Clone, Copy, PartialEq, Eq)]
pub enum Space {
    Types,
    Constructors,
    Predicates,
}
