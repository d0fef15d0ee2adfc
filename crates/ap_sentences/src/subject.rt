//! A text with a faulty item, and what the items before that declare.
ghost use Rattle.std.specs.Prelude.{◌≡◌};

use crate::declared::Entry;
use ap_lexer::Token;
use ap_located::characters::valid_front;
use ap_located::items::{Range, Space, declared_word, line_at, span_between, text_at, tokens_in};
use ap_located::messages::{Message, Piece};
use ap_located::nearest::Nearest;

/// Other words than so many are not compared with a misspelt one.
pub const COMPARED: usize = 20_000;

/// The bytes of a declaration that are looked at, at most.
const SHOWN: usize = 400;

/// A text, its tokens, its items, and which of these is faulty, by its place.
#[derive(Clone, Copy)]
pub struct Subject<'t, 'a> {
    pub text: &'t [u8],
    pub tokens: &'t [Token<'a>],
    pub ranges: &'t [Range],
    pub item: usize,
}

/// What a space has words of.
pub fn space_word(space: Space) -> &'static str {
    match space {
        Space::Types => "type",
        Space::Constructors => "constructor",
        Space::Predicates => "predicate",
    }
}

/// The declaration of a word, as it is written in the text.
fn declaration<'t>(subject: Subject<'t, '_>, item: Range) -> &'t str {
    let span = span_between(subject.tokens, item.first, item.end.saturating_sub(1));
    let bytes = subject.text.get(span.start..span.end).unwrap_or(&[]);
    valid_front(bytes.get(..SHOWN).unwrap_or(bytes))
}

/// Notes that another word may be meant.
pub fn note_meant(message: &mut Message, word: &str) {
    message.note("is `@` meant?", &[Piece::Word(word)]);
}

/// Says where a word is declared.
pub fn say_declared<'x>(message: &mut Message, subject: Subject<'x, '_>, entry: Entry<'x>) {
    message.say(
        "`@` is declared in line @: `@`",
        &[
            Piece::Word(entry.word),
            Piece::Number(entry.line),
            Piece::Word(declaration(subject, entry.item)),
        ],
    );
}

/// Notes where a word is declared.
pub fn note_declared(message: &mut Message, subject: Subject<'_, '_>, entry: Entry<'_>) {
    message.note_text("");
    say_declared(message, subject, entry);
}

/// The declared word that is spelled most like a word.
pub fn nearest_entry<'a>(entries: &[Entry<'a>], word: &'a str) -> Option<&'a str> {
    let mut nearest = Nearest::new(word);
    for (count, entry) in entries.iter().enumerate() {
        if count >= COMPARED {
            break;
        }
        nearest.compare(entry.word);
    }
    nearest.found()
}

/// The line in which an item declares a word, if it does.
fn line_of(part: &[Token<'_>], space: Space, word: &str) -> Option<u64> {
    let (found, at) = declared_word(part)?;
    if found == space && text_at(part, at) == word {
        Some(line_at(part, 0))
    } else {
        None
    }
}

/// The line in which a later item declares a word.
pub fn later_line(subject: Subject<'_, '_>, space: Space, word: &str) -> Option<u64> {
    for (place, range) in subject.ranges.iter().enumerate() {
        if place > subject.item {
            let line = line_of(tokens_in(subject.tokens, *range), space, word);
            if line.is_some() {
                return line;
            }
        }
    }
    None
}
