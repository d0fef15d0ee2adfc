//! What is said where no token begins.
ghost use Rattle.std.specs.Prelude.{◌≡◌};

use crate::messages::{Message, Piece};
use crate::spots::Span;
use std::alloc::Global;
use unicode_ident::{is_xid_continue, is_xid_start};

/// The bytes of the line with a number, without its end.
fn line_span(text: &[u8], line: u64) -> Span {
    let mut start = 0;
    let mut number: u64 = 1;
    for (place, byte) in text.iter().enumerate() {
        if *byte == b'\n' {
            if number == line {
                return Span { start, end: place };
            }
            number = number.saturating_add(1);
            start = place.saturating_add(1);
        }
    }
    Span {
        start,
        end: text.len(),
    }
}

/// The longest front that is UTF-8.
pub fn valid_front(bytes: &[u8]) -> &str {
    match std::str::from_utf8(bytes) {
        Ok(text) => text,
        Err(error) => match std::str::from_utf8(bytes.get(..error.valid_up_to()).unwrap_or(&[])) {
            Ok(text) => text,
            Err(_) => "",
        },
    }
}

/// What stands before a character.
#[derive(Clone, Copy)]
enum Before {
    Nothing,
    Word,
    /// A sign that another may follow.
    Sign(char),
}

// The signs of one character that no other goes on with.
const SIGNS: [char; 11] = ['.', ',', ';', '(', ')', '[', ']', '|', '\\', '#', '='];

// What is between tokens.
const SPACES: [char; 4] = [' ', '\t', '\r', '\n'];

fn is_one_of(c: char, characters: &[char]) -> bool {
    for one in characters {
        if *one == c {
            return true;
        }
    }
    false
}

/// Whether a character ends the sign that stands before it.
fn ends_sign(sign: char, c: char) -> bool {
    if c == '-' {
        sign == ':' || sign == '?'
    } else {
        sign == '-' && c == '>'
    }
}

/// Whether a character may begin a sign of two.
fn begins_sign(c: char, after: Option<char>) -> bool {
    match c {
        ':' => true,
        '?' => after == Some('-'),
        '-' => after == Some('>'),
        _ => false,
    }
}

/// What stands before the next character, or `None` where this one begins no token.
fn next(before: Before, c: char, after: Option<char>) -> Option<Before> {
    let is_end = match before {
        Before::Word if is_xid_continue(c) => return Some(Before::Word),
        Before::Sign(sign) => ends_sign(sign, c),
        _ => false,
    };
    if is_end || is_one_of(c, &SPACES) || is_one_of(c, &SIGNS) {
        Some(Before::Nothing)
    } else if begins_sign(c, after) {
        Some(Before::Sign(c))
    } else if c == '_' || is_xid_start(c) {
        Some(Before::Word)
    } else {
        None
    }
}

/// A character that begins no token: its place, itself, and its neighbours.
#[derive(Clone, Copy)]
struct Stray {
    place: usize,
    c: char,
    before: Option<char>,
    after: Option<char>,
}

/// The first character of a line at which no token begins.
fn stray_in(line: &str) -> Option<Stray> {
    let mut state = Before::Nothing;
    let mut before = None;
    for (place, c) in line.char_indices() {
        let rest = line.get(place.saturating_add(c.len_utf8())..).unwrap_or("");
        let after = rest.chars().next();
        if c == '%' {
            return None;
        }
        match next(state, c, after) {
            Some(next) => state = next,
            None => {
                return Some(Stray {
                    place,
                    c,
                    before,
                    after,
                });
            }
        }
        before = Some(c);
    }
    None
}

// What is said of the characters from one to another.
type Said = (char, char, &'static str);

const NO_WIDTH: &str = "a character without width";

const DIRECTION: &str = "a mark of the writing direction";

const CONTROL: &str = "a control character";

// What characters are called whose shape doesn't show it.
const NAMES: [Said; 12] = [
    ('\u{FEFF}', '\u{FEFF}', "a byte order mark"),
    ('\u{A0}', '\u{A0}', "a space that allows no break"),
    ('\u{200B}', '\u{200D}', NO_WIDTH),
    ('\u{2060}', '\u{2060}', NO_WIDTH),
    ('\u{2028}', '\u{2029}', "a separator of lines"),
    ('\u{61C}', '\u{61C}', DIRECTION),
    ('\u{200E}', '\u{200F}', DIRECTION),
    ('\u{202A}', '\u{202E}', DIRECTION),
    ('\u{2066}', '\u{2069}', DIRECTION),
    ('\u{300}', '\u{36F}', "an accent without a letter before it"),
    ('\u{0}', '\u{1F}', CONTROL),
    ('\u{7F}', '\u{9F}', CONTROL),
];

/// What a table says of a character.
fn said_of(table: &[Said], c: char) -> Option<&'static str> {
    for (first, last, said) in table {
        if *first <= c && c <= *last {
            return Some(*said);
        }
    }
    None
}

const COMMENT: &str = "a comment begins with `%` and goes to the end of the line";

const NEGATION: &str =
    "there is no negation: that a name is not in a term is `a # t`; else write a predicate for the contrary";

/// What is meant by signs of other languages that have two characters.
fn pair_advice(stray: Stray) -> Option<&'static str> {
    match (stray.c, stray.before, stray.after) {
        ('+', Some('\\'), _) => Some(NEGATION),
        ('/', _, Some('*' | '/')) | ('-', _, Some('-')) => Some(COMMENT),
        ('<', _, Some('-')) => Some("a clause is written `head :- goals.`"),
        _ => None,
    }
}

const NUMBERS: &str =
    "there are no numbers: declare `nat : type.`, `z : nat.`, `s : nat -> nat.` and write `s(z)`";

const QUOTES: &str =
    "there are no quoted words: a word begins with a letter and goes on with letters, digits and `_`";

const CUT: &str =
    "there is no cut: clauses are tried in order, and each that fits counts; say in each when it holds";

const ARITHMETIC: &str =
    "there is no arithmetic: write predicates over constructors such as `z` and `s(t)`";

const BRACKETS: &str = "brackets are `(` and `)`, and `[` and `]` for lists";

// What is not in the language where a character stands, and what to write.
const ADVICE: [Said; 19] = [
    ('0', '9', NUMBERS),
    (
        '"',
        '"',
        "there are no strings: declare constructors for what they stand for",
    ),
    ('\'', '\'', QUOTES),
    ('`', '`', QUOTES),
    ('!', '!', CUT),
    ('&', '&', "goals that must all hold stand with `,` between"),
    ('*', '+', ARITHMETIC),
    ('-', '-', ARITHMETIC),
    ('/', '/', ARITHMETIC),
    ('<', '<', ARITHMETIC),
    ('>', '>', ARITHMETIC),
    ('^', '^', ARITHMETIC),
    ('{', '{', BRACKETS),
    ('}', '}', BRACKETS),
    ('~', '~', NEGATION),
    ('?', '?', "a query begins with `?-`"),
    (
        '\u{2018}',
        '\u{201F}',
        "there are no strings and no quoted words",
    ),
    ('\u{FEFF}', '\u{FEFF}', "save the text without it"),
    ('\u{A0}', '\u{A0}', "write a plain space"),
];

// What helps with each other character.
const TOKENS: &str = "what a text may hold stands in docs/LANGUAGE.md, under `Tokens`";

/// What helps with a character in this line.
fn stray_note(line: &str, stray: Stray) -> &'static str {
    if line.starts_with('#') {
        return "there is no `include` and there are no modules: all of a program stands in one text";
    }
    match pair_advice(stray) {
        Some(note) => note,
        None => said_of(&ADVICE, stray.c).unwrap_or(TOKENS),
    }
}

fn say_stray(message: &mut Message, c: char, shown: &str) {
    match said_of(&NAMES, c) {
        None => message.say(
            "no token begins with the character `@` (@)",
            &[Piece::Word(shown), Piece::Code(c)],
        ),
        Some(name) => message.say(
            "@ (@) stands where no token begins with it",
            &[Piece::Text(name), Piece::Code(c)],
        ),
    }
}

/// What is said of a stray character of a line that begins at a place of the text.
fn stray_message(alloc: Global, line: &str, start: usize, stray: Stray) -> Message {
    let end = stray.place.saturating_add(stray.c.len_utf8());
    let span = Span {
        start: start.saturating_add(stray.place),
        end: start.saturating_add(end),
    };
    let mut message = Message::new(alloc, span);
    say_stray(
        &mut message,
        stray.c,
        line.get(stray.place..end).unwrap_or(""),
    );
    message.note_text(stray_note(line, stray));
    message
}

/// What is said of the first character of a line at which no token begins.
pub fn explain_character(alloc: Global, text: &[u8], line: u64) -> Message {
    let whole = line_span(text, line);
    let front = valid_front(text.get(whole.start..whole.end).unwrap_or(&[]));
    if let Some(stray) = stray_in(front) {
        return stray_message(alloc, front, whole.start, stray);
    }
    let mut message = Message::new(alloc, whole);
    message.say_text("no token begins here");
    message
}

/// What is said of bytes that are not UTF-8.
pub fn explain_bytes(alloc: Global, text: &[u8]) -> Message {
    let start = valid_front(text).len();
    let end = start.saturating_add(1);
    let mut message = Message::new(alloc, Span { start, end });
    message.say(
        "the byte @ begins no character of UTF-8",
        &[Piece::Byte(text.get(start).copied().unwrap_or(0))],
    );
    message.note_text("save the text in the encoding UTF-8, comments too");
    message
}
