//! Where a byte of a text stands, and the line round it as it is shown.
ghost use Rattle.std.specs.Prelude.{◌≡◌};

use ap_defs::memory::Memory;
use std::alloc::{AllocError, Global};
use unicode_width::UnicodeWidthChar;

/// The columns of a line that are shown before a place, at most.
const BEFORE: usize = 120;

/// The columns of a line that are shown, at most.
const SHOWN: usize = 200;

/// The characters of a word that are shown, at most.
const LONGEST: usize = 60;

/// The bytes that so many columns may take, at most, where no characters without width stand between.
const WINDOW: usize = 1600;

/// A line and a column, both from 1. The column counts characters.
#[derive(Clone, Copy)]
pub struct Spot {
    pub line: usize,
    pub column: usize,
}

/// Some bytes of a text that follow one another.
#[derive(Clone, Copy)]
pub struct Span {
    pub start: usize,
    pub end: usize,
}

/// Whether a byte begins a character.
fn begins_character(byte: u8) -> bool {
    byte & 0xC0 != 0x80
}

/// The bytes before a place.
fn front(text: &[u8], place: usize) -> &[u8] {
    text.get(..place).unwrap_or(text)
}

/// Where the line of a place begins.
fn line_start(text: &[u8], place: usize) -> usize {
    let mut start = 0;
    for (at, byte) in front(text, place).iter().enumerate() {
        if *byte == b'\n' {
            start = at.saturating_add(1);
        }
    }
    start
}

fn count_lines(text: &[u8]) -> usize {
    let mut count: usize = 0;
    for byte in text {
        if *byte == b'\n' {
            count = count.saturating_add(1);
        }
    }
    count
}

fn count_characters(text: &[u8]) -> usize {
    let mut count: usize = 0;
    for byte in text {
        if begins_character(*byte) {
            count = count.saturating_add(1);
        }
    }
    count
}

/// The line and the column of a place of a text.
pub fn spot_of(text: &[u8], place: usize) -> Spot {
    let start = line_start(text, place);
    let line = text.get(start..place).unwrap_or(&[]);
    Spot {
        line: count_lines(front(text, place)).saturating_add(1),
        column: count_characters(line).saturating_add(1),
    }
}

/// Where what is shown begins: the line's begin, or so many characters before the place.
fn window_start(text: &[u8], place: usize) -> usize {
    let start = line_start(text, place);
    let mut seen: usize = 0;
    for back in 1..WINDOW {
        let at = place.saturating_sub(back);
        if at <= start {
            return start;
        }
        if begins_character(text.get(at).copied().unwrap_or(0)) {
            seen = seen.saturating_add(1);
        }
        if seen >= BEFORE {
            return at;
        }
    }
    place
}

/// The bytes of the line from a place on, as many as may be shown.
fn window(text: &[u8], start: usize) -> &[u8] {
    let rest = text.get(start..).unwrap_or(&[]);
    let cut = rest.get(..WINDOW).unwrap_or(rest);
    for (at, byte) in cut.iter().enumerate() {
        if *byte == b'\n' {
            return cut.get(..at).unwrap_or(cut);
        }
    }
    cut
}

// The characters that have no shape of their own or change the order of others: from each first to its last.
const HIDDEN: [(char, char); 10] = [
    ('\u{0}', '\u{1F}'),
    ('\u{7F}', '\u{9F}'),
    ('\u{AD}', '\u{AD}'),
    ('\u{61C}', '\u{61C}'),
    ('\u{200B}', '\u{200F}'),
    ('\u{2028}', '\u{202E}'),
    ('\u{2060}', '\u{206F}'),
    ('\u{FEFF}', '\u{FEFF}'),
    ('\u{FFF9}', '\u{FFFB}'),
    ('\u{E0000}', '\u{E0FFF}'),
];

fn is_hidden(c: char) -> bool {
    for (first, last) in &HIDDEN {
        if *first <= c && c <= *last {
            return true;
        }
    }
    false
}

/// What is shown for a character: itself, a space for white space, and a sign in place of what has no
/// shape of its own or changes the order of others.
fn visible(c: char) -> char {
    match c {
        '\t' | '\r' | '\n' => ' ',
        _ if is_hidden(c) => '\u{FFFD}',
        _ => c,
    }
}

/// The columns that a character takes.
fn width(c: char) -> usize {
    c.width().unwrap_or(1).min(2)
}

/// Adds a word without control characters, with two dots where it is cut.
pub fn push_word(out: &mut String, word: &str) -> Result<(), AllocError> {
    for (count, c) in word.chars().enumerate() {
        if count >= LONGEST {
            return out.push_str("..");
        }
        out.push(visible(c))?;
    }
    Ok(())
}

/// A line as it is shown, and below it the marks of a span.
#[derive(Drop)]
pub struct Excerpt {
    pub line: String,
    pub marks: String,
    columns: usize,
    marked: bool,
}

impl Excerpt {
    /// The mark below a character that stands at a place of the text, if any.
    fn mark_at(&self, place: usize, span: Span) -> Option<char> {
        if place < span.start {
            Some(' ')
        } else if place < span.end || !self.marked {
            Some('^')
        } else {
            None
        }
    }

    fn add_marks(&mut self, mark: char, wide: usize) -> Result<(), Memory> {
        for _ in 0..wide {
            self.marks.push(mark)?;
            self.marked = mark == '^';
        }
        Ok(())
    }

    /// Adds a character that stands at a place of the text, if there is room for it.
    fn add(&mut self, c: char, place: usize, span: Span) -> Result<(), Memory> {
        let c = visible(c);
        let wide = width(c);
        self.columns = self.columns.saturating_add(wide);
        if self.columns > SHOWN {
            return Ok(());
        }
        self.line.push(c)?;
        match self.mark_at(place, span) {
            Some(mark) => self.add_marks(mark, wide),
            None => Ok(()),
        }
    }

    /// Adds the characters of a line from a place of the text on.
    fn add_all(&mut self, line: &str, start: usize, span: Span) -> Result<(), Memory> {
        for (at, c) in line.char_indices() {
            self.add(c, start.saturating_add(at), span)?;
        }
        if !self.marked {
            self.marks.push('^')?;
        }
        Ok(())
    }
}

/// The line of a span's begin, cut to 200 columns, with the span marked.
pub fn excerpt_of(alloc: Global, text: &[u8], span: Span) -> Result<Excerpt, Memory> {
    let start = window_start(text, span.start);
    let line = String::from_utf8_lossy(alloc, window(text, start))?;
    let mut out = Excerpt {
        line: String::new(alloc),
        marks: String::new(alloc),
        columns: 0,
        marked: false,
    };
    out.add_all(line.as_str(), start, span)?;
    Ok(out)
}
