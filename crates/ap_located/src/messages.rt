//! What is said of a place of a text.
ghost use Rattle.std.specs.Prelude.{◌≡◌};

use crate::spots::{Excerpt, Span, Spot, excerpt_of, push_word, spot_of};
use ap_defs::memory::Memory;
use std::alloc::{AllocError, Global};

/// A piece of what is said.
#[derive(Clone, Copy)]
pub enum Piece<'a> {
    /// As it stands.
    Text(&'a str),
    /// A word of the text, without control characters, and cut where it is long.
    Word(&'a str),
    Number(u64),
    /// A character by its code.
    Code(char),
    Byte(u8),
}

/// The parts of a message.
#[derive(Clone, Copy)]
enum Part {
    Sentence,
    Label,
    Note,
}

/// What is said of one place of a text: a sentence, the place that is marked, a label beside the mark, and
/// notes. Where memory is wanting for a piece, that is lost, and the message is not whole.
#[derive(Drop)]
pub struct Message {
    pub span: Span,
    sentence: String,
    label: String,
    // each behind a line feed
    notes: String,
    part: Part,
    is_whole: bool,
}

/// Adds a piece to what is said.
fn add_piece(out: &mut String, piece: Piece<'_>) -> Result<(), AllocError> {
    match piece {
        Piece::Text(text) => out.push_str(text),
        Piece::Word(word) => push_word(out, word),
        Piece::Number(number) => write!(out, "{number}"),
        Piece::Code(c) => {
            let code = c as u32;
            write!(out, "U+{code:04X}")
        }
        Piece::Byte(byte) => write!(out, "{byte} (hexadecimal {byte:02X})"),
    }
}

impl Message {
    /// A message about a place, in which nothing is said yet. It takes no memory.
    pub fn new(alloc: Global, span: Span) -> Message {
        Message {
            span,
            sentence: String::new(alloc),
            label: String::new(alloc),
            notes: String::new(alloc),
            part: Part::Sentence,
            is_whole: true,
        }
    }

    fn add(&mut self, piece: Piece<'_>) -> Result<(), AllocError> {
        match self.part {
            Part::Sentence => add_piece(&mut self.sentence, piece),
            Part::Label => add_piece(&mut self.label, piece),
            Part::Note => add_piece(&mut self.notes, piece),
        }
    }

    fn put(&mut self, piece: Piece<'_>) {
        if self.add(piece).is_err() {
            self.lose();
        }
    }

    /// Goes on with the part that was begun last; at first that is the sentence.
    pub fn say_text(&mut self, text: &str) {
        self.put(Piece::Text(text));
    }

    /// The same with pieces: there is one for each `@` of what is said, which has no `@` of its own.
    pub fn say(&mut self, said: &str, pieces: &[Piece<'_>]) {
        let mut pieces = pieces.iter();
        let mut parts = said.split("@");
        self.put(Piece::Text(parts.next().unwrap_or("")));
        for part in parts {
            self.put(*pieces.next().unwrap_or(&Piece::Text("")));
            self.put(Piece::Text(part));
        }
    }

    /// Begins the label.
    pub fn label_text(&mut self, text: &str) {
        self.part = Part::Label;
        self.say_text(text);
    }

    /// Begins the label, with pieces.
    pub fn label(&mut self, said: &str, pieces: &[Piece<'_>]) {
        self.part = Part::Label;
        self.say(said, pieces);
    }

    /// Begins a note.
    pub fn note_text(&mut self, text: &str) {
        self.part = Part::Note;
        self.put(Piece::Text("\n"));
        self.say_text(text);
    }

    /// Begins a note, with pieces.
    pub fn note(&mut self, said: &str, pieces: &[Piece<'_>]) {
        self.part = Part::Note;
        self.put(Piece::Text("\n"));
        self.say(said, pieces);
    }

    /// Tells that memory was wanting for something that was to be said.
    pub fn lose(&mut self) {
        self.is_whole = false;
    }
}

/// Adds pieces to what is said.
fn add_pieces(out: &mut String, pieces: &[Piece<'_>]) -> Result<(), Memory> {
    for piece in pieces {
        add_piece(out, *piece)?;
    }
    Ok(())
}

// As many spaces as the longest number has digits.
const SPACES: &str = "                    ";

/// As many spaces as a number has digits.
fn margin_of(number: usize) -> &'static str {
    let mut rest = number / 10;
    for digits in 1..SPACES.len() {
        if rest == 0 {
            return SPACES.get(..digits).unwrap_or(SPACES);
        }
        rest /= 10;
    }
    SPACES
}

/// Adds the sentence and the place.
fn add_head<'x>(
    out: &mut String,
    word: &'x str,
    sentence: &'x str,
    spot: Spot,
) -> Result<(), Memory> {
    add_pieces(
        out,
        &[
            Piece::Text(word),
            Piece::Text(": "),
            Piece::Text(sentence),
            Piece::Text("\n  line "),
            Piece::Number(spot.line as u64),
            Piece::Text(", column "),
            Piece::Number(spot.column as u64),
            Piece::Text("\n"),
        ],
    )
}

/// Adds the line with a number and the marks below it, with a label.
fn add_excerpt<'x>(
    out: &mut String,
    number: usize,
    excerpt: &'x Excerpt,
    label: &'x str,
) -> Result<(), Memory> {
    let space = if label.is_empty() { "" } else { " " };
    add_pieces(
        out,
        &[
            Piece::Number(number as u64),
            Piece::Text(" | "),
            Piece::Text(excerpt.line.as_str()),
            Piece::Text("\n"),
            Piece::Text(margin_of(number)),
            Piece::Text(" | "),
            Piece::Text(excerpt.marks.as_str()),
            Piece::Text(space),
            Piece::Text(label),
        ],
    )
}

/// Adds the notes, each of which stands behind a line feed, below a line with a number.
fn add_notes(out: &mut String, number: usize, notes: &str) -> Result<(), Memory> {
    let margin = margin_of(number);
    let mut all = notes.split("\n");
    // Each note stands behind a line feed, and nothing before the first.
    let _nothing = all.next();
    for note in all {
        add_pieces(
            out,
            &[
                Piece::Text("\n"),
                Piece::Text(margin),
                Piece::Text(" = "),
                Piece::Text(note),
            ],
        )?;
    }
    add_piece(out, Piece::Text("\n"))?;
    Ok(())
}

/// Adds a message as it is written, under a word such as `error`. `Err` is want of memory.
pub fn add_message(
    alloc: Global,
    out: &mut String,
    text: &[u8],
    word: &str,
    message: &Message,
) -> Result<(), Memory> {
    if !message.is_whole {
        return Err(Memory);
    }
    let spot = spot_of(text, message.span.start);
    let excerpt = excerpt_of(alloc, text, message.span)?;
    add_head(out, word, message.sentence.as_str(), spot)?;
    add_excerpt(out, spot.line, &excerpt, message.label.as_str())?;
    add_notes(out, spot.line, message.notes.as_str())
}
