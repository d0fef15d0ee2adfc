//! The bound names of a text, by how terms are written: a name with `\` behind it binds as far as the
//! parentheses, brackets, commas and bars round it let its body reach.
//!
//! Each name of a derivation is spelled in its own way, so a name is told by its spelling.

ghost use Rattle.std.specs.Prelude.{◌≡◌, ◌<◌, ◌≤◌, length, IfOk};

use crate::steps::{Mark, Phrase};
use ap_defs::lists::List;
use ap_defs::memory::Memory;
use std::alloc::Global;

/// How many colours there are.
const COLOURS: u32 = 8;

/// A name is sought among so many binders, the innermost first, so that the time is linear.
const BINDERS_SEEN: usize = 256;

/// A name that binds, how many parentheses and brackets it stands in, and its colour.
#[derive(Clone, Copy)]
struct Binder<'a> {
    word: &'a [u8],
    depth: usize,
    colour: u32,
}

/// The binders round a place of a text, how many parentheses and brackets stand round it, the colour of the
/// last binder, how many bytes were passed since the last mark, and the marks so far.
#[derive(Drop)]
struct Marking<'a> {
    binders: Vec<Binder<'a>>,
    depth: usize,
    colour: u32,
    passed: usize,
    marks: Vec<Mark>,
}

/// Whether a byte belongs to a word.
fn is_word_byte(byte: u8) -> bool {
    !matches!(
        byte,
        b'(' | b')' | b'[' | b']' | b',' | b'|' | b'\\' | b'#' | b'=' | b' '
    )
}

/// How long the word at the beginning of a text is.
fn word_length(text: &[u8]) -> usize
    ensures { result ≤ length text.now }
{
    for (place, byte) in text.iter().enumerate() {
        if !is_word_byte(*byte) {
            return place;
        }
    }
    text.len()
}

impl<'a> Marking<'a> {
    /// The beginning of a text.
    fn new(alloc: Global) -> Marking<'a> {
        Marking {
            binders: Vec::new(alloc),
            depth: 0,
            colour: 0,
            passed: 0,
            marks: Vec::new(alloc),
        }
    }

    /// How many binders stand in fewer parentheses.
    fn outer_binders(&self) -> usize {
        let binders = self.binders.as_slice();
        for i in (0..binders.len()).rev() {
            if binders[i].depth < self.depth {
                return i + 1;
            }
        }
        0
    }

    /// The bodies of the binders that stand in as many parentheses end here.
    fn end_bodies(&mut self) {
        let count = self.outer_binders();
        self.binders.truncate(count);
    }

    /// Passes a byte that belongs to no word.
    fn pass_sign(&mut self, byte: u8) {
        match byte {
            b'(' | b'[' => self.depth = self.depth.saturating_add(1),
            b')' | b']' => {
                self.end_bodies();
                self.depth = self.depth.saturating_sub(1);
            }
            b',' | b'|' | b' ' => self.end_bodies(),
            _ => {}
        }
        self.passed = self.passed.saturating_add(1);
    }

    /// The colour of a name, by its binder, or 0, where none is round it.
    fn colour_of(&self, word: &[u8]) -> u32 {
        let binders = self.binders.as_slice();
        let first = binders.len().saturating_sub(BINDERS_SEEN);
        for i in (first..binders.len()).rev() {
            if binders[i].word == word {
                return binders[i].colour;
            }
        }
        0
    }

    /// A name binds from here on. It gets the next colour.
    fn bind(&mut self, word: &'a [u8]) -> Result<u32, Memory> {
        let colour = self.colour % COLOURS + 1;
        let depth = self.depth;
        self.binders.push(Binder {
            word,
            depth,
            colour,
        })?;
        self.colour = colour;
        Ok(colour)
    }

    /// What was passed since the last mark isn't coloured.
    fn mark_passed(&mut self) -> Result<(), Memory> {
        if self.passed != 0 {
            self.marks.push(Mark {
                length: self.passed,
                colour: 0,
            })?;
            self.passed = 0;
        }
        Ok(())
    }

    /// Passes a word, which binds or doesn't.
    fn pass_word(&mut self, word: &'a [u8], binds: bool) -> Result<(), Memory> {
        let colour = if binds {
            self.bind(word)?
        } else {
            self.colour_of(word)
        };
        if colour == 0 {
            self.passed = self.passed.saturating_add(word.len());
            return Ok(());
        }
        self.mark_passed()?;
        self.marks.push(Mark {
            length: word.len(),
            colour,
        })?;
        Ok(())
    }

    /// Passes the word or the sign at the beginning of a text, and gives what is behind it.
    fn pass(&mut self, text: &'a [u8]) -> Result<&'a [u8], Memory>
        requires { 0 < length text.now }
        ensures { IfOk result (λ rest. length rest.now < length text.now) }
    {
        let count = word_length(text);
        if count == 0 {
            self.pass_sign(text[0]);
            return Ok(&text[1..]);
        }
        let (word, rest) = text.split_at(count);
        let binds = rest.first() == Some(&b'\\');
        self.pass_word(word, binds)?;
        Ok(rest)
    }
}

/// The marks of the bound names of a text.
fn marks_of(alloc: Global, text: &[u8]) -> Result<Vec<Mark>, Memory> {
    let mut marking = Marking::new(alloc);
    let mut rest = text;
    'passing: while !rest.is_empty() {
        rest = marking.pass(rest)?;
    }
    let Marking { marks, .. } = marking;
    Ok(marks)
}

/// A text with its bound names marked.
pub fn phrase_of(alloc: Global, text: Vec<u8>) -> Result<Phrase, Memory>
    ensures { IfOk result (λ phrase. phrase.text ≡ text.items) }
{
    let marks = marks_of(alloc, text.as_slice())?;
    Ok(Phrase {
        text: List::of(text),
        marks: List::of(marks),
    })
}
