//! The tokens of a text that has a program, as far as warnings need them.
//!
//! Such a text has no fault, so a word goes on up to the next byte that is a sign or white space, or begins a comment.
ghost use Rattle.std.specs.Prelude.{◌≡◌};

use ap_defs::memory::Memory;
use std::alloc::Global;

/// What a token is.
#[derive(Clone, Copy)]
pub(crate) enum Kind {
    /// An identifier, or a word that stands in declarations alone.
    Word,
    Variable,
    /// `pred`
    Predicate,
    /// `new` or `exists`
    Binder,
    /// `swap`
    Swap,
    /// `(`
    Open,
    /// `[`
    OpenList,
    /// `)`
    Close,
    /// `]`
    CloseList,
    /// `,`
    Comma,
    /// `.`
    Dot,
    /// `:`
    Colon,
    /// `;`, `:-` or `?-`, behind which a goal comes.
    Goal,
    /// `=` or `#`, which stands between the two terms of a goal.
    Test,
    /// `\`
    Lambda,
    /// Any other sign.
    Other,
}

/// A token: what it is, its first byte and the byte behind it, of which a text has at most 16,777,216.
#[derive(Clone, Copy)]
pub(crate) struct Mark {
    pub kind: Kind,
    start: u32,
    end: u32,
}

/// A place in a text, or behind the last byte that one may have; also how many of a thing there are in it.
pub(crate) fn narrowed(place: usize) -> u32 {
    if place < 16_777_216 {
        place as u32
    } else {
        16_777_216
    }
}

impl Mark {
    fn of(kind: Kind, start: usize, end: usize) -> Mark {
        Mark {
            kind,
            start: narrowed(start),
            end: narrowed(end),
        }
    }

    /// The place of its first byte.
    pub(crate) fn start(self) -> usize {
        self.start as usize
    }

    /// The place of the byte behind it.
    pub(crate) fn end(self) -> usize {
        self.end as usize
    }
}

/// What a byte is by itself.
#[derive(Clone, Copy)]
enum Class {
    /// A part of a word.
    Word,
    Blank,
    /// `%`
    Comment,
    /// `-`, the end of a sign of two bytes, or its middle.
    Dash,
    Sign(Kind),
}

fn class_of(byte: u8) -> Class {
    match byte {
        b' ' | b'\t' | b'\r' | b'\n' => Class::Blank,
        b'%' => Class::Comment,
        b'-' => Class::Dash,
        b'(' => Class::Sign(Kind::Open),
        b')' => Class::Sign(Kind::Close),
        b'[' => Class::Sign(Kind::OpenList),
        b']' => Class::Sign(Kind::CloseList),
        b',' => Class::Sign(Kind::Comma),
        b'.' => Class::Sign(Kind::Dot),
        b':' => Class::Sign(Kind::Colon),
        b';' => Class::Sign(Kind::Goal),
        b'=' | b'#' => Class::Sign(Kind::Test),
        b'\\' => Class::Sign(Kind::Lambda),
        b'?' | b'|' | b'>' => Class::Sign(Kind::Other),
        _ => Class::Word,
    }
}

/// Whether a byte is a letter or a digit of ASCII or `_`, as nearly all bytes of words are.
fn is_plain(byte: u8) -> bool {
    byte.is_ascii_alphanumeric() || byte == b'_'
}

/// What a word is.
fn word_kind(word: &[u8]) -> Kind {
    match word {
        [b'_', ..] => Kind::Variable,
        [first, ..] if first.is_ascii_uppercase() => Kind::Variable,
        [b'n', b'e', b'w'] => Kind::Binder,
        [b's', b'w', b'a', b'p'] => Kind::Swap,
        [b'p', b'r', b'e', b'd'] => Kind::Predicate,
        [b'e', b'x', b'i', b's', b't', b's'] => Kind::Binder,
        _ => Kind::Word,
    }
}

/// The place of the first byte from one on that is no part of a word, or the end of the text.
fn word_end(bytes: &[u8], start: usize) -> usize {
    let mut end = start;
    for byte in bytes.get(start..).unwrap_or(&[]) {
        if !is_plain(*byte) && !matches!(class_of(*byte), Class::Word) {
            return end;
        }
        end = end.saturating_add(1);
    }
    end
}

/// The place of the first end of a line from a place on, or the end of the text.
fn line_end(bytes: &[u8], start: usize) -> usize {
    let mut end = start;
    for byte in bytes.get(start..).unwrap_or(&[]) {
        if *byte == b'\n' {
            return end;
        }
        end = end.saturating_add(1);
    }
    end
}

/// The place of the first byte from one on that is no comma, bar or white space, nor of a word that doesn't begin with a
/// capital letter. Before it, in a list, no token stands that is looked at.
fn unseen_end(bytes: &[u8], start: usize) -> usize {
    let mut end = start;
    let mut in_word = false;
    for byte in bytes.get(start..).unwrap_or(&[]) {
        match *byte {
            b',' | b'|' | b' ' | b'\t' | b'\r' | b'\n' => in_word = false,
            b'a'..=b'z' | b'0'..=b'9' | b'_' => in_word = true,
            b'A'..=b'Z' if in_word => {}
            _ => return end,
        }
        end = end.saturating_add(1);
    }
    end
}

/// Whether a token is looked at that stands in a list behind its first one: a parenthesis, a binder, or a variable that
/// may stand once. Brackets of lists in such a place are left out with what closes them.
fn counts_in_list(kind: Kind) -> bool {
    !matches!(kind, Kind::Word | Kind::Comma | Kind::Other)
}

/// What finds the tokens of one item after another, each at once. Of what stands in a list it keeps no more than
/// warnings look at: the first token, parentheses, and variables that may stand once.
#[derive(Drop)]
pub(crate) struct Scanner<'t> {
    bytes: &'t [u8],
    // the tokens of the item that are kept, without its `.`
    marks: Vec<Mark>,
    // how many lists are open, and of how many of these, the outermost ones, the brackets are kept
    lists: usize,
    kept: usize,
}

impl<'t> Scanner<'t> {
    /// Before the first item.
    pub(crate) fn of(alloc: Global, text: &'t str) -> Scanner<'t> {
        Scanner {
            bytes: text.as_bytes(),
            marks: Vec::new(alloc),
            lists: 0,
            kept: 0,
        }
    }

    /// The tokens of the item that were found.
    pub(crate) fn marks(&self) -> &[Mark] {
        self.marks.as_slice()
    }

    /// Forgets the item.
    pub(crate) fn begin_item(&mut self) {
        self.marks.clear();
        self.lists = 0;
        self.kept = 0;
    }

    /// Whether a token that is not looked at is left out: it stands in a list, and isn't its first one, or in a list that
    /// stands in another.
    fn is_behind_in_list(&self) -> bool {
        if self.lists != 1 {
            return self.lists > 1;
        }
        match self.marks.last() {
            Some(last) => !matches!(last.kind, Kind::OpenList),
            None => false,
        }
    }

    /// Keeps a sign.
    fn keep_sign(&mut self, kind: Kind, place: usize) -> Result<(), Memory> {
        let behind = self.is_behind_in_list();
        match kind {
            Kind::OpenList => {
                self.lists = self.lists.saturating_add(1);
                if behind {
                    return Ok(());
                }
                self.kept = self.kept.saturating_add(1);
            }
            Kind::CloseList => {
                self.lists = self.lists.saturating_sub(1);
                if self.lists >= self.kept {
                    return Ok(());
                }
                self.kept = self.kept.saturating_sub(1);
            }
            _ => {}
        }
        if counts_in_list(kind) || !behind {
            self.marks
                .push(Mark::of(kind, place, place.saturating_add(1)))?;
        }
        Ok(())
    }

    /// Takes the word that begins at a place, and gives the place behind it.
    fn take_word(&mut self, start: usize) -> Result<usize, Memory> {
        let end = word_end(self.bytes, start);
        let word = self.bytes.get(start..end).unwrap_or(&[]);
        let kind = word_kind(word);
        let counts = counts_in_list(kind) && !matches!(word, [b'_', ..]);
        if counts || !self.is_behind_in_list() {
            self.marks.push(Mark::of(kind, start, end))?;
        }
        Ok(end)
    }

    /// Makes the sign that ends before a `-` one that has a goal behind it: it is `:` or `?`, unless the `-` begins `->`.
    fn take_dash(&mut self, place: usize) {
        if let Some(last) = self.marks.last_mut() {
            if last.end() == place && matches!(last.kind, Kind::Colon | Kind::Other) {
                last.kind = Kind::Goal;
            }
        }
    }

    /// Takes what begins at a place, and gives the place behind it, or none where it is the `.` of the item.
    pub(crate) fn take(&mut self, place: usize) -> Result<Option<usize>, Memory> {
        if self.is_behind_in_list() {
            let end = unseen_end(self.bytes, place);
            if end > place {
                return Ok(Some(end));
            }
        }
        let next = place.saturating_add(1);
        let byte = self.bytes.get(place).copied().unwrap_or(b' ');
        if is_plain(byte) {
            return Ok(Some(self.take_word(place)?));
        }
        match class_of(byte) {
            Class::Word => return Ok(Some(self.take_word(place)?)),
            Class::Comment => return Ok(Some(line_end(self.bytes, next))),
            Class::Sign(Kind::Dot) => return Ok(None),
            Class::Sign(kind) => self.keep_sign(kind, place)?,
            Class::Dash => self.take_dash(place),
            Class::Blank => {}
        }
        Ok(Some(next))
    }

    /// Finds the tokens of the item that begins at a place, up to its `.`.
    pub(crate) fn find(&mut self, start: usize) -> Result<(), Memory> {
        self.begin_item();
        let mut next = start;
        for place in start..self.bytes.len() {
            if place >= next {
                match self.take(place)? {
                    Some(behind) => next = behind,
                    None => return Ok(()),
                }
            }
        }
        Ok(())
    }
}

/// What the token at a place is.
pub(crate) fn kind_at(marks: &[Mark], place: usize) -> Kind {
    match marks.get(place) {
        Some(mark) => mark.kind,
        None => Kind::Other,
    }
}

/// The text of the token at a place, or nothing.
pub(crate) fn text_at<'t>(text: &'t str, marks: &[Mark], place: usize) -> &'t str {
    match marks.get(place) {
        Some(mark) => text.get(mark.start()..mark.end()).unwrap_or(""),
        None => "",
    }
}
