//! A text that grows by pieces, and words that are numbers.

use ap_defs::memory::Memory;
use ap_defs::terms::{Name, Var};
use std::alloc::Global;
use std::io::{self, ErrorKind, Write};

/// A text that grows by pieces. Where a piece can't be added, or what was to be told can't be, that is lost, and it is kept
/// why the first was. A text is handed out as one alone from which nothing was lost.
#[derive(Drop)]
pub struct Spelling {
    alloc: Global,
    text: String,
    loss: Option<ErrorKind>,
}

impl Spelling {
    /// A text in which nothing is spelled yet. It takes no memory.
    pub fn new(alloc: Global) -> Spelling {
        Spelling {
            alloc,
            text: String::new(alloc),
            loss: None,
        }
    }

    /// Its allocator.
    pub fn alloc(&self) -> Global {
        self.alloc
    }

    /// How many bytes are spelled.
    pub fn len(&self) -> usize {
        self.text.len()
    }

    /// What is spelled, if nothing was lost of it.
    pub fn whole(self) -> Result<String, Memory> {
        let Spelling {
            alloc: _,
            text,
            loss,
        } = self;
        match loss {
            None => Ok(text),
            Some(_) => Err(Memory),
        }
    }

    /// What was spelled apart. Where something was lost of it, that is lost here too, and nothing is left of it.
    pub fn taken(&mut self, made: Spelling) -> String {
        let Spelling {
            alloc: _,
            text,
            loss,
        } = made;
        match loss {
            None => text,
            Some(why) => {
                self.lose_by(why);
                String::new(self.alloc)
            }
        }
    }

    /// The text of some pieces, one behind the other. Where memory is wanting for it, it is lost, and empty.
    pub fn joined(&mut self, pieces: &[&str]) -> String {
        let mut made = Spelling::new(self.alloc);
        made.put_all(pieces);
        self.taken(made)
    }

    /// Tells why something was lost.
    pub fn lose_by(&mut self, why: ErrorKind) {
        if self.loss.is_none() {
            self.loss = Some(why);
        }
    }

    /// Tells that something was lost for want of memory.
    pub fn lose(&mut self) {
        self.lose_by(ErrorKind::OutOfMemory);
    }

    /// The number that a word is. Where it is none, that is lost, and 0 stands for it.
    pub fn number(&mut self, word: &str) -> u32 {
        match word.parse::<u32>() {
            Ok(number) => number,
            Err(_) => {
                self.lose_by(ErrorKind::InvalidInput);
                0
            }
        }
    }

    /// The same of a word that may be a longer number.
    pub fn long_number(&mut self, word: &str) -> u64 {
        match word.parse::<u64>() {
            Ok(number) => number,
            Err(_) => {
                self.lose_by(ErrorKind::InvalidInput);
                0
            }
        }
    }

    /// Adds a piece as it stands.
    pub fn put(&mut self, piece: &str) {
        if self.text.push_str(piece).is_err() {
            self.lose();
        }
    }

    /// Adds pieces as they stand.
    pub fn put_all(&mut self, pieces: &[&str]) {
        for piece in pieces {
            self.put(piece);
        }
    }

    /// Adds a character.
    pub fn put_char(&mut self, one: char) {
        if self.text.push(one).is_err() {
            self.lose();
        }
    }

    /// Adds the text that bytes are.
    pub fn put_bytes(&mut self, bytes: &[u8]) {
        match str::from_utf8(bytes) {
            Ok(piece) => self.put(piece),
            Err(_) => self.lose_by(ErrorKind::InvalidData),
        }
    }

    /// Adds a word between quotation marks.
    pub fn put_quoted(&mut self, word: &str) {
        if write!(self.text, "{word:?}").is_err() {
            self.lose();
        }
    }

    /// Adds a number, and what stands behind it.
    pub fn put_number(&mut self, number: u64, end: &str) {
        if write!(self.text, "{number}{end}").is_err() {
            self.lose();
        }
    }

    /// Adds numbers as a list of them is written. This and the next two write what `Debug` does.
    pub fn put_numbers(&mut self, numbers: &[u32]) {
        if write!(self.text, "{numbers:?}").is_err() {
            self.lose();
        }
    }

    /// Adds a name by its numbers.
    pub fn put_name(&mut self, name: Name) {
        if write!(self.text, "{name:?}").is_err() {
            self.lose();
        }
    }

    /// Adds a variable by its number.
    pub fn put_var(&mut self, var: Var) {
        if write!(self.text, "{var:?}").is_err() {
            self.lose();
        }
    }

    /// Writes what is spelled, which is then no longer there.
    pub fn flush<R: Print>(&mut self, rt: &R) {
        if let Err(error) = io::writer(rt).write_all(self.text.as_bytes()) {
            self.lose_by(error.kind());
        }
        self.text.clear();
    }

    /// Writes what is spelled. `Err` where something was lost: why the first was.
    pub fn end<R: Print>(mut self, rt: &R) -> io::Result<()> {
        self.flush(rt);
        match self.loss {
            None => Ok(()),
            Some(why) => Err(why.into()),
        }
    }
}
