//! A table of words that are all different, in order.
ghost use Rattle.std.specs.Prelude.{◌≡◌, ◌<◌, true, [], OnOk, IfSome, IfOk, length, map};
ghost use Rattle.ap_scopes.specs.Marks.{is_table};

use crate::marks::{MARKS, is_word, mark};
use ap_defs::lists::{List, Text};
use ap_defs::memory::Memory;
use indexmap::IndexSet;
use std::alloc::Global;

/// A table of words that are all different; each has the number of its place.
///
/// At the mark of each word stands one more than the place of a word with this mark, so most words are found
/// or missed at one look.
#[derive(Drop)]
pub struct Words<'a> {
    words: IndexSet<&'a str>,
    latest: Vec<usize>,
    ghost marked: { is_table latest.items (map (λ k. k.now) words.keys) ≡ true },
}

impl<'a> Words<'a> {
    ghost use Rattle.ap_scopes.specs.Declarations.{place};
    ghost use Rattle.ap_scopes.specs.Views.{words_in};
    ghost use Rattle.ap_scopes.specs.Words.{with_word};

    /// No words.
    pub fn new(alloc: Global) -> Words<'a>
        ensures { words_in result ≡ [] }
    {
        Words {
            words: IndexSet::new(alloc),
            latest: Vec::new(alloc),
        }
    }

    /// The place of a word that may be at this one.
    #[tactic(auto, using(crate::proofs::MarkLemmas::found_there))]
    fn place_near(&self, word: &str, near: usize) -> Option<usize>
        ensures value { result ≡ place word.now (words_in self.now) }
        ensures within { IfSome result (λ i. i < length (words_in self.now)) }
    {
        let words = self.words.as_slice();
        if let Some(known) = words.get(near) {
            if is_word(known, word) {
                return Some(near);
            }
        }
        self.words.get_index_of(word)
    }

    /// The place of a word.
    #[tactic(auto, using(crate::proofs::MarkLemmas::is_absent))]
    pub fn place(&self, word: &str) -> Option<usize>
        ensures value { result ≡ place word.now (words_in self.now) }
        ensures within { IfSome result (λ i. i < length (words_in self.now)) }
    {
        match self.latest.get(mark(word)) {
            None => None,
            Some(latest) => {
                if *latest == 0 {
                    return None;
                }
                self.place_near(word, *latest - 1)
            }
        }
    }

    /// There is a table of all marks.
    #[tactic(auto, using(crate::proofs::MarkLemmas::table_made))]
    fn make_table(&mut self) -> Result<(), Memory>
        ensures kept { OnOk result (self.new.words ≡ self.old.words) }
        ensures table { OnOk result (length self.new.latest.items ≡ 1024) }
    {
        if self.latest.len() != MARKS {
            self.latest.resize(MARKS, 0)?;
        }
        Ok(())
    }

    /// A word is put behind the others, unless it is there.
    #[tactic(auto, using(crate::proofs::MarkLemmas::table_put))]
    fn put(&mut self, word: &'a str) -> Result<(), Memory>
        requires { length self.old.latest.items ≡ 1024 }
        ensures { OnOk result (words_in self.new ≡ with_word (words_in self.old) word.entry.now) }
    {
        let place = self.words.len();
        self.words.insert(word)?;
        self.latest[mark(word)] = place + 1;
        Ok(())
    }

    /// A word is put behind the others, unless it is there. `Err` is want of memory.
    #[tactic(auto, using(crate::proofs::MarkLemmas::with_known))]
    pub fn add(&mut self, word: &'a str) -> Result<(), Memory>
        ensures { OnOk result (words_in self.new ≡ with_word (words_in self.old) word.entry.now) }
    {
        match self.place(word) {
            Some(_) => Ok(()),
            None => {
                self.make_table()?;
                self.put(word)
            }
        }
    }

    /// Copies of the words. `Err` is want of memory.
    pub fn texts(&self, alloc: Global) -> Result<List<Text>, Memory>
        ensures { IfOk result (λ ts. ts ≡ words_in self.now) }
    {
        let mut texts = Vec::new(alloc);
        for word in self.words.as_slice() {
            texts.push(Text::of(String::from_str(alloc, word)?))?;
        }
        Ok(List::of(texts))
    }
}
