//! A table of the numbers of words.
ghost use Rattle.std.specs.Prelude.{◌≡◌, ℕ, List, None, Some, OnOk, if◌then◌else◌};
ghost use Rattle.std.specs.Str.{bytes_eq};
ghost use Rattle.ap_scopes.specs.Declarations.{or_else};
ghost use Rattle.ap_scopes.specs.Views.{number_at};

use ap_defs::memory::Memory;
use indexmap::IndexMap;
use std::alloc::Global;

/// A table of the numbers of words.
#[derive(Drop)]
pub struct Numbers<'a> {
    places: IndexMap<&'a str, u64>,
}

impl<'a> Numbers<'a> {
    /// No word has a number.
    pub fn new(alloc: Global) -> Numbers<'a>
        ensures { (w : List ℕ) → number_at result w ≡ None }
    {
        Numbers {
            places: IndexMap::new(alloc),
        }
    }

    /// The number of a word.
    pub fn get(&self, word: &str) -> Option<u64>
        ensures { result ≡ number_at self.now word.now }
    {
        self.places.get(word).copied()
    }

    /// A word gets a number. `Err` is want of memory.
    pub fn set(&mut self, word: &'a str, number: u64) -> Result<(), Memory>
        ensures { OnOk result ((w : List ℕ) →
            number_at self.new w
            ≡ (if bytes_eq word.entry.now w then Some number else number_at self.old w)) }
    {
        self.places.insert(word, number)?;
        Ok(())
    }

    /// A word that has no number gets one. `Err` is want of memory.
    pub fn set_first(&mut self, word: &'a str, number: u64) -> Result<(), Memory>
        ensures { OnOk result ((w : List ℕ) →
            number_at self.new w
            ≡ or_else (number_at self.old w) (if bytes_eq w word.entry.now then Some number else None)) }
    {
        match self.get(word) {
            Some(_) => Ok(()),
            None => self.set(word, number),
        }
    }
}
