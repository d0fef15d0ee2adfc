//! How the names and variables of a derivation are spelled: as the identifiers that stand for them, each in
//! its own way.

ghost use Rattle.std.specs.Prelude.{◌≡◌, ◌==◌, ◌++◌, ◌∷◌, [], ℕ, zero, List as list, length, map, codes, string_bytes, unwrap_or, IfOk, OnOk};
ghost use Rattle.ap_defs.specs.Printing.{has_word};
ghost use Rattle.ap_spelling.specs.Words as spec;
ghost use Rattle.ap_spelling.specs.Words.{give, give_each, numbered_by, numbered_next, next_spelling};
ghost use Rattle.ap_spelling.specs.Spelt.{given_of, givens_of, knows_word, last_of, spelt_of};

use ap_defs::lists::Text;
use ap_defs::memory::Memory;
use ap_defs::terms::{Name as NameOf, Var as VarOf};
use ap_scopes::numbers::Numbers;
use indexmap::IndexSet;
use std::alloc::Global;
use std::collections::HashSet;

/// A name or a variable, with the word of an identifier that stands for it; the word is empty where none does.
#[derive(Clone, Copy)]
pub enum Given<'a> {
    Name(NameOf, &'a str),
    Var(VarOf, &'a str),
}

/// A number is the last that was put behind a word, or 0, where the word was used as it is.
pub fn set_last<'a>(last: &mut Numbers<'a>, word: &'a str, number: u64) -> Result<(), Memory>
    ensures { OnOk result (last_of last.new
        ≡ numbered_next word.entry.now number (last_of last.old)) }
{
    last.set(word, number)
}

/// The last byte of a word; that of an empty one is `_`.
fn last_byte(word: &str) -> u8
    ensures { result ≡ spec.last_byte word.now }
{
    match word.as_bytes().last() {
        Some(byte) => *byte,
        None => b'_',
    }
}

/// The word behind which a number is put: it doesn't end in `_`.
fn base<'a>(letter: &'a str, word: &'a str) -> &'a str
    ensures { result.now ≡ spec.base letter.now word.now }
{
    if last_byte(word) == b'_' {
        letter
    } else {
        word
    }
}

/// A word with a number behind it.
fn joined(alloc: Global, word: &str, number: u64) -> Result<String, Memory>
    ensures { IfOk result (λ text. string_bytes text ≡ spec.word_with_number word.now number) }
{
    let joint = if last_byte(word).is_ascii_digit() {
        "_"
    } else {
        ""
    };
    Ok(format!(in alloc; "{word}{joint}{number}")?)
}

/// The first number from one on that makes no word of the text.
fn number_from(
    alloc: Global,
    words: &[Text],
    taken: &HashSet<&str>,
    word: &str,
    first: u64,
) -> Result<u64, Memory>
    requires { (w : list ℕ) → knows_word taken.now w ≡ has_word w words.now }
    ensures { IfOk result (λ n. n ≡ spec.number_from words.now word.now first (length words.now)) }
{
    let mut number = first;
    for _turn in 0..words.len() {
        let made = joined(alloc, word, number)?;
        if !taken.contains(made.as_str()) {
            return Ok(number);
        }
        number = number.saturating_add(1);
    }
    Ok(number)
}

/// A word with the next number behind it that makes no word of the text.
fn with_number<'a>(
    alloc: Global,
    words: &[Text],
    taken: &HashSet<&str>,
    last: &mut Numbers<'a>,
    word: &'a str,
) -> Result<Text, Memory>
    requires { (w : list ℕ) → knows_word taken.now w ≡ has_word w words.now }
    ensures text { IfOk result (λ text. text ≡ spec.word_with_number word.entry.now
        (next_spelling words.now word.entry.now (last_of last.old))) }
    ensures last { OnOk result (last_of last.new ≡ numbered_next word.entry.now
        (next_spelling words.now word.entry.now (last_of last.old)) (last_of last.old)) }
{
    let first = last.get(word).unwrap_or(0).saturating_add(1);
    let number = number_from(alloc, words, taken, word, first)?;
    set_last(last, word, number)?;
    Ok(Text::of(joined(alloc, word, number)?))
}

/// Whether a word stands as it is: one of the text that was not used.
fn stands(words: &[Text], taken: &HashSet<&str>, last: &Numbers<'_>, word: &str) -> bool
    requires { (w : list ℕ) → knows_word taken.now w ≡ has_word w words.now }
    ensures { result ≡ spec.stands words.now word.now (last_of last.now) }
{
    taken.contains(word) && last.get(word).is_none()
}

/// The spelling that is made of a word.
fn spelling_of<'a>(
    alloc: Global,
    words: &[Text],
    taken: &HashSet<&str>,
    last: &mut Numbers<'a>,
    letter: &'a str,
    word: &'a str,
) -> Result<Text, Memory>
    requires { (w : list ℕ) → knows_word taken.now w ≡ has_word w words.now }
    ensures text { IfOk result (λ text. text
        ≡ spec.spelling_of words.now letter.entry.now word.entry.now (last_of last.old)) }
    ensures last { OnOk result (last_of last.new
        ≡ numbered_by words.now letter.entry.now word.entry.now (last_of last.old)) }
{
    if stands(words, taken, last, word) {
        set_last(last, word, 0)?;
        return Ok(Text::of(String::from_str(alloc, word)?));
    }
    with_number(alloc, words, taken, last, base(letter, word))
}

/// The names and variables that are spelled, each with its spelling at the same place, and the numbers so far.
#[derive(Drop)]
pub struct Spelt<'a> {
    pub names: IndexSet<NameOf>,
    pub name_words: Vec<Text>,
    pub vars: IndexSet<VarOf>,
    pub var_words: Vec<Text>,
    pub last: Numbers<'a>,
}

impl<'a> Spelt<'a> {
    /// One name more, unless it has a spelling.
    #[tactic(auto, using(crate::proofs::SpeltLemmas::any_name), unfolding(ap_defs::specs::Permutations::name_eq))]
    fn give_name(
        &mut self,
        alloc: Global,
        words: &[Text],
        taken: &HashSet<&str>,
        name: NameOf,
        word: &'a str,
    ) -> Result<(), Memory>
        requires { (w : list ℕ) → knows_word taken.now w ≡ has_word w words.now }
        ensures { OnOk result (spelt_of self.new
            ≡ give words.now (given_of (Given.Name name word.entry)) (spelt_of self.old)) }
    {
        if self.names.contains(&name) {
            return Ok(());
        }
        let letter: &'a str = "n";
        let spelling = spelling_of(alloc, words, taken, &mut self.last, letter, word)?;
        self.names.insert(name)?;
        self.name_words.push(spelling)?;
        Ok(())
    }

    /// One variable more, unless it has a spelling.
    #[tactic(auto, using(crate::proofs::SpeltLemmas::any_var))]
    fn give_var(
        &mut self,
        alloc: Global,
        words: &[Text],
        taken: &HashSet<&str>,
        var: VarOf,
        word: &'a str,
    ) -> Result<(), Memory>
        requires { (w : list ℕ) → knows_word taken.now w ≡ has_word w words.now }
        ensures { OnOk result (spelt_of self.new
            ≡ give words.now (given_of (Given.Var var word.entry)) (spelt_of self.old)) }
    {
        if self.vars.contains(&var) {
            return Ok(());
        }
        let letter: &'a str = "_";
        let spelling = spelling_of(alloc, words, taken, &mut self.last, letter, word)?;
        self.vars.insert(var)?;
        self.var_words.push(spelling)?;
        Ok(())
    }

    /// One name or variable more, unless it has a spelling.
    fn give(
        &mut self,
        alloc: Global,
        words: &[Text],
        taken: &HashSet<&str>,
        given: Given<'a>,
    ) -> Result<(), Memory>
        requires { (w : list ℕ) → knows_word taken.now w ≡ has_word w words.now }
        ensures { OnOk result (spelt_of self.new
            ≡ give words.now (given_of given.entry) (spelt_of self.old)) }
    {
        match given {
            Given::Name(name, word) => self.give_name(alloc, words, taken, name, word),
            Given::Var(var, word) => self.give_var(alloc, words, taken, var, word),
        }
    }

    /// Each of these names and variables, unless it has a spelling.
    pub fn give_each(
        &mut self,
        alloc: Global,
        words: &[Text],
        taken: &HashSet<&str>,
        givens: &[Given<'a>],
    ) -> Result<(), Memory>
        requires { (w : list ℕ) → knows_word taken.now w ≡ has_word w words.now }
        ensures { OnOk result (spelt_of self.new
            ≡ give_each words.now (givens_of givens.now) (spelt_of self.old)) }
    {
        for i in 0..givens.len() {
            self.give(alloc, words, taken, givens[i])?;
        }
        Ok(())
    }
}
