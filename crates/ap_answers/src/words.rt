//! Generated words.

ghost use Rattle.std.specs.Prelude.{◌≡◌, ◌≤◌, ◌<◌, ◌^◌, ℕ, List as list, [], ◌∷◌, ◌++◌, true, false, not, codes, filter, decimal, length, take, IfOk, OnOk};
ghost use Rattle.ap_defs.specs.Printing.{has_word, new_words};
ghost use Rattle.std.specs.Str.{bytes_eq};
ghost use Rattle.ap_answers.specs.Words.{knows, numbered_words, NoneNumbered, AreFree, IsTaken};

use ap_defs::lists::Text;
use ap_defs::memory::Memory;
use std::alloc::Global;
use std::collections::HashSet;

/// The numbers up to `tried` with which a letter is no word of a text. Where `none_taken`, it is none with any number.
#[derive(Drop)]
pub struct Free {
    pub numbers: Vec<u64>,
    pub tried: usize,
    pub none_taken: bool,
}

/// The words of a text, which are left out where words are generated. What of them begins as a generated
/// word does is looked up once, since else each query would try it.
#[derive(Drop)]
pub struct Taken<'a> {
    pub words: HashSet<&'a str>,
    pub names: Free,
    pub vars: Free,
}

/// The set of words.
pub fn word_set<'a>(alloc: Global, words: &'a [Text]) -> Result<HashSet<&'a str>, Memory>
    ensures { IfOk result (λ set. (w : list ℕ) → knows set w ≡ has_word w words.now) }
{
    let mut set = HashSet::new(alloc);
    for word in words {
        set.insert(word.as_str())?;
    }
    Ok(set)
}

/// Whether the word of a letter and a number is taken. It is looked up, unless none is known to be.
fn is_taken(
    alloc: Global,
    letter: &str,
    number: u64,
    taken: &HashSet<&str>,
    none_taken: bool,
) -> Result<bool, Memory>
    requires { none_taken ≡ true → knows taken.now (letter.now ++ decimal number) ≡ false }
    ensures { IfOk result (λ b. b ≡ knows taken.now (letter.now ++ decimal number)) }
{
    if none_taken {
        return Ok(false);
    }
    let word = format!(in alloc; "{letter}{number}")?;
    Ok(taken.contains(word.as_str()))
}

/// Keeps a number, unless the letter with it is taken.
fn keep_number(
    alloc: Global,
    numbers: &mut Vec<u64>,
    letter: &str,
    number: u64,
    taken: &HashSet<&str>,
    none_taken: bool,
) -> Result<(), Memory>
    requires { none_taken ≡ true → knows taken.now (letter.now ++ decimal number) ≡ false }
    ensures { OnOk result (numbers.new.items
        ≡ numbers.old.items
        ++ filter (λ n. not (knows taken.now (letter.now ++ decimal n))) (number ∷ [])) }
{
    if !is_taken(alloc, letter, number, taken, none_taken)? {
        numbers.push(number)?;
    }
    Ok(())
}

/// Whether a word may be a letter with a number behind it: only if it begins like the letter and is longer.
fn may_be_numbered(letter: &str, word: &str) -> bool
    ensures { result ≡ false → (n : ℕ) → n < 2 ^ 64 →
        bytes_eq (letter.now ++ decimal n) word.now ≡ false }
{
    if word.len() <= letter.len() {
        return false;
    }
    match (letter.as_bytes(), word.as_bytes()) {
        ([first, ..], [own, ..]) => *first == *own,
        _ => true,
    }
}

/// Whether no word is seen to be a letter with a number behind it, by how words begin.
fn none_numbered(letter: &str, words: &[Text]) -> bool
    ensures { result ≡ true → NoneNumbered letter.now words.now }
{
    for word in words {
        if may_be_numbered(letter, word.as_str()) {
            return false;
        }
    }
    true
}

/// How many of the words begin with a letter.
fn count_beginning(letter: &str, words: &[Text]) -> usize
    ensures { result ≤ length words.now }
{
    let mut count = 0;
    for word in words {
        if word.as_str().starts_with(letter) {
            count += 1;
        }
    }
    count
}

/// The numbers with which a letter is no word of the text, up to one that is as great as there are words
/// with the letter: so all further numbers together cost no more than there are free ones.
fn free_numbers(
    alloc: Global,
    letter: &str,
    words: &[Text],
    taken: &HashSet<&str>,
) -> Result<Free, Memory>
    requires { (w : list ℕ) → knows taken.now w ≡ has_word w words.now }
    ensures { IfOk result (λ f. AreFree letter.now words.now f) }
{
    let tried = count_beginning(letter, words);
    let none_taken = none_numbered(letter, words);
    let mut numbers = Vec::new(alloc);
    for i in 0..tried {
        keep_number(alloc, &mut numbers, letter, i as u64 + 1, taken, none_taken)?;
    }
    Ok(Free {
        numbers,
        tried,
        none_taken,
    })
}

/// The words of a text, as those that are left out where words are generated.
pub fn taken_words<'a>(alloc: Global, words: &'a [Text]) -> Result<Taken<'a>, Memory>
    ensures { IfOk result (λ t. IsTaken words.now t) }
{
    let set = word_set(alloc, words)?;
    let names = free_numbers(alloc, "n", words, &set)?;
    let vars = free_numbers(alloc, "_", words, &set)?;
    Ok(Taken {
        words: set,
        names,
        vars,
    })
}

/// The first so many of these numbers.
fn first_of(numbers: &[u64], count: usize) -> &[u64]
    ensures { result.now ≡ take count numbers.now }
{
    if numbers.len() <= count {
        return numbers;
    }
    let (first, _others) = numbers.split_at(count);
    first
}

/// The numbers of the first so many words among a letter with 1, 2, 3 and so on that are not taken, of which there
/// are enough below that number and the number of words that are taken. `free` has the first of these numbers.
pub fn generated_numbers(
    alloc: Global,
    letter: &str,
    words: &[Text],
    taken: &HashSet<&str>,
    free: &Free,
    count: usize,
) -> Result<Vec<u64>, Memory>
    requires taken { (w : list ℕ) → knows taken.now w ≡ has_word w words.now }
    requires free { AreFree letter.now words.now free.now }
    ensures { IfOk result (λ v. numbered_words letter.now v.items
        ≡ new_words letter.now words.now count) }
{
    let Some(limit) = count.checked_add(words.len()) else {
        return Err(Memory);
    };
    let mut numbers = Vec::with_capacity(alloc, count)?;
    numbers.extend_from_slice(first_of(free.numbers.as_slice(), count))?;
    for i in free.tried..limit {
        if numbers.len() == count {
            break;
        }
        keep_number(
            alloc,
            &mut numbers,
            letter,
            i as u64 + 1,
            taken,
            free.none_taken,
        )?;
    }
    Ok(numbers)
}
