// The words of a line.
ghost use Rattle.std.specs.Prelude.{◌≡◌, ◌==◌, ◌&&◌, ◌||◌, not, nat_lt, length, find, map, slice_index, IfOk};
ghost use Rattle.std.specs.Char.{is_ascii_digit};
ghost use Rattle.std.specs.List.{list_all, slice_split};
ghost use Rattle.std.specs.Option.{option_map};
ghost use Rattle.std.specs.Str.{bytes_eq};
ghost use Rattle.ap_bundle.specs.Words as spec;

use ap_bundle::words::{Head, Letter, NodeWord, Word};
use ap_defs::memory::Memory;
use std::alloc::{AllocError, Global};

fn all_digits(text: &[u8]) -> bool
    ensures { result ≡ list_all is_ascii_digit text.now }
{
    text.iter().all(|byte| byte.is_ascii_digit())
}

/// Whether the bytes are decimal digits without leading zeros.
fn is_numeral(text: &[u8]) -> bool
    ensures { result ≡ spec.is_numeral text.now }
{
    all_digits(text) && !text.is_empty() && (text.len() == 1 || text[0] != b'0')
}

/// The number that is spelled so.
#[tactic(auto, unfolding(ap_bundle::specs::Words::number_of))]
fn number(text: &[u8]) -> Option<u64>
    ensures { result ≡ spec.number_of text.now }
{
    // `parse` alone would take a sign and leading zeros.
    if !is_numeral(text) {
        return None;
    }
    let Ok(text) = std::str::from_utf8(text) else {
        return None;
    };
    let Ok(number) = text.parse::<u64>() else {
        return None;
    };
    Some(number)
}

#[tactic(auto, unfolding(ap_bundle::specs::Words::letter_of))]
fn letter(text: &[u8]) -> Option<Letter>
    ensures { result ≡ spec.letter_of text.now }
{
    for letter in Letter::all() {
        if letter.text().as_bytes() == text {
            return Some(*letter);
        }
    }
    None
}

#[tactic(auto, unfolding(ap_bundle::specs::Words::node_word_of))]
fn node_word(text: &[u8]) -> Option<NodeWord>
    ensures { result ≡ spec.node_word_of text.now }
{
    for word in NodeWord::all() {
        if word.text().as_bytes() == text {
            return Some(*word);
        }
    }
    None
}

#[tactic(auto, unfolding(ap_bundle::specs::Words::head_of))]
fn head(text: &[u8]) -> Option<Head>
    ensures { result ≡ spec.head_of text.now }
{
    for head in Head::all() {
        if head.text().as_bytes() == text {
            return Some(*head);
        }
    }
    None
}

/// The word that is spelled so.
#[tactic(auto, unfolding(ap_bundle::specs::Words::word_of))]
fn word_of(text: &[u8]) -> Option<Word>
    ensures { result ≡ spec.word_of text.now }
{
    if let Some(number) = number(text) {
        return Some(Word::Number(number));
    }
    if let Some(letter) = letter(text) {
        return Some(Word::Letter(letter));
    }
    if let Some(word) = node_word(text) {
        return Some(Word::Node(word));
    }
    Some(Word::Head(head(text)?))
}

/// The parts of a line between spaces.
fn parts(alloc: Global, line: &[u8]) -> Result<Vec<&[u8]>, AllocError>
    ensures { IfOk result (λ v. map (λ x. x.now) v.items ≡ slice_split (λ b. b == 32) line.now) }
{
    line.split(|b| *b == b' ').collect(alloc)
}

/// The words that are spelled so, if each is a word.
fn words_of(alloc: Global, texts: &[&[u8]]) -> Result<Option<Vec<Word>>, Memory>
    ensures { IfOk result (λ r. option_map (λ v. v.items) r
        ≡ spec.words_spelled (map (λ x. x.now) texts.now)) }
{
    let mut words = Vec::new(alloc);
    for text in texts {
        let Some(word) = word_of(text) else {
            return Ok(None);
        };
        words.push(word)?;
    }
    Ok(Some(words))
}

/// The words of a line, given without its LF.
pub(crate) fn line_words(alloc: Global, line: &[u8]) -> Result<Option<Vec<Word>>, Memory>
    ensures { IfOk result (λ r. option_map (λ v. v.items) r ≡ spec.line_words line.now) }
{
    let texts = parts(alloc, line)?;
    words_of(alloc, &texts)
}
