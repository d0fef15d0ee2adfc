//! The items of a text that are shown, and those that are left out.
ghost use Rattle.std.specs.Prelude.{◌≡◌, ◌+◌, ◌-◌, ◌==◌, true, ◌<◌, ◌≤◌, ◌∷◌, [], ◌++◌, IfOk, OnOk, count_by, drop, filter, fold, length, map, slice_get, take};
ghost use Rattle.std.specs.List.{flat_map, position_or_len};
ghost use Rattle.std.specs.Option.{option_map_or};
ghost use Rattle.ap_inputs.specs.Items as spec;
ghost use Rattle.ap_lexer.specs.Tokens.{is_dot, lexemes};

use ap_defs::memory::Memory;
use ap_lexer::Token;
use std::alloc::Global;

/// What stands in place of a byte that is left out.
fn blank(byte: u8) -> u8
    ensures { result ≡ spec.blank_for byte }
{
    if byte == b'\n' { byte } else { b' ' }
}

/// Puts blanks in place of bytes, but for the ends of lines.
fn blank_all(bytes: &mut [u8])
    ensures { bytes.new ≡ map spec.blank_for bytes.old }
{
    for byte in bytes.iter_mut() {
        *byte = blank(*byte);
    }
}

/// Puts blanks in place of the bytes from one place to another.
fn blank_between(bytes: &mut [u8], start: usize, end: usize)
    ensures { bytes.new ≡ spec.blanked start end bytes.old }
{
    let end = end.min(bytes.len());
    let start = start.min(end);
    blank_all(&mut bytes[start..end]);
}

/// The bytes from one place to another.
fn between(bytes: &[u8], start: usize, end: usize) -> &[u8]
    ensures { result.now ≡ take (end - start) (drop start bytes.now) }
{
    let end = end.min(bytes.len());
    let start = start.min(end);
    &bytes[start..end]
}

/// Where an item begins.
fn start_of(item: &[Token<'_>]) -> usize
    ensures { result ≡ spec.item_start_of (lexemes item.now) }
{
    match item.first() {
        Some(token) => token.start as usize,
        None => 0,
    }
}

/// Where an item ends.
fn end_of(item: &[Token<'_>]) -> usize
    ensures { result ≡ spec.end_of (lexemes item.now) }
{
    match item.last() {
        Some(token) => token.end as usize,
        None => 0,
    }
}

/// Whether an item is a query.
fn is_query(item: &[Token<'_>]) -> bool
    ensures { result ≡ spec.is_query (lexemes item.now) }
{
    match item {
        [] => false,
        [first, ..] => first.text == "?-",
    }
}

/// The place of the first full stop, or that behind the last token.
fn dot_place(tokens: &[Token<'_>]) -> usize
    ensures value { result ≡ position_or_len is_dot (lexemes tokens.now) }
    ensures within { result ≤ length tokens.now }
{
    for (place, token) in tokens.iter().enumerate() {
        if token.text == "." {
            return place;
        }
    }
    tokens.len()
}

/// The tokens from a place on.
fn rest_of<'t, 'a>(tokens: &'t [Token<'a>], place: usize) -> &'t [Token<'a>]
    requires { place ≤ length tokens.now }
    ensures { result.now ≡ drop place tokens.now }
{
    &tokens[place..]
}

/// The first item of tokens, with its full stop.
fn first_item<'t, 'a>(tokens: &'t [Token<'a>]) -> &'t [Token<'a>]
    requires { 0 < length tokens.now }
    ensures within { (0 < length result.now) × (length result.now ≤ length tokens.now) }
    ensures item { spec.items_of_tokens (lexemes tokens.now)
        ≡ lexemes result.now
        ∷ spec.items_of_tokens (lexemes (drop (length result.now) tokens.now)) }
{
    let count = (dot_place(tokens) + 1).min(tokens.len());
    &tokens[..count]
}

/// Puts blanks in place of an item, where it is a query.
fn leave_out(text: &mut [u8], item: &[Token<'_>])
    ensures { text.new
        ≡ fold spec.without_item text.old (filter spec.is_query (lexemes item.now ∷ [])) }
{
    if is_query(item) {
        blank_between(text, start_of(item), end_of(item));
    }
}

/// A text with blanks in place of its queries. Its lines stay as they are.
fn without_queries(alloc: Global, text: &[u8], tokens: &[Token<'_>]) -> Result<Vec<u8>, Memory>
    ensures { IfOk result (λ v. v.items ≡ spec.without_queries text.now (lexemes tokens.now)) }
{
    let mut kept = text.to_vec(alloc)?;
    let mut place = 0;
    while place < tokens.len() {
        let item = first_item(rest_of(tokens, place));
        leave_out(&mut kept, item);
        place += item.len();
    }
    Ok(kept)
}

/// Whether bytes end with the end of a line, or there are none.
fn are_lines(bytes: &[u8]) -> bool
    ensures { result
        ≡ option_map_or (λ b. b == 10) (slice_get bytes.now (length bytes.now - 1)) true }
{
    match bytes.last() {
        Some(last) => *last == b'\n',
        None => true,
    }
}

/// What is kept of a text: blanks stand in place of its queries, and it ends with the end of a line.
pub fn kept_text(alloc: Global, text: &[u8], tokens: &[Token<'_>]) -> Result<Vec<u8>, Memory>
    ensures { IfOk result (λ v. v.items ≡ spec.kept_text text.now (lexemes tokens.now)) }
{
    let mut kept = without_queries(alloc, text, tokens)?;
    if !are_lines(&kept) {
        kept.push(b'\n')?;
    }
    Ok(kept)
}

/// How many queries there are among the items.
pub fn count_queries(tokens: &[Token<'_>]) -> usize
    ensures { result ≡ count_by spec.is_mark (lexemes tokens.now) }
{
    tokens.iter().filter(|token| token.text == "?-").count()
}

/// Whether an item declares a word, or is a clause of it.
fn is_about(item: &[Token<'_>], word: &str) -> bool
    ensures { result ≡ spec.is_about word.now (lexemes item.now) }
{
    match item {
        [] => false,
        [first] => first.text == word,
        [first, second, ..] => first.text == word || (first.text == "pred" && second.text == word),
    }
}

/// Adds the text of an item as it was read, and the end of a line, where it is about a word.
fn add_item(out: &mut Vec<u8>, text: &[u8], item: &[Token<'_>], word: &str) -> Result<(), Memory>
    ensures { OnOk result (out.new.items
        ≡ out.old.items ++ flat_map (spec.item_text text.now)
        (filter (spec.is_about word.now) (lexemes item.now ∷ []))) }
{
    if is_about(item, word) {
        out.extend_from_slice(between(text, start_of(item), end_of(item)))?;
        out.push(b'\n')?;
    }
    Ok(())
}

/// The items that declare a word or are clauses of it, as they were read, each with the end of a line behind it.
pub fn items_about(
    alloc: Global,
    text: &[u8],
    tokens: &[Token<'_>],
    word: &str,
) -> Result<Vec<u8>, Memory>
    ensures { IfOk result (λ v. v.items ≡ spec.items_about text.now (lexemes tokens.now) word.now) }
{
    let mut out = Vec::new(alloc);
    let mut place = 0;
    while place < tokens.len() {
        let item = first_item(rest_of(tokens, place));
        add_item(&mut out, text, item, word)?;
        place += item.len();
    }
    Ok(out)
}
