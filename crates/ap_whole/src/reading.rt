// The items of tokens, one after another.
ghost use Rattle.std.specs.Prelude.{◌≡◌, ◌<◌, ◌≤◌, IfOk, IfSome, length, drop};
ghost use Rattle.ap_defs.specs.Limits.{size_limit};
ghost use Rattle.ap_lexer.specs.Tokens.{lexemes};
ghost use Rattle.ap_trees.specs.Symbols.{syms};
ghost use Rattle.ap_trees.specs.Trees.{item_of, items_of_text};
ghost use Rattle.ap_syntax.specs.Reading.{GivesOneOf, Reads, FirstOf, first_dot};
ghost use Rattle.ap_syntax.specs.Reading as spec;

use crate::symbols::symbols_of;
use ap_defs::faults::SyntaxKind;
use ap_lexer::Token;
use ap_syntax::{SynError, fault, form_item};
use ap_trees::{Item, Symbol};
use std::alloc::{AllocError, Global};

/// The place of the first `.`.
fn dot_place(tokens: &[Token<'_>]) -> Option<usize>
    ensures value { result ≡ first_dot (lexemes tokens.now) }
    ensures inside { IfSome result (λ place. place < length tokens.now) }
{
    for (place, token) in tokens.iter().enumerate() {
        if token.ends_item() {
            return Some(place);
        }
    }
    None
}

/// The tokens from a place on.
fn rest_of<'a, 't>(tokens: &'t [Token<'a>], place: usize) -> &'t [Token<'a>]
    requires { place ≤ length tokens.now }
    ensures { result.now ≡ drop place tokens.now }
{
    &tokens[place..]
}

/// The symbols of the tokens before a place.
fn symbols_before<'a>(
    alloc: Global,
    tokens: &[Token<'a>],
    place: usize,
) -> Result<Vec<Symbol<'a>>, AllocError>
    requires { place ≤ length tokens.now }
    ensures { IfOk result (λ v. syms v.items ≡ spec.before place (lexemes tokens.now)) }
{
    symbols_of(alloc, &tokens[..place])
}

/// The first item of tokens, and how many tokens it takes with its `.`.
fn first_item<'a>(
    alloc: Global,
    item: u32,
    tokens: &[Token<'a>],
) -> Result<(Item<'a>, usize), SynError>
    requires { 0 < length tokens.now }
    ensures read { GivesOneOf (λ r. (item_of r.0, drop r.1 (lexemes tokens.now))) result
        (FirstOf item (lexemes tokens.now)) }
    ensures some { IfOk result (λ r. (0 < r.1) × (r.1 ≤ length tokens.now)) }
{
    let line = tokens[0].line;
    let Some(place) = dot_place(tokens) else {
        return Err(fault(item, line, SyntaxKind::Unended));
    };
    let symbols = symbols_before(alloc, tokens, place)?;
    match form_item(alloc, item, line, &symbols) {
        Ok(item) => Ok((item, place + 1)),
        Err(error) => Err(error),
    }
}

/// The items of tokens, or the first fault.
fn read_items<'a>(alloc: Global, tokens: &[Token<'a>]) -> Result<Vec<Item<'a>>, SynError>
    requires { length tokens.now ≤ size_limit }
    ensures { GivesOneOf (λ v. items_of_text v.items) result (Reads 1 (lexemes tokens.now)) }
{
    let mut items = Vec::new(alloc);
    let mut number = 1;
    let mut at = 0;
    while at < tokens.len() {
        let (item, len) = first_item(alloc, number, rest_of(tokens, at))?;
        items.push(item)?;
        number += 1;
        at += len;
    }
    Ok(items)
}

/// The items of tokens, each with its end `.` and the line of its first token.
///
/// The first faulty item is told: one that no `.` ends (`Unended`), that has more than 256 levels
/// (`TooDeep`), or that is not in the grammar (`Grammar`), tested in this order.
pub fn parse<'a>(alloc: Global, tokens: &[Token<'a>]) -> Result<Vec<Item<'a>>, SynError>
    requires { length tokens.now ≤ size_limit }
    // What is returned is a reading of the tokens.
    ensures read { GivesOneOf (λ v. items_of_text v.items) result (Reads 1 (lexemes tokens.now)) }
    // Each reading of the tokens is what is returned.
    ensures only { (r : spec.TextOutcome) → Reads 1 (lexemes tokens.now) r →
        GivesOneOf (λ v. items_of_text v.items) result (λ s. s ≡ r) }
{
    read_items(alloc, tokens)
}
