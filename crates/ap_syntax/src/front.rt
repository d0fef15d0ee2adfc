// The symbols of the first item that is left of a text, and what they read as.
ghost use Rattle.std.specs.Prelude.{◌≡◌, ◌≤◌, ◌∷◌, List, [], IfOk, OnOk, MatchOption, count_by};
ghost use Rattle.ap_lexer.specs.Cursors.{HasStopped, lexemes_left};
ghost use Rattle.ap_lexer.specs.Tokens.{Lexeme, lexeme, is_dot, item_front, after_item};
ghost use Rattle.ap_trees.specs.Trees.{item_of};
ghost use Rattle.ap_syntax.specs.Reading.{GivesOneOf, FirstOf};
ghost use Rattle.ap_syntax.specs.Fronts.{IsFrontOf};

use crate::faults::SynError;
use crate::reading::{fault, form_item};
use ap_defs::faults::SyntaxKind;
use ap_lexer::{Cursor, Token};
use ap_trees::{Item, Symbol, symbol_of};
use std::alloc::{AllocError, Global};

/// The first item that is left of a text, as its symbols.
#[derive(Drop)]
pub struct Front<'a> {
    /// The line of its first token.
    pub line: u64,
    /// Whether a `.` ends it.
    pub ended: bool,
    /// The symbols before that, or of all tokens that are left.
    pub symbols: Vec<Symbol<'a>>,
}

impl Front<'_> {
    /// How many `.` its tokens have.
    pub fn dots(&self) -> u32
        ensures value { (all : List Lexeme) → IsFrontOf all self.now →
            result ≡ count_by is_dot (item_front all) }
        ensures most { result ≤ 1 }
    {
        if self.ended { 1 } else { 0 }
    }
}

/// The item whose first token this is.
fn front_from<'a>(
    alloc: Global,
    first: Token<'a>,
    cursor: &mut Cursor<'a>,
) -> Result<Front<'a>, AllocError>
    ensures whole { OnOk result (cursor.new.whole ≡ cursor.old.whole) }
    ensures text { OnOk result (cursor.new.text ≡ cursor.old.text) }
    ensures front { IfOk result (IsFrontOf (lexeme first.entry ∷ lexemes_left cursor.old)) }
    ensures left { OnOk result (lexemes_left cursor.new
        ≡ after_item (lexeme first.entry ∷ lexemes_left cursor.old)) }
{
    let line = first.line;
    let mut symbols = Vec::new(alloc);
    let mut token = first;
    'reading: while !token.ends_item() {
        symbols.push(symbol_of(&token))?;
        match cursor.token() {
            Some(next) => token = next,
            None => {
                return Ok(Front {
                    line,
                    ended: false,
                    symbols,
                });
            }
        }
    }
    Ok(Front {
        line,
        ended: true,
        symbols,
    })
}

/// The next item, behind whose `.` the cursor then stands.
///
/// It has all tokens that are left where no `.` comes. With `None` none is left, and the cursor stands where
/// nothing begins. `Err` is want of memory.
pub fn next_front<'a>(
    alloc: Global,
    cursor: &mut Cursor<'a>,
) -> Result<Option<Front<'a>>, AllocError>
    ensures whole { OnOk result (cursor.new.whole ≡ cursor.old.whole) }
    ensures text { OnOk result (cursor.new.text ≡ cursor.old.text) }
    ensures front { IfOk result (λ o. MatchOption o
        ((lexemes_left cursor.old ≡ []) × HasStopped cursor.new)
        (IsFrontOf (lexemes_left cursor.old))) }
    ensures left { OnOk result (lexemes_left cursor.new ≡ after_item (lexemes_left cursor.old)) }
{
    let Some(first) = cursor.token() else {
        return Ok(None);
    };
    let front = front_from(alloc, first, cursor)?;
    Ok(Some(front))
}

/// The item of a number, of which these are the symbols, or its fault.
pub fn item_of_front<'a>(alloc: Global, number: u32, front: Front<'a>) -> Result<Item<'a>, SynError>
    ensures { (all : List Lexeme) → IsFrontOf all front.entry →
        GivesOneOf (λ i. (item_of i, after_item all)) result (FirstOf number all) }
{
    if !front.ended {
        return Err(fault(number, front.line, SyntaxKind::Unended));
    }
    form_item(alloc, number, front.line, &front.symbols)
}
