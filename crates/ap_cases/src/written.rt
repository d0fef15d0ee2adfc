//! Parts of an item that are written, and are read again.

use crate::reading::{items_of, tokens_of};
use crate::shown::put_items;
use crate::spelling::Spelling;
use ap_defs::memory::Memory;
use ap_syntax::SynError;
use ap_trees::{Form, Item};
use ap_unparse::writing::{goal_text, term_text, type_text};
use std::alloc::Global;

/// A part of an item that stands alone in it: a query's goal, a predicate's type or the term of a clause's head.
#[derive(Clone, Copy)]
pub enum Piece {
    Goal,
    Type,
    Term,
}

/// The part, and what is written of it.
fn written(alloc: Global, items: &[Item<'_>]) -> Result<Option<(Piece, Vec<u8>)>, Memory> {
    let [item] = items else {
        return Ok(None);
    };
    match &item.form {
        Form::Query(goal) => Ok(Some((Piece::Goal, goal_text(alloc, goal)?))),
        Form::Predicate(_, types) => match types.items() {
            [first] => Ok(Some((Piece::Type, type_text(alloc, first)?))),
            _ => Ok(None),
        },
        Form::Clause(_, terms, None) => match terms.items() {
            [first] => Ok(Some((Piece::Term, term_text(alloc, first)?))),
            _ => Ok(None),
        },
        _ => Ok(None),
    }
}

/// The text of a spelling from which nothing was lost.
fn whole(made: Spelling) -> Result<String, SynError> {
    match made.whole() {
        Ok(text) => Ok(text),
        Err(Memory) => Err(SynError::Memory),
    }
}

/// The item that has this text as its part.
fn item_of(alloc: Global, part: Piece, text: &str) -> Result<String, SynError> {
    let (begin, end) = match part {
        Piece::Goal => ("?- ", "."),
        Piece::Type => ("pred p(", ")."),
        Piece::Term => ("p(", ")."),
    };
    let mut item = Spelling::new(alloc);
    item.put_all(&[begin, text, end]);
    whole(item)
}

/// What is told of the items of a text.
fn items_told(alloc: Global, text: &str) -> Result<String, SynError> {
    let mut told = Spelling::new(alloc);
    put_items(&mut told, text)?;
    whole(told)
}

/// What is written of the part of a text's item.
pub fn part_of(alloc: Global, text: &str) -> Result<Option<(Piece, Vec<u8>)>, SynError> {
    let tokens = tokens_of(alloc, text.as_bytes())?;
    let items = items_of(alloc, &tokens)?;
    match written(alloc, &items) {
        Ok(part) => Ok(part),
        Err(Memory) => Err(SynError::Memory),
    }
}

/// Whether an item with this part reads as a text does.
fn reads_same(alloc: Global, text: &str, part: Piece, written: &str) -> Result<bool, SynError> {
    let item = item_of(alloc, part, written)?;
    let first = items_told(alloc, text)?;
    let second = items_told(alloc, &item)?;
    Ok(first.as_str() == second.as_str())
}

/// Tells what is written of the part of a text's item, if it is read as the same again.
pub fn put_part(out: &mut Spelling, text: &str) -> Result<(), SynError> {
    let Some((part, bytes)) = part_of(out.alloc(), text)? else {
        out.put("no part");
        return Ok(());
    };
    let written = str::from_utf8(&bytes).unwrap_or("");
    if reads_same(out.alloc(), text, part, written)? {
        out.put(written);
    } else {
        out.put("read otherwise");
    }
    Ok(())
}
