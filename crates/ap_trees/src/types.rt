// Reading a type.
ghost use Rattle.std.specs.Prelude.{◌≡◌, ◌<◌, length, IfOk};
ghost use Rattle.ap_trees.specs.Outcomes.{GivesPart};
ghost use Rattle.ap_trees.specs.Readers.{separated, after_comma};
ghost use Rattle.ap_trees.specs.Symbols.{syms};
ghost use Rattle.ap_trees.specs.Trees.{type_of_tree, types_of};
ghost use Rattle.ap_trees.specs.Types as trees;
ghost use Rattle.ap_trees.specs.TypeReader as spec;
ghost use Rattle.ap_trees.specs.TypeReader.{read_type};

use crate::cursor::{after_close, after_close_list, after_comma, after_lambda};
use crate::outcome::ReadError;
use crate::symbols::Symbol;
use crate::trees::TypeTree;
use std::alloc::{AllocError, Global};

/// The tuple of one type or more.
fn tuple<'a>(alloc: Global, mut parts: Vec<TypeTree<'a>>) -> Result<TypeTree<'a>, AllocError>
    ensures { IfOk result (λ t. type_of_tree t ≡ trees.tuple_type (types_of parts.entry.items)) }
{
    let Some(mut whole) = parts.pop() else {
        return Ok(TypeTree::Unit);
    };
    while let Some(part) = parts.pop() {
        whole = TypeTree::Pair(Box::new(alloc, part)?, Box::new(alloc, whole)?);
    }
    Ok(whole)
}

/// A type that begins the symbols, and what follows it.
pub fn type_tree<'a, 's>(
    alloc: Global,
    levels: usize,
    symbols: &'s [Symbol<'a>],
) -> Result<(TypeTree<'a>, &'s [Symbol<'a>]), ReadError>
    ensures value { GivesPart (λ r. (type_of_tree r.0, syms r.1.now)) result
        (read_type levels (syms symbols.now)) }
    ensures shorter { IfOk result (λ r. length r.1.now < length symbols.now) }
{
    any_type(alloc, levels, symbols)
}

/// A type that begins the symbols, as its first symbol says, and what follows it.
#[cycle(types)]
#[tactic(auto, unfolding(crate::specs::TypeReader::read_type))]
fn any_type<'a, 's>(
    alloc: Global,
    levels: usize,
    symbols: &'s [Symbol<'a>],
) -> Result<(TypeTree<'a>, &'s [Symbol<'a>]), ReadError>
    ensures { GivesPart (λ r. (type_of_tree r.0, syms r.1.now)) result
        (read_type levels (syms symbols.now)) }
{
    if levels == 0 {
        return Err(ReadError::Grammar);
    }
    match symbols {
        [Symbol::Ident(word), rest @ ..] => word_type(alloc, levels - 1, word, rest),
        [Symbol::Open, rest @ ..] => group(alloc, levels - 1, rest),
        [Symbol::OpenList, rest @ ..] => list(alloc, levels - 1, rest),
        _ => Err(ReadError::Grammar),
    }
}

/// A word, alone or as the name type of an abstraction.
#[cycle(types)]
#[tactic(auto, unfolding(crate::specs::TypeReader::type_of_word))]
fn word_type<'a, 's>(
    alloc: Global,
    levels: usize,
    word: &'a str,
    symbols: &'s [Symbol<'a>],
) -> Result<(TypeTree<'a>, &'s [Symbol<'a>]), ReadError>
    ensures { GivesPart (λ r. (type_of_tree r.0, syms r.1.now)) result (spec.type_of_word
        (read_type levels) word.entry.now (syms symbols.now)) }
{
    match after_lambda(symbols) {
        Some(rest) => {
            let (body, rest) = any_type(alloc, levels, rest)?;
            Ok((TypeTree::Abs(word, Box::new(alloc, body)?), rest))
        }
        None => Ok((TypeTree::Word(word), symbols)),
    }
}

/// What stands in parentheses.
#[cycle(types)]
#[tactic(auto, unfolding(crate::specs::TypeReader::type_of_group))]
fn group<'a, 's>(
    alloc: Global,
    levels: usize,
    symbols: &'s [Symbol<'a>],
) -> Result<(TypeTree<'a>, &'s [Symbol<'a>]), ReadError>
    ensures { GivesPart (λ r. (type_of_tree r.0, syms r.1.now)) result (spec.type_of_group
        (read_type levels) (syms symbols.now)) }
{
    match after_close(symbols) {
        Some(rest) => Ok((TypeTree::Unit, rest)),
        None => {
            let (parts, rest) = type_list(alloc, levels, symbols)?;
            let rest = after_close(rest).ok_or(ReadError::Grammar)?;
            Ok((tuple(alloc, parts)?, rest))
        }
    }
}

/// The type of lists, behind its bracket.
#[cycle(types)]
#[tactic(auto, unfolding(crate::specs::TypeReader::array_of))]
fn list<'a, 's>(
    alloc: Global,
    levels: usize,
    symbols: &'s [Symbol<'a>],
) -> Result<(TypeTree<'a>, &'s [Symbol<'a>]), ReadError>
    ensures { GivesPart (λ r. (type_of_tree r.0, syms r.1.now)) result
        (spec.array_of (read_type levels) (syms symbols.now)) }
{
    let (element, rest) = any_type(alloc, levels, symbols)?;
    let rest = after_close_list(rest).ok_or(ReadError::Grammar)?;
    Ok((TypeTree::List(Box::new(alloc, element)?), rest))
}

/// The types that begin the symbols, with commas between, and what follows them.
#[cycle(types)]
pub fn type_list<'a, 's>(
    alloc: Global,
    levels: usize,
    symbols: &'s [Symbol<'a>],
) -> Result<(Vec<TypeTree<'a>>, &'s [Symbol<'a>]), ReadError>
    ensures value { GivesPart (λ r. (types_of r.0.items, syms r.1.now)) result (separated
        after_comma (read_type levels) (length symbols.now) (syms symbols.now)) }
    ensures shorter { IfOk result (λ r. length r.1.now < length symbols.now) }
{
    let mut all = Vec::new(alloc);
    let (first, mut rest) = any_type(alloc, levels, symbols)?;
    all.push(first)?;
    while let Some(after) = after_comma(rest) {
        let (next, left) = any_type(alloc, levels, after)?;
        all.push(next)?;
        rest = left;
    }
    Ok((all, rest))
}
