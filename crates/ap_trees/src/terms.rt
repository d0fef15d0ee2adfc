// Reading a term.
ghost use Rattle.std.specs.Prelude.{◌≡◌, ◌<◌, length, IfOk, Some};
ghost use Rattle.ap_trees.specs.Outcomes.{GivesPart};
ghost use Rattle.ap_trees.specs.Readers.{separated, after_comma};
ghost use Rattle.ap_trees.specs.Symbols.{syms};
ghost use Rattle.ap_trees.specs.TermReader as spec;
ghost use Rattle.ap_trees.specs.TermReader.{read_term};
ghost use Rattle.ap_trees.specs.Trees.{term_of, trees_of, name_of_binder};

use crate::building::{
    abstracted, applied, begun, cells, closed, closed_list, sole_application, sole_list, swapping,
    tuple,
};
use crate::cursor::{
    after_bar, after_close, after_close_list, after_comma, after_lambda, after_open,
};
use crate::outcome::ReadError;
use crate::sides::sides;
use crate::symbols::Symbol;
use crate::trees::{Binder, Tree};
use std::alloc::Global;

/// A term that begins the symbols, and what follows it.
pub fn term<'a, 's>(
    alloc: Global,
    levels: usize,
    symbols: &'s [Symbol<'a>],
) -> Result<(Tree<'a>, &'s [Symbol<'a>]), ReadError>
    ensures value { GivesPart (λ r. (term_of r.0, syms r.1.now)) result
        (read_term levels (syms symbols.now)) }
    ensures shorter { IfOk result (λ r. length r.1.now < length symbols.now) }
{
    any_term(alloc, levels, symbols)
}

/// A term that begins the symbols, as its first symbol says, and what follows it.
#[cycle(terms)]
#[tactic(auto, unfolding(crate::specs::TermReader::read_term))]
fn any_term<'a, 's>(
    alloc: Global,
    levels: usize,
    symbols: &'s [Symbol<'a>],
) -> Result<(Tree<'a>, &'s [Symbol<'a>]), ReadError>
    ensures { GivesPart (λ r. (term_of r.0, syms r.1.now)) result
        (read_term levels (syms symbols.now)) }
{
    if levels == 0 {
        return Err(ReadError::Grammar);
    }
    match symbols {
        [Symbol::Var(word), rest @ ..] => variable(alloc, levels - 1, word, rest),
        [Symbol::Ident(word), rest @ ..] => word_term(alloc, levels - 1, word, rest),
        [Symbol::Open, rest @ ..] => group(alloc, levels - 1, rest),
        [Symbol::OpenList, rest @ ..] => list(alloc, levels - 1, rest),
        [Symbol::Swap, rest @ ..] => swapped(alloc, levels - 1, rest),
        _ => Err(ReadError::Grammar),
    }
}

/// A variable, or an abstraction that it binds.
#[cycle(terms)]
fn variable<'a, 's>(
    alloc: Global,
    levels: usize,
    word: &'a str,
    symbols: &'s [Symbol<'a>],
) -> Result<(Tree<'a>, &'s [Symbol<'a>]), ReadError>
    ensures { GivesPart (λ r. (term_of r.0, syms r.1.now)) result (spec.variable
        (read_term levels) word.entry.now (syms symbols.now)) }
{
    match after_lambda(symbols) {
        Some(rest) => abstraction(alloc, levels, Binder::Var(word), rest),
        None => Ok((Tree::Var(word), symbols)),
    }
}

/// A word, alone, applied, or as the binder of an abstraction.
#[cycle(terms)]
fn word_term<'a, 's>(
    alloc: Global,
    levels: usize,
    word: &'a str,
    symbols: &'s [Symbol<'a>],
) -> Result<(Tree<'a>, &'s [Symbol<'a>]), ReadError>
    ensures { GivesPart (λ r. (term_of r.0, syms r.1.now)) result (spec.word_term
        (read_term levels) word.entry.now (syms symbols.now)) }
{
    match after_lambda(symbols) {
        Some(rest) => abstraction(alloc, levels, Binder::Word(word), rest),
        None => match after_open(symbols) {
            Some(rest) => application(alloc, levels, word, rest),
            None => Ok((Tree::Word(word), symbols)),
        },
    }
}

/// An abstraction, behind its binder.
#[cycle(terms)]
fn abstraction<'a, 's>(
    alloc: Global,
    levels: usize,
    binder: Binder<'a>,
    symbols: &'s [Symbol<'a>],
) -> Result<(Tree<'a>, &'s [Symbol<'a>]), ReadError>
    ensures { GivesPart (λ r. (term_of r.0, syms r.1.now)) result (spec.abstraction
        (read_term levels) (name_of_binder binder.entry) (syms symbols.now)) }
{
    let (body, rest) = any_term(alloc, levels, symbols)?;
    let whole = abstracted(alloc, binder, body)?;
    Ok((whole, rest))
}

/// An application of two arguments or more, behind the first of them.
#[cycle(terms)]
fn longer_application<'a, 's>(
    alloc: Global,
    levels: usize,
    word: &'a str,
    symbols: &'s [Symbol<'a>],
    first: Tree<'a>,
    after: &'s [Symbol<'a>],
) -> Result<(Tree<'a>, &'s [Symbol<'a>]), ReadError>
    requires { read_term levels (syms symbols.now) ≡ Some (term_of first, syms after.now) }
    ensures { GivesPart (λ r. (term_of r.0, syms r.1.now)) result (spec.application
        (read_term levels) word.entry.now (syms symbols.now)) }
{
    let (parts, rest) = further_terms(alloc, levels, symbols, first, after)?;
    let whole = applied(alloc, word, parts)?;
    closed(whole, rest)
}

/// An application, behind its `(`.
#[cycle(terms)]
fn application<'a, 's>(
    alloc: Global,
    levels: usize,
    word: &'a str,
    symbols: &'s [Symbol<'a>],
) -> Result<(Tree<'a>, &'s [Symbol<'a>]), ReadError>
    ensures { GivesPart (λ r. (term_of r.0, syms r.1.now)) result (spec.application
        (read_term levels) word.entry.now (syms symbols.now)) }
{
    let (first, after) = any_term(alloc, levels, symbols)?;
    match after_comma(after) {
        Some(_) => longer_application(alloc, levels, word, symbols, first, after),
        None => sole_application(alloc, word, first, after),
    }
}

/// What stands in parentheses.
#[cycle(terms)]
fn group<'a, 's>(
    alloc: Global,
    levels: usize,
    symbols: &'s [Symbol<'a>],
) -> Result<(Tree<'a>, &'s [Symbol<'a>]), ReadError>
    ensures { GivesPart (λ r. (term_of r.0, syms r.1.now)) result (spec.group
        (read_term levels) (syms symbols.now)) }
{
    match after_close(symbols) {
        Some(rest) => Ok((Tree::Unit, rest)),
        None => {
            let (parts, rest) = term_list(alloc, levels, symbols)?;
            let whole = tuple(alloc, parts)?;
            closed(whole, rest)
        }
    }
}

/// What stands in brackets.
#[cycle(terms)]
fn list<'a, 's>(
    alloc: Global,
    levels: usize,
    symbols: &'s [Symbol<'a>],
) -> Result<(Tree<'a>, &'s [Symbol<'a>]), ReadError>
    ensures { GivesPart (λ r. (term_of r.0, syms r.1.now)) result (spec.list_of
        (read_term levels) (syms symbols.now)) }
{
    match after_close_list(symbols) {
        Some(rest) => Ok((Tree::Nil, rest)),
        None => full_list(alloc, levels, symbols),
    }
}

/// A list of one term or more, behind its bracket. One of a single term takes no memory beside its parts.
#[cycle(terms)]
fn full_list<'a, 's>(
    alloc: Global,
    levels: usize,
    symbols: &'s [Symbol<'a>],
) -> Result<(Tree<'a>, &'s [Symbol<'a>]), ReadError>
    ensures { GivesPart (λ r. (term_of r.0, syms r.1.now)) result (spec.full_list
        (read_term levels) (syms symbols.now)) }
{
    let (first, after) = any_term(alloc, levels, symbols)?;
    match after_close_list(after) {
        Some(rest) => {
            let whole = sole_list(alloc, first)?;
            Ok((whole, rest))
        }
        None => longer_list(alloc, levels, symbols, first, after),
    }
}

/// A list of which more than the first term is read, behind that.
#[cycle(terms)]
fn longer_list<'a, 's>(
    alloc: Global,
    levels: usize,
    symbols: &'s [Symbol<'a>],
    first: Tree<'a>,
    after: &'s [Symbol<'a>],
) -> Result<(Tree<'a>, &'s [Symbol<'a>]), ReadError>
    requires { read_term levels (syms symbols.now) ≡ Some (term_of first, syms after.now) }
    ensures { GivesPart (λ r. (term_of r.0, syms r.1.now)) result (spec.full_list
        (read_term levels) (syms symbols.now)) }
{
    let (parts, rest) = further_terms(alloc, levels, symbols, first, after)?;
    let (end, rest) = list_end(alloc, levels, rest)?;
    let whole = cells(alloc, parts, end)?;
    closed_list(whole, rest)
}

/// The end of a list: a term after a bar, or nothing.
#[cycle(terms)]
fn list_end<'a, 's>(
    alloc: Global,
    levels: usize,
    symbols: &'s [Symbol<'a>],
) -> Result<(Tree<'a>, &'s [Symbol<'a>]), ReadError>
    ensures { GivesPart (λ r. (term_of r.0, syms r.1.now)) result (spec.list_end
        (read_term levels) (syms symbols.now)) }
{
    match after_bar(symbols) {
        Some(rest) => any_term(alloc, levels, rest),
        None => Ok((Tree::Nil, symbols)),
    }
}

/// A swapping, behind `swap`.
#[cycle(terms)]
#[tactic(auto, unfolding(crate::specs::TermReader::swapped))]
fn swapped<'a, 's>(
    alloc: Global,
    levels: usize,
    symbols: &'s [Symbol<'a>],
) -> Result<(Tree<'a>, &'s [Symbol<'a>]), ReadError>
    ensures { GivesPart (λ r. (term_of r.0, syms r.1.now)) result (spec.swapped
        (read_term levels) (syms symbols.now)) }
{
    let Some((sides, rest)) = sides(symbols) else {
        return Err(ReadError::Grammar);
    };
    let (body, rest) = any_term(alloc, levels, rest)?;
    let whole = swapping(alloc, sides, body)?;
    closed(whole, rest)
}

/// The terms that begin the symbols, with commas between, and what follows them, behind the first of them.
#[cycle(terms)]
fn further_terms<'a, 's>(
    alloc: Global,
    levels: usize,
    symbols: &'s [Symbol<'a>],
    first: Tree<'a>,
    after: &'s [Symbol<'a>],
) -> Result<(Vec<Tree<'a>>, &'s [Symbol<'a>]), ReadError>
    requires { read_term levels (syms symbols.now) ≡ Some (term_of first, syms after.now) }
    ensures { GivesPart (λ r. (trees_of r.0.items, syms r.1.now)) result (separated
        after_comma (read_term levels) (length symbols.now) (syms symbols.now)) }
{
    let (mut all, mut rest) = begun(alloc, first, after)?;
    while let Some(after) = after_comma(rest) {
        let (next, left) = any_term(alloc, levels, after)?;
        all.push(next)?;
        rest = left;
    }
    Ok((all, rest))
}

/// The terms that begin the symbols, with commas between, and what follows them.
#[cycle(terms)]
pub fn term_list<'a, 's>(
    alloc: Global,
    levels: usize,
    symbols: &'s [Symbol<'a>],
) -> Result<(Vec<Tree<'a>>, &'s [Symbol<'a>]), ReadError>
    ensures value { GivesPart (λ r. (trees_of r.0.items, syms r.1.now)) result (separated
        after_comma (read_term levels) (length symbols.now) (syms symbols.now)) }
    ensures shorter { IfOk result (λ r. length r.1.now < length symbols.now) }
{
    let (first, after) = any_term(alloc, levels, symbols)?;
    further_terms(alloc, levels, symbols, first, after)
}
