// Reading an item.
ghost use Rattle.std.specs.Prelude.{◌≡◌, [], ◌∷◌, IfOk};
ghost use Rattle.std.specs.Option.{option_map};
ghost use Rattle.ap_trees.specs.Outcomes.{GivesPart};
ghost use Rattle.ap_trees.specs.Symbols.{syms};
ghost use Rattle.ap_trees.specs.Trees.{type_of_tree, types_of, goal_of_tree, form_of};
ghost use Rattle.ap_syntax.specs.GoalReader.{all_goal};
ghost use Rattle.ap_syntax.specs.ItemReader as spec;

use crate::flat::{Head, atom};
use crate::goals::goal;
use crate::marks::{after_arrow, after_ask, after_if, after_pred, declared, ident, sole_ident};
use ap_defs::lists::List;
use ap_trees::{
    Form, GoalTree, ReadError, Symbol, TypeTree, after_close, after_open, type_list, type_tree,
};
use std::alloc::{AllocError, Global};

/// The types up to the `)` that closes them, and what follows it.
#[tactic(auto, unfolding(crate::specs::ItemReader::types_inside))]
fn types_inside<'a, 's>(
    alloc: Global,
    symbols: &'s [Symbol<'a>],
) -> Result<(Vec<TypeTree<'a>>, &'s [Symbol<'a>]), ReadError>
    ensures { GivesPart (λ r. (types_of r.0.items, syms r.1.now)) result
        (spec.types_inside (syms symbols.now)) }
{
    let (parts, rest) = type_list(alloc, symbols.len(), symbols)?;
    let rest = after_close(rest).ok_or(ReadError::Grammar)?;
    Ok((parts, rest))
}

/// One type as an argument, and what follows it.
#[tactic(auto, unfolding(crate::specs::ItemReader::sole_argument))]
fn sole_argument<'a, 's>(
    alloc: Global,
    symbols: &'s [Symbol<'a>],
) -> Result<(Vec<TypeTree<'a>>, &'s [Symbol<'a>]), ReadError>
    ensures { GivesPart (λ r. (types_of r.0.items, syms r.1.now)) result
        (spec.sole_argument (syms symbols.now)) }
{
    let (tree, rest) = type_tree(alloc, symbols.len(), symbols)?;
    Ok((one_type(alloc, tree)?, rest))
}

/// A type alone.
fn one_type<'a>(alloc: Global, tree: TypeTree<'a>) -> Result<Vec<TypeTree<'a>>, AllocError>
    ensures { IfOk result (λ all. types_of all.items ≡ type_of_tree tree.entry ∷ []) }
{
    let mut all = Vec::new(alloc);
    all.push(tree)?;
    Ok(all)
}

/// What stands in parentheses as arguments, behind its `(`, and what follows it.
#[tactic(auto, unfolding(crate::specs::ItemReader::listed_arguments))]
fn listed_arguments<'a, 's>(
    alloc: Global,
    symbols: &'s [Symbol<'a>],
) -> Result<(Vec<TypeTree<'a>>, &'s [Symbol<'a>]), ReadError>
    ensures { GivesPart (λ r. (types_of r.0.items, syms r.1.now)) result (spec.listed_arguments
        (syms symbols.now)) }
{
    match after_close(symbols) {
        Some(rest) => Ok((one_type(alloc, TypeTree::Unit)?, rest)),
        None => types_inside(alloc, symbols),
    }
}

/// The arguments before `->`, and what follows them.
#[tactic(auto, unfolding(crate::specs::ItemReader::read_arguments))]
fn arguments<'a, 's>(
    alloc: Global,
    symbols: &'s [Symbol<'a>],
) -> Result<(Vec<TypeTree<'a>>, &'s [Symbol<'a>]), ReadError>
    ensures { GivesPart (λ r. (types_of r.0.items, syms r.1.now)) result
        (spec.read_arguments (syms symbols.now)) }
{
    match after_open(symbols) {
        Some(rest) => listed_arguments(alloc, rest),
        None => sole_argument(alloc, symbols),
    }
}

/// A constructor with arguments, behind its colon.
#[tactic(auto, unfolding(crate::specs::ItemReader::constructor_of))]
fn constructor<'a>(
    alloc: Global,
    word: &'a str,
    symbols: &[Symbol<'a>],
) -> Result<Form<'a>, ReadError>
    ensures { GivesPart form_of result (spec.constructor_of word.entry.now (syms symbols.now)) }
{
    let (args, rest) = arguments(alloc, symbols)?;
    let rest = after_arrow(rest).ok_or(ReadError::Grammar)?;
    let result = sole_ident(rest).ok_or(ReadError::Grammar)?;
    Ok(Form::Constructor(word, List::of(args), result))
}

/// A declaration by one symbol, behind its colon.
fn short_form<'a>(alloc: Global, word: &'a str, symbols: &[Symbol<'a>]) -> Option<Form<'a>>
    ensures { option_map form_of result ≡ spec.short_form word.entry.now (syms symbols.now) }
{
    match symbols {
        [Symbol::NameType] => Some(Form::NameType(word)),
        [Symbol::DataType] => Some(Form::DataType(word)),
        [Symbol::Ident(result)] => Some(Form::Constructor(word, List::of(Vec::new(alloc)), result)),
        _ => None,
    }
}

/// A declaration, behind its colon.
#[tactic(auto, unfolding(crate::specs::ItemReader::declaration))]
fn declaration<'a>(
    alloc: Global,
    word: &'a str,
    symbols: &[Symbol<'a>],
) -> Result<Form<'a>, ReadError>
    ensures { GivesPart form_of result (spec.declaration word.entry.now (syms symbols.now)) }
{
    match short_form(alloc, word, symbols) {
        Some(form) => Ok(form),
        None => constructor(alloc, word, symbols),
    }
}

/// A predicate, behind `pred`.
#[tactic(auto, unfolding(crate::specs::ItemReader::predicate_of))]
fn predicate<'a>(alloc: Global, symbols: &[Symbol<'a>]) -> Result<Form<'a>, ReadError>
    ensures { GivesPart form_of result (spec.predicate_of (syms symbols.now)) }
{
    let (word, rest) = ident(symbols).ok_or(ReadError::Grammar)?;
    let (args, rest) = declared_types(alloc, rest)?;
    if rest.is_empty() {
        Ok(Form::Predicate(word, List::of(args)))
    } else {
        Err(ReadError::Grammar)
    }
}

/// The types of a predicate, if it has any, and what follows them.
#[tactic(auto, unfolding(crate::specs::ItemReader::declared_types))]
fn declared_types<'a, 's>(
    alloc: Global,
    symbols: &'s [Symbol<'a>],
) -> Result<(Vec<TypeTree<'a>>, &'s [Symbol<'a>]), ReadError>
    ensures { GivesPart (λ r. (types_of r.0.items, syms r.1.now)) result
        (spec.declared_types (syms symbols.now)) }
{
    match after_open(symbols) {
        Some(rest) => types_inside(alloc, rest),
        None => Ok((Vec::new(alloc), symbols)),
    }
}

/// The goal that all the symbols spell.
#[tactic(auto, unfolding(crate::specs::GoalReader::all_goal))]
fn whole_goal<'a>(alloc: Global, symbols: &[Symbol<'a>]) -> Result<GoalTree<'a>, ReadError>
    ensures { GivesPart goal_of_tree result (all_goal (syms symbols.now)) }
{
    let (tree, rest) = goal(alloc, symbols.len(), symbols)?;
    if rest.is_empty() {
        Ok(tree)
    } else {
        Err(ReadError::Grammar)
    }
}

/// The body of a clause, if it has one.
#[tactic(auto, unfolding(crate::specs::ItemReader::body_of))]
fn body<'a>(alloc: Global, symbols: &[Symbol<'a>]) -> Result<Option<GoalTree<'a>>, ReadError>
    ensures { GivesPart (λ r. option_map goal_of_tree r) result (spec.body_of (syms symbols.now)) }
{
    match after_if(symbols) {
        Some(rest) => Ok(Some(whole_goal(alloc, rest)?)),
        None if symbols.is_empty() => Ok(None),
        None => Err(ReadError::Grammar),
    }
}

/// A fact or a rule.
#[tactic(auto, unfolding(crate::specs::ItemReader::clause_of))]
fn clause<'a>(alloc: Global, symbols: &[Symbol<'a>]) -> Result<Form<'a>, ReadError>
    ensures { GivesPart form_of result (spec.clause_of (syms symbols.now)) }
{
    let (Head { word, args }, rest) = atom(alloc, symbols)?;
    let body = body(alloc, rest)?;
    Ok(Form::Clause(word, List::of(args), body))
}

/// A query, behind `?-`.
#[tactic(auto, unfolding(crate::specs::ItemReader::query_of))]
fn query<'a>(alloc: Global, symbols: &[Symbol<'a>]) -> Result<Form<'a>, ReadError>
    ensures { GivesPart form_of result (spec.query_of (syms symbols.now)) }
{
    let goal = whole_goal(alloc, symbols)?;
    Ok(Form::Query(goal))
}

/// What the item says that all the symbols spell.
#[tactic(auto, unfolding(crate::specs::ItemReader::read_item))]
pub fn form<'a>(alloc: Global, symbols: &[Symbol<'a>]) -> Result<Form<'a>, ReadError>
    ensures { GivesPart form_of result (spec.read_item (syms symbols.now)) }
{
    match after_pred(symbols) {
        Some(rest) => predicate(alloc, rest),
        None => match after_ask(symbols) {
            Some(rest) => query(alloc, rest),
            None => match declared(symbols) {
                Some((word, rest)) => declaration(alloc, word, rest),
                None => clause(alloc, symbols),
            },
        },
    }
}
