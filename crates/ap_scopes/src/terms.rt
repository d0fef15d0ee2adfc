//! Terms with numbers for their words.
ghost use Rattle.std.specs.Prelude.{◌≡◌, IfOk, OnOk, map};
ghost use Rattle.ap_defs.specs.RawTerms.{raw_of};
ghost use Rattle.ap_spines.specs.Spines.{raw_within};
ghost use Rattle.ap_trees.specs.Trees.{term_of, terms_of, trees_of, name_of_binder};
ghost use Rattle.ap_trees.specs.Terms.{Apply, Pair, Cell, Abs, Last, More};
ghost use Rattle.ap_scopes.specs.Resolution as spec;
ghost use Rattle.ap_scopes.specs.Resolution.{made};
ghost use Rattle.ap_scopes.specs.Views.{IsIndexed, IsSmall, IsNumbered, declared_of, found_of, scope_of};

use crate::declarations::Declarations;
use crate::identifiers::{Brought, Identifiers};
use crate::singles::{binder, constructor_number, identifier, word_alone};
use ap_defs::lists::List;
use ap_defs::memory::Memory;
use ap_defs::terms::Raw;
use ap_spines::{RawLayer, close_raw, raw_abs, raw_pair, swapping_layer};
use ap_trees::{Application, Args, Binder, Tree};
use std::alloc::Global;

/// Whether what is last in a term goes on in the same way. It spares work alone.
fn goes_on(tree: &Tree<'_>) -> bool {
    match tree {
        Tree::Pair(_, _) | Tree::Cell(_, _) | Tree::Abs(_, _) | Tree::Swapped(_, _) => true,
        Tree::Unit | Tree::Nil | Tree::Var(_) | Tree::Word(_) | Tree::Apply(_) => false,
    }
}

/// A term with numbers for its words. `Err` is want of memory.
///
/// It comes to itself on left parts and arguments alone.
#[cycle(terms)]
pub fn resolved_term<'a>(
    alloc: Global,
    declared: &Declarations<'_>,
    scope: &Brought<'_, 'a>,
    tree: &Tree<'a>,
    found: &mut Identifiers<'a>,
) -> Result<Raw, Memory>
    requires indexed { IsIndexed declared.now }
    requires small { IsSmall declared.now }
    requires numbered { IsNumbered found.old }
    ensures value { IfOk result (λ t. (raw_of t, found_of found.new)
        ≡ spec.resolved_term (declared_of declared.now) (scope_of scope.now) (term_of tree.now)
        (found_of found.old)) }
    ensures numbered { OnOk result (IsNumbered found.new) }
{
    match tree {
        Tree::Unit => Ok(Raw::Unit),
        Tree::Var(word) => identifier(scope, Binder::Var(word), found),
        Tree::Word(word) => word_alone(alloc, declared, scope, word, found),
        Tree::Apply(applied) => {
            let Application::To(word, args) = &**applied;
            resolved_application(alloc, declared, scope, word, args, found)
        }
        Tree::Abs(spelling, body) => {
            if goes_on(body) {
                return resolved_spine(alloc, declared, scope, tree, found);
            }
            resolved_abstraction(alloc, declared, scope, **spelling, body, found)
        }
        Tree::Pair(left, right) => {
            if goes_on(right) {
                return resolved_spine(alloc, declared, scope, tree, found);
            }
            resolved_pair(alloc, declared, scope, left, right, found)
        }
        Tree::Nil => Ok(Raw::App(0, Box::new(alloc, Raw::Unit)?)),
        Tree::Cell(head, tail) => {
            if goes_on(tail) {
                return resolved_spine(alloc, declared, scope, tree, found);
            }
            resolved_cell(alloc, declared, scope, head, tail, found)
        }
        Tree::Swapped(_, _) => resolved_spine(alloc, declared, scope, tree, found),
    }
}

/// A pair.
#[cycle(terms)]
#[tactic(auto, using(crate::proofs::Orders::in_order_is))]
fn resolved_pair<'a>(
    alloc: Global,
    declared: &Declarations<'_>,
    scope: &Brought<'_, 'a>,
    left: &Tree<'a>,
    right: &Tree<'a>,
    found: &mut Identifiers<'a>,
) -> Result<Raw, Memory>
    requires indexed { IsIndexed declared.now }
    requires small { IsSmall declared.now }
    requires numbered { IsNumbered found.old }
    ensures value { IfOk result (λ t. (raw_of t, found_of found.new)
        ≡ spec.resolved_term (declared_of declared.now) (scope_of scope.now)
        (Pair (term_of left.now) (term_of right.now)) (found_of found.old)) }
    ensures numbered { OnOk result (IsNumbered found.new) }
{
    let left = resolved_term(alloc, declared, scope, left, found)?;
    let right = resolved_term(alloc, declared, scope, right, found)?;
    raw_pair(alloc, left, right)
}

/// A list cell whose tail ends at once, as that of a list of one element does.
#[cycle(terms)]
fn resolved_cell<'a>(
    alloc: Global,
    declared: &Declarations<'_>,
    scope: &Brought<'_, 'a>,
    head: &Tree<'a>,
    tail: &Tree<'a>,
    found: &mut Identifiers<'a>,
) -> Result<Raw, Memory>
    requires indexed { IsIndexed declared.now }
    requires small { IsSmall declared.now }
    requires numbered { IsNumbered found.old }
    ensures value { IfOk result (λ t. (raw_of t, found_of found.new)
        ≡ spec.resolved_term (declared_of declared.now) (scope_of scope.now)
        (Cell (term_of head.now) (term_of tail.now)) (found_of found.old)) }
    ensures numbered { OnOk result (IsNumbered found.new) }
{
    let parts = resolved_pair(alloc, declared, scope, head, tail, found)?;
    Ok(Raw::App(1, Box::new(alloc, parts)?))
}

/// An abstraction.
#[cycle(terms)]
#[tactic(auto, using(crate::proofs::Orders::in_order_is))]
fn resolved_abstraction<'a>(
    alloc: Global,
    declared: &Declarations<'_>,
    scope: &Brought<'_, 'a>,
    spelling: Binder<'a>,
    body: &Tree<'a>,
    found: &mut Identifiers<'a>,
) -> Result<Raw, Memory>
    requires indexed { IsIndexed declared.now }
    requires small { IsSmall declared.now }
    requires numbered { IsNumbered found.old }
    ensures value { IfOk result (λ t. (raw_of t, found_of found.new)
        ≡ spec.resolved_term (declared_of declared.now) (scope_of scope.now)
        (Abs (name_of_binder spelling.entry) (term_of body.now)) (found_of found.old)) }
    ensures numbered { OnOk result (IsNumbered found.new) }
{
    let id = binder(scope, spelling, found)?;
    let body = resolved_term(alloc, declared, scope, body, found)?;
    raw_abs(alloc, id, body)
}

/// A constructor with its arguments.
#[cycle(terms)]
fn resolved_application<'a>(
    alloc: Global,
    declared: &Declarations<'_>,
    scope: &Brought<'_, 'a>,
    word: &'a str,
    args: &Args<'a>,
    found: &mut Identifiers<'a>,
) -> Result<Raw, Memory>
    requires indexed { IsIndexed declared.now }
    requires small { IsSmall declared.now }
    requires numbered { IsNumbered found.old }
    ensures value { IfOk result (λ t. (raw_of t, found_of found.new)
        ≡ spec.resolved_term (declared_of declared.now) (scope_of scope.now)
        (Apply word.now (terms_of args.now)) (found_of found.old)) }
    ensures numbered { OnOk result (IsNumbered found.new) }
{
    let number = constructor_number(declared.constructor_place(word));
    let argument = resolved_arguments(alloc, declared, scope, args, found)?;
    Ok(Raw::App(number, Box::new(alloc, argument)?))
}

/// A term that goes on to the right.
#[cycle(terms)]
fn resolved_spine<'a>(
    alloc: Global,
    declared: &Declarations<'_>,
    scope: &Brought<'_, 'a>,
    tree: &Tree<'a>,
    found: &mut Identifiers<'a>,
) -> Result<Raw, Memory>
    requires indexed { IsIndexed declared.now }
    requires small { IsSmall declared.now }
    requires numbered { IsNumbered found.old }
    ensures value { IfOk result (λ t. (raw_of t, found_of found.new)
        ≡ spec.resolved_term (declared_of declared.now) (scope_of scope.now) (term_of tree.now)
        (found_of found.old)) }
    ensures numbered { OnOk result (IsNumbered found.new) }
{
    let mut layers = Vec::new(alloc);
    let innermost = innermost_term(alloc, declared, scope, tree, found, &mut layers)?;
    close_raw(alloc, layers, innermost)
}

/// What stands last in a term that goes on to the right: it goes along what is last in it, and puts what stands
/// round that behind the layers.
#[cycle(terms)]
fn innermost_term<'a>(
    alloc: Global,
    declared: &Declarations<'_>,
    scope: &Brought<'_, 'a>,
    tree: &Tree<'a>,
    found: &mut Identifiers<'a>,
    layers: &mut Vec<RawLayer>,
) -> Result<Raw, Memory>
    requires indexed { IsIndexed declared.now }
    requires small { IsSmall declared.now }
    requires numbered { IsNumbered found.old }
    ensures value { IfOk result (λ t. (raw_within layers.new.items (raw_of t), found_of found.new)
        ≡ made (raw_within layers.old.items) (spec.resolved_term (declared_of declared.now)
        (scope_of scope.now) (term_of tree.now) (found_of found.old))) }
    ensures numbered { OnOk result (IsNumbered found.new) }
{
    let mut rest = tree;
    loop {
        match rest {
            Tree::Unit => return Ok(Raw::Unit),
            Tree::Nil => return Ok(Raw::App(0, Box::new(alloc, Raw::Unit)?)),
            Tree::Var(word) => return identifier(scope, Binder::Var(word), found),
            Tree::Word(word) => return word_alone(alloc, declared, scope, word, found),
            Tree::Apply(applied) => {
                let Application::To(word, args) = &**applied;
                return resolved_application(alloc, declared, scope, word, args, found);
            }
            Tree::Pair(left, right) => {
                layers.push(RawLayer::Left(resolved_term(alloc, declared, scope, left, found)?))?;
                rest = right;
            }
            Tree::Cell(head, tail) => {
                layers.push(RawLayer::Cell(resolved_term(alloc, declared, scope, head, found)?))?;
                rest = tail;
            }
            Tree::Abs(spelling, body) => {
                layers.push(RawLayer::Abs(binder(scope, **spelling, found)?))?;
                rest = body;
            }
            Tree::Swapped(sides, body) => {
                let left = binder(scope, sides.left, found)?;
                let right = binder(scope, sides.right, found)?;
                layers.push(swapping_layer(alloc, left, right)?)?;
                rest = body;
            }
        }
    }
}

/// Arguments as one term: one is itself, two are a pair, and more are their tuple.
#[cycle(terms)]
fn resolved_arguments<'a>(
    alloc: Global,
    declared: &Declarations<'_>,
    scope: &Brought<'_, 'a>,
    args: &Args<'a>,
    found: &mut Identifiers<'a>,
) -> Result<Raw, Memory>
    requires indexed { IsIndexed declared.now }
    requires small { IsSmall declared.now }
    requires numbered { IsNumbered found.old }
    ensures value { IfOk result (λ t. (raw_of t, found_of found.new)
        ≡ spec.resolved_arguments (declared_of declared.now) (scope_of scope.now)
        (terms_of args.now) (found_of found.old)) }
    ensures numbered { OnOk result (IsNumbered found.new) }
{
    match args {
        Args::Last(last) => resolved_term(alloc, declared, scope, last, found),
        Args::More(first, more) => match &**more {
            Args::Last(second) => resolved_two(alloc, declared, scope, first, second, found),
            Args::More(_, _) => resolved_tuple(alloc, declared, scope, args, found),
        },
    }
}

/// Two arguments as one term: their pair.
#[cycle(terms)]
#[tactic(auto, using(crate::proofs::Orders::in_order_is))]
fn resolved_two<'a>(
    alloc: Global,
    declared: &Declarations<'_>,
    scope: &Brought<'_, 'a>,
    first: &Tree<'a>,
    second: &Tree<'a>,
    found: &mut Identifiers<'a>,
) -> Result<Raw, Memory>
    requires indexed { IsIndexed declared.now }
    requires small { IsSmall declared.now }
    requires numbered { IsNumbered found.old }
    ensures value { IfOk result (λ t. (raw_of t, found_of found.new)
        ≡ spec.resolved_arguments (declared_of declared.now) (scope_of scope.now)
        (More (term_of first.now) (Last (term_of second.now))) (found_of found.old)) }
    ensures numbered { OnOk result (IsNumbered found.new) }
{
    let left = resolved_term(alloc, declared, scope, first, found)?;
    let right = resolved_term(alloc, declared, scope, second, found)?;
    raw_pair(alloc, left, right)
}

/// Arguments as one term: their tuple, written out as pairs.
#[cycle(terms)]
fn resolved_tuple<'a>(
    alloc: Global,
    declared: &Declarations<'_>,
    scope: &Brought<'_, 'a>,
    args: &Args<'a>,
    found: &mut Identifiers<'a>,
) -> Result<Raw, Memory>
    requires indexed { IsIndexed declared.now }
    requires small { IsSmall declared.now }
    requires numbered { IsNumbered found.old }
    ensures value { IfOk result (λ t. (raw_of t, found_of found.new)
        ≡ spec.resolved_arguments (declared_of declared.now) (scope_of scope.now)
        (terms_of args.now) (found_of found.old)) }
    ensures numbered { OnOk result (IsNumbered found.new) }
{
    let mut layers = Vec::new(alloc);
    let mut rest = args;
    loop {
        match rest {
            Args::Last(last) => {
                let last = resolved_term(alloc, declared, scope, last, found)?;
                return close_raw(alloc, layers, last);
            }
            Args::More(first, more) => {
                layers.push(RawLayer::Left(resolved_term(alloc, declared, scope, first, found)?))?;
                rest = more;
            }
        }
    }
}

/// Terms with numbers for their words. `Err` is want of memory.
pub fn resolved_terms<'a>(
    alloc: Global,
    declared: &Declarations<'_>,
    scope: &Brought<'_, 'a>,
    trees: &[Tree<'a>],
    found: &mut Identifiers<'a>,
) -> Result<List<Raw>, Memory>
    requires indexed { IsIndexed declared.now }
    requires small { IsSmall declared.now }
    requires numbered { IsNumbered found.old }
    ensures value { IfOk result (λ ts. (map raw_of ts, found_of found.new)
        ≡ spec.resolved_terms (declared_of declared.now) (scope_of scope.now) (trees_of trees.now)
        (found_of found.old)) }
    ensures numbered { OnOk result (IsNumbered found.new) }
{
    let mut terms = Vec::with_capacity(alloc, trees.len())?;
    for tree in trees {
        terms.push(resolved_term(alloc, declared, scope, tree, found)?)?;
    }
    Ok(List::of(terms))
}
