//! The types that trees of types stand for, and their faults.
ghost use Rattle.std.specs.Prelude.{◌≡◌, map, IfOk};
ghost use Rattle.std.specs.Option.{option_map};
ghost use Rattle.ap_defs.specs.Types.{type_of};
ghost use Rattle.ap_trees.specs.Trees as trees;
ghost use Rattle.ap_trees.specs.Trees.{types_of};
ghost use Rattle.ap_scopes.specs.Types as spec;
ghost use Rattle.ap_scopes.specs.Flaws as flaws;
ghost use Rattle.ap_scopes.specs.Views.{declared_of, IsIndexed, IsSmall};

use crate::declarations::Declarations;
use crate::flaws::least;
use ap_defs::faults::TypeKind;
use ap_defs::lists::List;
use ap_defs::memory::Memory;
use ap_defs::spines::{TypeLayer, close_type};
use ap_defs::terms::Ty;
use ap_trees::TypeTree;
use std::alloc::Global;
use std::sync::Arc;

/// The abstraction over a name type. Over anything else it is a fault, and its type never counts.
fn abstraction_over(alloc: Global, over: Option<Ty>, body: Ty) -> Result<Ty, Memory>
    ensures { IfOk result (λ t. type_of t
        ≡ spec.abstraction_over (option_map type_of over) (type_of body)) }
{
    match &over {
        Some(Ty::Names(sort)) => Ok(Ty::Abs(*sort, Arc::new(alloc, body)?)),
        _ => Ok(Ty::Unit),
    }
}

/// The type that a tree of a type stands for. `Err` is want of memory.
///
/// It goes on along the right part of a pair and the elements of a list, and calls itself on left parts
/// of pairs and on what is right of `\` alone.
#[tactic(auto, using(ap_defs::proofs::SpineLemmas::type_within_last))]
pub fn resolved_type(
    alloc: Global,
    declared: &Declarations<'_>,
    tree: &TypeTree<'_>,
) -> Result<Ty, Memory>
    requires indexed { IsIndexed declared.now }
    requires small { IsSmall declared.now }
    ensures { IfOk result (λ t. type_of t
        ≡ spec.resolved_type (declared_of declared.now).signature (trees.type_of_tree tree.now)) }
{
    let mut layers = Vec::new(alloc);
    let mut rest = tree;
    loop {
        match rest {
            TypeTree::Unit => return close_type(alloc, layers, Ty::Unit),
            TypeTree::Word(word) => {
                let named = declared.type_named(word).unwrap_or(Ty::Unit);
                return close_type(alloc, layers, named);
            }
            TypeTree::Pair(left, right) => {
                layers.push(TypeLayer::Left(resolved_type(alloc, declared, left)?))?;
                rest = right;
            }
            TypeTree::List(element) => {
                layers.push(TypeLayer::List)?;
                rest = element;
            }
            TypeTree::Abs(word, body) => {
                let body = resolved_type(alloc, declared, body)?;
                let made = abstraction_over(alloc, declared.type_named(word), body)?;
                return close_type(alloc, layers, made);
            }
        }
    }
}

/// The types that trees of types stand for. `Err` is want of memory.
pub fn resolved_types(
    alloc: Global,
    declared: &Declarations<'_>,
    trees: &[TypeTree<'_>],
) -> Result<List<Ty>, Memory>
    requires indexed { IsIndexed declared.now }
    requires small { IsSmall declared.now }
    ensures { IfOk result (λ ts. map type_of ts
        ≡ spec.resolved_types (declared_of declared.now).signature (types_of trees.now)) }
{
    let mut types = Vec::new(alloc);
    for tree in trees {
        types.push(resolved_type(alloc, declared, tree)?)?;
    }
    Ok(List::of(types))
}

/// The fault of a word that stands for a type.
fn type_word_flaw(found: Option<Ty>) -> Option<TypeKind>
    ensures { result ≡ flaws.type_word_flaw (option_map type_of found) }
{
    match found {
        Some(_) => None,
        None => Some(TypeKind::Undeclared),
    }
}

/// The fault of a word that stands left of `\`.
fn name_type_flaw(found: Option<Ty>) -> Option<TypeKind>
    ensures { result ≡ flaws.name_type_flaw (option_map type_of found) }
{
    match &found {
        Some(Ty::Names(_)) => None,
        Some(_) => Some(TypeKind::Clash),
        None => Some(TypeKind::Undeclared),
    }
}

/// The fault of a word that is a constructor's result.
pub fn result_flaw(found: Option<Ty>) -> Option<TypeKind>
    ensures { result ≡ flaws.result_flaw (option_map type_of found) }
{
    match &found {
        Some(Ty::Base(_)) => None,
        Some(_) => Some(TypeKind::Clash),
        None => Some(TypeKind::Undeclared),
    }
}

/// The least kind of a type's faults.
#[tactic(auto, using(crate::proofs::LeastLemmas::least_assoc, crate::proofs::LeastLemmas::least_none))]
pub fn type_flaw(declared: &Declarations<'_>, tree: &TypeTree<'_>) -> Option<TypeKind>
    requires indexed { IsIndexed declared.now }
    requires small { IsSmall declared.now }
    ensures { result
        ≡ flaws.type_flaw (declared_of declared.now).signature (trees.type_of_tree tree.now) }
{
    let mut flaw = None;
    let mut rest = tree;
    loop {
        match rest {
            TypeTree::Unit => return flaw,
            TypeTree::Word(word) => {
                return least(flaw, type_word_flaw(declared.type_named(word)));
            }
            TypeTree::Pair(left, right) => {
                flaw = least(flaw, type_flaw(declared, left));
                rest = right;
            }
            TypeTree::List(element) => rest = element,
            TypeTree::Abs(word, body) => {
                flaw = least(flaw, name_type_flaw(declared.type_named(word)));
                rest = body;
            }
        }
    }
}

/// The least kind of the faults of types.
pub fn types_flaw(declared: &Declarations<'_>, trees: &[TypeTree<'_>]) -> Option<TypeKind>
    requires indexed { IsIndexed declared.now }
    requires small { IsSmall declared.now }
    ensures { result ≡ flaws.types_flaw (declared_of declared.now).signature (types_of trees.now) }
{
    let mut flaw = None;
    for tree in trees {
        flaw = least(flaw, type_flaw(declared, tree));
    }
    flaw
}
