//! Declarations.
ghost use Rattle.std.specs.Prelude.{◌≡◌, ◌++◌, ◌∷◌, [], None, IfOk, OnOk};
ghost use Rattle.ap_trees.specs.Trees.{types_of};
ghost use Rattle.ap_defs.specs.Types.{type_of};
ghost use Rattle.std.specs.Option.{option_map};
ghost use Rattle.ap_scopes.specs.Declarations.{type_named, constructor_place, predicate_place};
ghost use Rattle.ap_scopes.specs.Views.{declared_of, IsSmall};
ghost use Rattle.ap_typecheck.specs.Declaring as spec;
ghost use Rattle.ap_typecheck.specs.Views.{AreTablesKept, made_of};

use crate::state::State;
use ap_defs::goals::Constructor;
use ap_defs::lists::{List, Text};
use ap_defs::memory::Memory;
use ap_defs::terms::Ty;
use ap_scopes::types::resolved_types;
use ap_trees::TypeTree;
use ap_types::inhabitants::declare;
use std::alloc::Global;
use std::mem;

/// One more at the end of a list. After `Err`, which is want of memory, the list is empty.
fn push<T: Drop>(alloc: Global, list: &mut List<T>, item: T) -> Result<(), Memory>
    ensures { OnOk result (list.new ≡ list.old ++ item ∷ []) }
{
    let mut items = mem::replace(list, List::of(Vec::new(alloc))).into_vec();
    items.push(item)?;
    *list = List::of(items);
    Ok(())
}

fn text_of(alloc: Global, word: &str) -> Result<Text, Memory>
    ensures { IfOk result (λ t. t ≡ word.now) }
{
    Ok(Text::of(String::from_str(alloc, word)?))
}

/// A name type is declared.
pub fn declare_name_type<'a>(
    alloc: Global,
    state: &mut State<'a>,
    word: &'a str,
) -> Result<(), Memory>
    requires kept { AreTablesKept state.old }
    requires new { type_named (made_of state.old).declared.signature word.now ≡ None }
    ensures made { OnOk result (made_of state.new
        ≡ spec.with_name_type word.entry.now (made_of state.old)) }
    ensures kept { OnOk result (AreTablesKept state.new) }
{
    let text = text_of(alloc, word)?;
    push(alloc, &mut state.declared.signature.name_types, text)?;
    state.declared.name_types.add(word)?;
    Ok(())
}

/// A data type is declared.
pub fn declare_data_type<'a>(
    alloc: Global,
    state: &mut State<'a>,
    word: &'a str,
) -> Result<(), Memory>
    requires kept { AreTablesKept state.old }
    requires new { type_named (made_of state.old).declared.signature word.now ≡ None }
    ensures made { OnOk result (made_of state.new
        ≡ spec.with_data_type word.entry.now (made_of state.old)) }
    ensures kept { OnOk result (AreTablesKept state.new) }
{
    let text = text_of(alloc, word)?;
    push(alloc, &mut state.declared.signature.data_types, text)?;
    state.declared.data_types.add(word)?;
    Ok(())
}

/// The number of the data type that a word stands for.
fn data_number(found: Option<Ty>) -> u32
    ensures { result ≡ spec.data_number (option_map type_of found) }
{
    match &found {
        Some(Ty::Base(number)) => *number,
        _ => 0,
    }
}

/// A constructor is declared.
pub fn declare_constructor<'a>(
    alloc: Global,
    state: &mut State<'a>,
    word: &'a str,
    args: &[TypeTree<'_>],
    data_type: &str,
) -> Result<(), Memory>
    requires kept { AreTablesKept state.old }
    requires small { IsSmall state.old.declared }
    requires new { constructor_place (made_of state.old).declared word.now ≡ None }
    ensures made { OnOk result (made_of state.new
        ≡ spec.with_constructor word.entry.now (types_of args.now) data_type.now
        (made_of state.old)) }
    ensures kept { OnOk result (AreTablesKept state.new) }
{
    let constructor = Constructor {
        text: text_of(alloc, word)?,
        args: resolved_types(alloc, &state.declared, args)?,
        result: data_number(state.declared.type_named(data_type)),
    };
    declare(alloc, &mut state.inhabitants, &constructor)?;
    push(
        alloc,
        &mut state.declared.signature.constructors,
        constructor,
    )?;
    state.declared.constructors.add(word)?;
    Ok(())
}

/// A predicate is declared. It has no clauses yet.
pub fn declare_predicate<'a>(
    alloc: Global,
    state: &mut State<'a>,
    word: &'a str,
    args: &[TypeTree<'_>],
) -> Result<(), Memory>
    requires kept { AreTablesKept state.old }
    requires small { IsSmall state.old.declared }
    requires new { predicate_place (made_of state.old).declared word.now ≡ None }
    ensures made { OnOk result (made_of state.new
        ≡ spec.with_predicate word.entry.now (types_of args.now) (made_of state.old)) }
    ensures kept { OnOk result (AreTablesKept state.new) }
{
    let types = resolved_types(alloc, &state.declared, args)?;
    push(alloc, &mut state.declared.signature.predicates, types)?;
    state.declared.predicates.add(word)?;
    state.clauses.push(Vec::new(alloc))?;
    Ok(())
}
