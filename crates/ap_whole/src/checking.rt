//! Typing of a text.
ghost use Rattle.std.specs.Prelude.{◌≡◌, ◌≤◌, IfOk, IfErr, length};
ghost use Rattle.ap_defs.specs.RawTerms.{raw_of};
ghost use Rattle.ap_defs.specs.Goals.{program_over};
ghost use Rattle.ap_defs.specs.Limits.{size_limit};
ghost use Rattle.ap_trees.specs.Trees.{items_of_text};
ghost use Rattle.ap_program.specs.Typed.{IsTypedRawProgram};
ghost use Rattle.ap_program.specs.NameRestriction.{item_count};
ghost use Rattle.ap_typecheck.specs.Checking.{IsProgramOf};
ghost use Rattle.ap_typecheck.specs.Typings.{IsTypingOf};
ghost use Rattle.ap_typecheck.specs.Views.{IsRefusedByTypes};

use ap_defs::goals::Program;
use ap_defs::memory::Memory;
use ap_defs::terms::Raw;
use ap_trees::Item;
use ap_typecheck::{TypeError, Typing};
use std::alloc::Global;

/// What the items make, or the first fault.
fn check_items<'a>(alloc: Global, items: Vec<Item<'a>>) -> Result<Typing<'a>, TypeError>
    requires { length items.items ≤ size_limit }
    ensures made { IfOk result (λ t. IsTypingOf (items_of_text items.entry.items) t) }
    ensures err { IfErr result (λ e. IsRefusedByTypes e (items_of_text items.entry.items)) }
{
    let mut typing = Typing::new(alloc);
    for item in items {
        match typing.add(alloc, item) {
            Ok(()) => {}
            Err(error) => return Err(error),
        }
    }
    Ok(typing)
}

/// The typed program of a text's items.
///
/// A fault is that of the first faulty item: its number from 1, its line, and the least kind that applies:
/// `Undeclared`, a type, an applied constructor or a predicate that no earlier item declares; `Redeclared`,
/// the item declares what an earlier one of the same space declares; `Arity`, a constructor or predicate
/// with another number of arguments than declared; `Clash`, no assignment of types to the item's
/// identifiers fits, the left of `\` in a type isn't a name type, a constructor's result isn't a data type,
/// or a declared constructor stands as a binder, in one of the first two places of `swap`, or after `new`;
/// `Ambiguous`, more than one assignment fits; `Empty`, exactly one does, and a variable has a type that
/// isn't inhabited. `Memory` is want of memory.
pub fn check(alloc: Global, items: Vec<Item<'_>>) -> Result<Program<Raw>, TypeError>
    requires { length items.items ≤ size_limit }
    ensures program { IfOk result (λ p. IsProgramOf (items_of_text items.entry.items)
        (program_over raw_of p)) }
    ensures typed { IfOk result (λ p. IsTypedRawProgram (program_over raw_of p)) }
    ensures bounded { IfOk result (λ p. item_count (program_over raw_of p) ≤ size_limit) }
    ensures fault { IfErr result (λ e. IsRefusedByTypes e (items_of_text items.entry.items)) }
{
    let typing = check_items(alloc, items)?;
    match typing.finish(alloc) {
        Ok(program) => Ok(program),
        Err(Memory) => Err(TypeError::Memory),
    }
}
