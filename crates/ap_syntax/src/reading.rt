// The item that symbols read as.
ghost use Rattle.std.specs.Prelude.{◌≡◌};
ghost use Rattle.ap_trees.specs.Symbols.{syms};
ghost use Rattle.ap_trees.specs.Trees.{item_of};
ghost use Rattle.ap_syntax.specs.Reading.{GivesOneOf};
ghost use Rattle.ap_syntax.specs.Reading as spec;

use crate::faults::SynError;
use crate::items::form;
use crate::nesting::is_too_deep;
use ap_defs::faults::{Place, SyntaxFault, SyntaxKind};
use ap_trees::{Item, ReadError, Symbol};
use std::alloc::Global;

/// The fault of an item.
pub fn fault(item: u32, line: u64, kind: SyntaxKind) -> SynError
    ensures { result
        ≡ SynError.Fault (record { place = record { item = item; line = line }; kind = kind }) }
{
    let place = Place { item, line };
    SynError::Fault(SyntaxFault { place, kind })
}

/// The item whose symbols before its `.` are these.
pub fn form_item<'a>(
    alloc: Global,
    item: u32,
    line: u64,
    symbols: &[Symbol<'a>],
) -> Result<Item<'a>, SynError>
    ensures { GivesOneOf item_of result
        (λ r. r ≡ spec.item_or_fault item line (syms symbols.now)) }
{
    if is_too_deep(alloc, symbols)? {
        return Err(fault(item, line, SyntaxKind::TooDeep));
    }
    match form(alloc, symbols) {
        Ok(form) => Ok(Item { line, form }),
        Err(ReadError::Grammar) => Err(fault(item, line, SyntaxKind::Grammar)),
        Err(ReadError::Memory) => Err(SynError::Memory),
    }
}
