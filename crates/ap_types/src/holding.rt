//! Which types may hold names of a sort, where this is asked of many types.

ghost use Rattle.std.specs.Prelude.{◌≡◌, IfOk};
ghost use Rattle.ap_defs.specs.Types.{type_of, signature_of};
ghost use Rattle.ap_types.specs.Rounds.{marked};
ghost use Rattle.ap_types.specs.Holding.{holds_if};
ghost use Rattle.ap_types.specs.Tables.{IsHoldingTable};

use crate::rounds::{Question, holds_by, least_table};
use ap_defs::goals::Signature;
use ap_defs::memory::Memory;
use ap_defs::terms::Ty;
use std::alloc::Global;

/// The data types that may hold names of a sort, found once.
#[derive(Drop)]
pub struct Holding {
    pub sort: u32,
    pub table: Vec<bool>,
}

/// The data types that may hold names of a sort, by the constructors of a signature. `Err` is want of
/// memory.
pub fn types_holding(alloc: Global, sig: &Signature, sort: u32) -> Result<Holding, Memory>
    ensures { IfOk result (λ h. IsHoldingTable (signature_of sig.now).constructors sort h) }
{
    let table = least_table(alloc, Question::Holds(sort), sig.constructors.items())?;
    Ok(Holding { sort, table })
}

/// Whether a type may hold names of the table's sort, as `may_hold` says. `Err` is want of memory, or too many parts
/// of a type that shares them.
pub fn holds(alloc: Global, table: &Holding, ty: &Ty) -> Result<bool, Memory>
    ensures { IfOk result (λ b. b
        ≡ holds_if table.now.sort (marked table.now.table.items) (type_of ty.now)) }
{
    holds_by(alloc, table.sort, table.table.as_slice(), ty)
}
