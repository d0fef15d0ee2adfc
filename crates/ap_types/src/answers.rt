//! Which types are inhabited, and which may hold names of a sort.

ghost use Rattle.std.specs.Prelude.{◌↔◌, IsTrue, IfOk};
ghost use Rattle.ap_defs.specs.Types.{type_of, signature_of};
ghost use Rattle.ap_types.specs.Inhabited.{IsInhabited};
ghost use Rattle.ap_types.specs.Holding.{MayHold};
ghost use Rattle.ap_types.specs.Statements.{InhabitedStandsStill, HoldingStandsStill, InhabitedHasTerms};

use crate::rounds::{Question, holds_by, is_inhabited_by, least_table};
use ap_defs::goals::Signature;
use ap_defs::memory::Memory;
use ap_defs::terms::Ty;
use std::alloc::Global;

/// Whether a type is inhabited, by the constructors of a signature.
///
/// The inhabited types are the least set that has unit, every name type and every list type; a pair
/// whose parts it has; an abstraction whose body it has; and a data type of which some constructor has
/// only arguments that it has. A data type without constructors is not inhabited. `Err` is want of
/// memory.
pub fn inhabited(alloc: Global, sig: &Signature, ty: &Ty) -> Result<bool, Memory>
    ensures { IfOk result (λ b. IsTrue b
        ↔ IsInhabited (signature_of sig.now).constructors (type_of ty.now)) }
{
    let table = least_table(alloc, Question::Inhabited, sig.constructors.items())?;
    let answer = is_inhabited_by(alloc, table.as_slice(), ty)?;
    Ok(answer)
}

/// Whether a type may hold names of a sort, by the constructors of a signature.
///
/// This is the least relation in which the name type of the sort does; a pair where a part does; a list
/// where its element does; an abstraction where its body does; and a data type where an argument of
/// some constructor of it does. `Err` is want of memory.
pub fn may_hold(alloc: Global, sig: &Signature, ty: &Ty, sort: u32) -> Result<bool, Memory>
    ensures { IfOk result (λ b. IsTrue b
        ↔ MayHold (signature_of sig.now).constructors (type_of ty.now) sort) }
{
    let table = least_table(alloc, Question::Holds(sort), sig.constructors.items())?;
    let answer = holds_by(alloc, sort, table.as_slice(), ty)?;
    Ok(answer)
}

/// With n data types, n rounds find every type that any round finds.
pub fn rounds_stand_still()
    ensures inhabited { InhabitedStandsStill }
    ensures holding { HoldingStandsStill }
{}

/// An inhabited type has a ground term that avoids any given names.
pub fn inhabited_has_terms()
    ensures { InhabitedHasTerms }
{}
