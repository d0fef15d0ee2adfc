//! Which types are inhabited, where this is asked of many types, also between declarations.

ghost use Rattle.std.specs.Prelude.{◌≡◌, ◌↔◌, IsTrue, List as list, [], ◌∷◌, ◌++◌, map, IfOk, OnOk};
ghost use Rattle.ap_defs.specs.Types.{NominalConstructor, type_of, constructor_of};
ghost use Rattle.ap_types.specs.Inhabited.{IsInhabited};
ghost use Rattle.ap_types.specs.Rounds.{marked};
ghost use Rattle.ap_types.specs.Tables.{AreInhabitants};

use crate::least::{Least, is_marked, nothing};
use crate::rounds::{Question, add_constructor, is_inhabited_by, least_of};
use ap_defs::goals::Constructor;
use ap_defs::memory::Memory;
use ap_defs::terms::Ty;
use std::alloc::Global;

/// The data types that are inhabited by the constructors so far.
#[derive(Drop)]
pub struct Inhabitants {
    pub found: Least,
}

/// Those of constructors. It costs as much as the constructors are long together. `Err` is want of memory.
pub fn inhabitants_of(alloc: Global, constructors: &[Constructor]) -> Result<Inhabitants, Memory>
    ensures { IfOk result (λ i. AreInhabitants (map constructor_of constructors.now) i) }
{
    let found = least_of(alloc, Question::Inhabited, constructors)?;
    Ok(Inhabitants { found })
}

/// Those of no constructors.
pub fn no_inhabitants(alloc: Global) -> Inhabitants
    ensures { AreInhabitants [] result }
{
    Inhabitants {
        found: nothing(alloc),
    }
}

/// One more constructor is declared. Any number of constructors cost as much as they are long together.
/// After `Err`, which is want of memory, nothing is known of the table.
pub fn declare(
    alloc: Global,
    inhabitants: &mut Inhabitants,
    constructor: &Constructor,
) -> Result<(), Memory>
    ensures { OnOk result ((cs : list NominalConstructor) → AreInhabitants cs inhabitants.old →
        AreInhabitants (cs ++ constructor_of constructor.now ∷ []) inhabitants.new) }
{
    add_constructor(
        alloc,
        Question::Inhabited,
        &mut inhabitants.found,
        constructor,
    )
}

/// Whether a data type is inhabited by the constructors so far.
pub fn is_base_inhabited(inhabitants: &Inhabitants, base: u32) -> bool
    ensures { result ≡ marked inhabitants.now.found.table.items base }
{
    is_marked(inhabitants.found.table.as_slice(), base)
}

/// Whether a type is inhabited by the constructors so far. It costs as much as the type is long. `Err` is
/// want of memory.
pub fn is_inhabited(alloc: Global, inhabitants: &Inhabitants, ty: &Ty) -> Result<bool, Memory>
    ensures { IfOk result (λ b. (cs : list NominalConstructor) → AreInhabitants cs inhabitants.now →
        IsTrue b ↔ IsInhabited cs (type_of ty.now)) }
{
    is_inhabited_by(alloc, inhabitants.found.table.as_slice(), ty)
}
