//! Why a text, or an item, isn't well typed.
ghost use Rattle.std.specs.Prelude.{◌≡◌};
ghost use Rattle.ap_typecheck.specs.Views as spec;
ghost use Rattle.ap_typecheck.specs.Views.{type_refusal_of};

use ap_defs::faults::{Place, TypeFault, TypeKind};
use ap_defs::memory::Memory;
use ap_kinds::KindsError;
use std::alloc::{AllocError, AllocFailed};

/// Why a text has no typed program.
#[derive(Clone, Copy)]
pub enum TypeError {
    /// The first item that isn't well typed: its number and line, and the least kind of its faults.
    Fault(TypeFault),
    /// The allocator refused a growth.
    Memory,
}

impl From<AllocError> for TypeError {
    ghost use Rattle.ap_typecheck.specs.declared.error.TypeError.TheVariants as errors;

    ghost from_gives = { λ _ e. e ≡ errors.Memory };

    fn from(_refusal: AllocError) -> TypeError {
        TypeError::Memory
    }
}

/// Why an item makes nothing.
#[derive(Clone, Copy)]
pub enum Refusal {
    /// The least kind of its faults.
    Kind(TypeKind),
    Memory,
}

impl From<Memory> for Refusal {
    ghost use Rattle.ap_typecheck.specs.declared.error.Refusal.TheVariants as refusals;

    ghost from_gives = { λ _ e. e ≡ refusals.Memory };

    fn from(_refusal: Memory) -> Refusal {
        Refusal::Memory
    }
}

impl From<AllocError> for Refusal {
    ghost use Rattle.ap_typecheck.specs.declared.error.Refusal.TheVariants as refusals;

    ghost from_gives = { λ _ e. e ≡ refusals.Memory };

    fn from(_refusal: AllocError) -> Refusal {
        Refusal::Memory
    }
}

impl<T: Drop> From<AllocFailed<T>> for Refusal {
    ghost use Rattle.ap_typecheck.specs.declared.error.Refusal.TheVariants as refusals;

    ghost from_gives = { λ _ e. e ≡ refusals.Memory };

    fn from(_refusal: AllocFailed<T>) -> Refusal {
        Refusal::Memory
    }
}

/// What the typing of an item refuses.
pub fn refusal_of_kinds(refused: KindsError) -> Refusal
    ensures { result ≡ type_refusal_of refused }
{
    match refused {
        KindsError::Clash => Refusal::Kind(TypeKind::Clash),
        KindsError::Ambiguous => Refusal::Kind(TypeKind::Ambiguous),
        KindsError::Empty => Refusal::Kind(TypeKind::Empty),
        KindsError::Memory => Refusal::Memory,
    }
}

/// Why a text has no typed program, where the item at this place makes nothing.
pub fn text_error(refusal: Refusal, place: Place) -> TypeError
    ensures { result ≡ spec.text_error refusal place }
{
    match refusal {
        Refusal::Kind(kind) => TypeError::Fault(TypeFault { place, kind }),
        Refusal::Memory => TypeError::Memory,
    }
}
