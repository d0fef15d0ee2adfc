//! What typing an item may refuse.

ghost use Rattle.std.specs.Prelude.{◌≡◌};
ghost use Rattle.ap_kinds.specs.declared.errors.KindsError.TheVariants as errors;

use ap_defs::memory::Memory;
use std::alloc::{AllocError, AllocFailed};

/// No kinds type the item; more than one list of kinds does; the only one gives a variable a type that
/// is not inhabited; or want of memory.
#[derive(Clone, Copy)]
pub enum KindsError {
    Clash,
    Ambiguous,
    Empty,
    Memory,
}

impl From<Memory> for KindsError {
    ghost from_gives = { λ _ e. e ≡ errors.Memory };

    fn from(_refusal: Memory) -> KindsError {
        KindsError::Memory
    }
}

impl From<AllocError> for KindsError {
    ghost from_gives = { λ _ e. e ≡ errors.Memory };

    fn from(_refusal: AllocError) -> KindsError {
        KindsError::Memory
    }
}

impl<T: Drop> From<AllocFailed<T>> for KindsError {
    ghost from_gives = { λ _ e. e ≡ errors.Memory };

    fn from(_refusal: AllocFailed<T>) -> KindsError {
        KindsError::Memory
    }
}
