//! What solving may refuse.

ghost use Rattle.std.specs.Prelude.{◌≡◌};
ghost use Rattle.ap_types.specs.declared.errors.TypesError.TheVariants as errors;

use ap_defs::memory::Memory;
use std::alloc::{AllocError, AllocFailed};

/// Equations of types that no assignment solves, or want of memory.
#[derive(Clone, Copy)]
pub enum TypesError {
    Clash,
    Memory,
}

impl From<Memory> for TypesError {
    ghost from_gives = { λ _ e. e ≡ errors.Memory };

    fn from(_refusal: Memory) -> TypesError {
        TypesError::Memory
    }
}

impl From<AllocError> for TypesError {
    ghost from_gives = { λ _ e. e ≡ errors.Memory };

    fn from(_refusal: AllocError) -> TypesError {
        TypesError::Memory
    }
}

impl<T: Drop> From<AllocFailed<T>> for TypesError {
    ghost from_gives = { λ _ e. e ≡ errors.Memory };

    fn from(_refusal: AllocFailed<T>) -> TypesError {
        TypesError::Memory
    }
}
