//! Why a freshness problem is not reduced.

ghost use Rattle.std.specs.Prelude.{◌≡◌};
ghost use Rattle.ap_fresh.specs.declared.error.FreshError.TheVariants.{Memory as memory};

use std::alloc::{AllocError, AllocFailed};

/// The name is free in the term, so that it is never fresh for it, or memory is wanting.
#[derive(Clone, Copy)]
pub enum FreshError {
    Refuted,
    Memory,
}

impl From<AllocError> for FreshError {
    ghost from_gives = { λ _ e. e ≡ memory };

    fn from(_refusal: AllocError) -> FreshError {
        FreshError::Memory
    }
}

impl<T: Drop> From<AllocFailed<T>> for FreshError {
    ghost from_gives = { λ _ e. e ≡ memory };

    fn from(_refusal: AllocFailed<T>) -> FreshError {
        FreshError::Memory
    }
}
