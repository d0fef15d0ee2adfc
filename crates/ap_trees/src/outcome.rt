// Why symbols give no tree.
ghost use Rattle.std.specs.Prelude.{◌≡◌};

use std::alloc::{AllocError, AllocFailed};

/// Why symbols give no tree.
#[derive(Clone, Copy)]
pub enum ReadError {
    /// They are not in the grammar.
    Grammar,
    /// The allocator refused a growth.
    Memory,
}

impl From<AllocError> for ReadError {
    ghost use Rattle.ap_trees.specs.declared.outcome.ReadError.TheVariants.{Memory};

    ghost from_gives = { λ _ e. e ≡ Memory };

    fn from(_: AllocError) -> Self {
        ReadError::Memory
    }
}

impl<T: Drop> From<AllocFailed<T>> for ReadError {
    ghost use Rattle.ap_trees.specs.declared.outcome.ReadError.TheVariants.{Memory};

    ghost from_gives = { λ _ e. e ≡ Memory };

    fn from(_: AllocFailed<T>) -> Self {
        ReadError::Memory
    }
}
