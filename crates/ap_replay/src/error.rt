//! Why there is no branch.

ghost use Rattle.std.specs.Prelude.{◌≡◌};
ghost use Rattle.ap_replay.specs.declared.error.ReplayError.TheVariants as errors;

use ap_defs::memory::Memory;

/// The search of the problem does not have the path, or memory is wanting.
#[derive(Clone, Copy)]
pub enum ReplayError {
    NotABranch,
    Memory,
}

impl From<Memory> for ReplayError {
    ghost from_gives = { λ _ e. e ≡ errors.Memory };

    fn from(_refusal: Memory) -> ReplayError {
        ReplayError::Memory
    }
}
