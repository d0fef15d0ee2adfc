//! What testing the name restriction may refuse.

ghost use Rattle.std.specs.Prelude.{◌≡◌};
ghost use Rattle.ap_restrict.specs.declared.errors.NameError.TheVariants as errors;

use ap_defs::faults::NameFault;
use ap_defs::memory::Memory;

/// The first fault of a program, or want of memory.
#[derive(Drop)]
pub enum NameError {
    Fault(NameFault),
    Memory,
}

impl From<Memory> for NameError {
    ghost from_gives = { λ _ e. e ≡ errors.Memory };

    fn from(_refusal: Memory) -> NameError {
        NameError::Memory
    }
}
