// Why tokens give no items.
ghost use Rattle.std.specs.Prelude.{◌≡◌};

use ap_defs::faults::SyntaxFault;
use std::alloc::{AllocError, AllocFailed};

/// Why tokens give no items.
#[derive(Clone, Copy)]
pub enum SynError {
    /// The first faulty item. Its line is that of its first token, and its kind `Unended`, else `TooDeep`,
    /// else `Grammar`.
    Fault(SyntaxFault),
    /// The allocator refused a growth.
    Memory,
}

impl From<AllocError> for SynError {
    ghost use Rattle.ap_syntax.specs.declared.faults.SynError.TheVariants.{Memory};

    ghost from_gives = { λ _ e. e ≡ Memory };

    fn from(_: AllocError) -> Self {
        SynError::Memory
    }
}

impl<T: Drop> From<AllocFailed<T>> for SynError {
    ghost use Rattle.ap_syntax.specs.declared.faults.SynError.TheVariants.{Memory};

    ghost from_gives = { λ _ e. e ≡ Memory };

    fn from(_: AllocFailed<T>) -> Self {
        SynError::Memory
    }
}
