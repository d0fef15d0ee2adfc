// Why a text has no program.
ghost use Rattle.std.specs.Prelude.{◌≡◌};

use ap_defs::faults::Fault;
use ap_defs::memory::Memory;
use ap_restrict::errors::NameError;

/// Why a text has no program.
#[derive(Drop)]
pub enum TextError {
    /// The text has a fault: its first one.
    Fault(Fault),
    /// The allocator refused a growth.
    Memory,
}

impl From<Memory> for TextError {
    ghost use Rattle.ap_text.specs.declared.error.TextError.TheVariants as errors;

    ghost from_gives = { λ _ t. t ≡ errors.Memory };

    fn from(_refusal: Memory) -> TextError {
        TextError::Memory
    }
}

impl From<NameError> for TextError {
    ghost use Rattle.ap_text.specs.Texts.{of_names};

    ghost from_gives = { λ e t. t ≡ of_names e };

    fn from(error: NameError) -> TextError {
        match error {
            NameError::Fault(fault) => TextError::Fault(Fault::Names(fault)),
            NameError::Memory => TextError::Memory,
        }
    }
}
