//! Why bytes give no bundle.
ghost use Rattle.std.specs.Prelude.{◌≡◌};

use ap_bundle::faults::{BundleFault, BundleKind};
use ap_defs::memory::Memory;
use std::alloc::{AllocError, AllocFailed};

/// Why bytes give no bundle.
#[derive(Clone, Copy)]
pub enum BundleError {
    /// They aren't one: their first fault.
    Fault(BundleFault),
    /// The allocator refused a growth.
    Memory,
}

// What is wrong and how many bytes are left from there on, or want of memory.
#[derive(Clone, Copy)]
pub(crate) enum ReadError {
    Wrong(BundleKind, usize),
    Memory,
}

impl From<AllocError> for ReadError {
    ghost use Rattle.ap_bundle_read.specs.declared.error.ReadError.TheVariants.{Memory as out_of_memory};

    ghost from_gives = { λ _ e. e ≡ out_of_memory };

    fn from(_: AllocError) -> Self {
        ReadError::Memory
    }
}

impl<T: Drop> From<AllocFailed<T>> for ReadError {
    ghost use Rattle.ap_bundle_read.specs.declared.error.ReadError.TheVariants.{Memory as out_of_memory};

    ghost from_gives = { λ _ e. e ≡ out_of_memory };

    fn from(_: AllocFailed<T>) -> Self {
        ReadError::Memory
    }
}

impl From<Memory> for ReadError {
    ghost use Rattle.ap_bundle_read.specs.declared.error.ReadError.TheVariants.{Memory as out_of_memory};

    ghost from_gives = { λ _ e. e ≡ out_of_memory };

    fn from(_: Memory) -> Self {
        ReadError::Memory
    }
}
