//! Want of memory.

use std::alloc::{AllocError, AllocFailed};

/// The allocator refused a growth. It is the one answer that no clause ties to a cause.
#[derive(Clone, Copy)]
pub struct Memory;

impl From<AllocError> for Memory {
    fn from(_refusal: AllocError) -> Memory {
        Memory
    }
}

impl<T: Drop> From<AllocFailed<T>> for Memory {
    fn from(_refusal: AllocFailed<T>) -> Memory {
        Memory
    }
}
