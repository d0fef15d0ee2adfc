//! Why an entry is refused.

use ap_defs::lists::List;
use ap_paths::Run;

/// Why an entry is refused: its path is not open, or memory is wanting.
#[derive(Clone, Copy, PartialEq, Eq)]
pub enum BookError {
    NotOpen,
    Memory,
}

/// Why a path is not left out: it is not open, only so many answers have ended before it, or memory is
/// wanting.
#[derive(Clone, Copy, PartialEq, Eq)]
pub enum SkipError {
    NotOpen,
    Needed(u64),
    Memory,
}

/// Why an end is refused, with its outputs, which come back.
#[derive(Drop)]
pub struct DoneError {
    pub cause: BookError,
    pub outs: List<Run>,
}
