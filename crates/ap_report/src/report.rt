// A report: what is to be written, and the status.

use crate::Status;
use ap_defs::lists::List;

/// What a call writes, and how it ends where the writing succeeds.
#[derive(Drop)]
pub struct Report {
    /// All bytes that are to be written.
    pub bytes: List<u8>,
    /// The status that goes with them.
    pub status: Status,
}
