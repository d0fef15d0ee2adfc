//! What a pass of a deque knows.

use ap_defs::paths::Path;
use std::collections::LinkedList;

/// What a pass has pushed, popped and stolen, and its parts of the right to close the deque. No
/// value of it is made: it stands in contracts alone.
pub struct Hand {
    pub parts: u64,
    pub pushed: LinkedList<Path>,
    pub popped: LinkedList<Path>,
    pub stolen: LinkedList<Path>,
}
