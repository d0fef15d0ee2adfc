//! What is let go and taken again.

use std::alloc::{AllocError, Global};

// How large a piece is taken and let go.
const PIECE: usize = 1 << 20;

/// Takes a large piece of memory and lets it go. The allocator of the C library then keeps twice as much of
/// what is let go, which else it gives back to the system at the end of a query, and asks for again in the next.
pub fn keep_memory(alloc: Global) {
    let _piece: Result<Vec<u8>, AllocError> = Vec::with_capacity(alloc, PIECE);
}
