//! Deques that are made and dropped.

use ap_defs::memory::Memory;
use ap_tools::tasks;
use std::alloc::Global;
use std::marker::Brand;

const DEQUES: usize = 1_000;

/// Deques are made and dropped, so many.
pub fn made(alloc: Global) -> Result<usize, Memory> {
    for _ in 0..DEQUES {
        let (_owner, _thief) = tasks::<Brand>(alloc)?;
    }
    Ok(DEQUES)
}
