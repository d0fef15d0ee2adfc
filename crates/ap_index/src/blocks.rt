//! One block of keys.

ghost use Rattle.std.specs.Prelude.{◌≡◌, ◌+◌, ◌≤◌, ◌==◌, not, length};
ghost use Rattle.std.specs.Simd.Lanes.{chunk, put_chunk};
ghost use Rattle.std.specs.List.{prefix_len};
ghost use Rattle.ap_index.specs.Matching.{key_agrees, matching_keys};

use std::simd::prelude::*;

/// The number of keys in a block.
pub const LANES: usize = 16;

/// How many keys of the block at a place come before the first that is the wanted one.
fn before_key(keys: &[u32], key: u32, at: usize) -> u32
    requires { at + 16 ≤ length keys.now }
    ensures { result ≡ prefix_len (λ k. not (k == key)) (chunk at 16 keys.now) }
{
    let hits = u32x16::from_slice(&keys[at..])
        .simd_eq(u32x16::splat(key))
        .to_bitmask();
    if hits == 0 { 16 } else { hits.trailing_zeros() }
}

/// How many keys of the block at a place come before the first that agrees.
pub fn skipped_in_block(keys: &[u32], key: u32, at: usize) -> u32
    requires { at + 16 ≤ length keys.now }
    ensures { result ≡ prefix_len (λ k. not (key_agrees key k)) (chunk at 16 keys.now) }
{
    before_key(keys, key, at).min(before_key(keys, 0, at))
}

/// Tells for each key of the block at a place whether it agrees with the wanted one, by a byte that is 1
/// or 0.
pub fn match_block(keys: &[u32], key: u32, at: usize, out: &mut [u8])
    requires keys { at + 16 ≤ length keys.now }
    requires out { at + 16 ≤ length out.old }
    ensures { out.new ≡ put_chunk at out.old (matching_keys key (chunk at 16 keys.now)) }
{
    let block = u32x16::from_slice(&keys[at..]);
    let same = block
        .simd_eq(u32x16::splat(key))
        .select(u32x16::splat(1), u32x16::splat(0));
    let ones = block
        .simd_eq(u32x16::splat(0))
        .select(u32x16::splat(1), same);
    ones.cast::<u8>().copy_to_slice(&mut out[at..]);
}
