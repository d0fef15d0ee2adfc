//! Places at which two lists of numbers differ.

ghost use Rattle.std.specs.Prelude.{◌≡◌, ◌+◌, ◌≤◌, length, take};
ghost use Rattle.std.specs.Simd.Lanes.{chunk, put_chunk};
ghost use Rattle.ap_values.specs.Differing.{differing_places};

use std::simd::prelude::*;

/// The number of numbers in a block.
const LANES: usize = 8;

/// Tells for each place of the block at a place whether the numbers differ, by a byte that is 1 or 0.
fn differ_block(left: &[u64], right: &[u64], at: usize, out: &mut [u8])
    requires left { at + 8 ≤ length left.now }
    requires right { at + 8 ≤ length right.now }
    requires out { at + 8 ≤ length out.old }
    ensures { out.new
        ≡ put_chunk at out.old (differing_places (chunk at 8 left.now) (chunk at 8 right.now)) }
{
    let ones = u64x8::from_slice(&left[at..])
        .simd_eq(u64x8::from_slice(&right[at..]))
        .select(u64x8::splat(0), u64x8::splat(1));
    ones.cast::<u8>().copy_to_slice(&mut out[at..]);
}

/// Fills in the places of whole blocks, and gives the place behind them.
fn differ_blocks(left: &[u64], right: &[u64], out: &mut [u8]) -> usize
    requires right { length right.now ≡ length left.now }
    requires out { length out.old ≡ length left.now }
    ensures place { result ≤ length left.now }
    ensures long { length out.new ≡ length left.now }
    ensures done { take result out.new
        ≡ differing_places (take result left.now) (take result right.now) }
{
    let mut at = 0;
    'blocks: while left.len() - at >= LANES {
        differ_block(left, right, at, out);
        at += LANES;
    }
    at
}

/// Fills in the places from a place on, one by one.
fn differ_rest(left: &[u64], right: &[u64], from: usize, out: &mut [u8])
    requires right { length right.now ≡ length left.now }
    requires long { length out.old ≡ length left.now }
    requires from { from ≤ length left.now }
    requires done { take from out.old
        ≡ differing_places (take from left.now) (take from right.now) }
    ensures { out.new ≡ differing_places left.now right.now }
{
    'filling: for i in from..left.len() {
        out[i] = if left[i] == right[i] { 0 } else { 1 };
    }
}

/// Tells for each place of two lists that are as long as one another whether their numbers differ, by
/// a byte that is 1 or 0.
pub fn differ(left: &[u64], right: &[u64], out: &mut [u8])
    requires right { length right.now ≡ length left.now }
    requires out { length out.old ≡ length left.now }
    ensures { out.new ≡ differing_places left.now right.now }
{
    let behind = differ_blocks(left, right, out);
    differ_rest(left, right, behind, out);
}
