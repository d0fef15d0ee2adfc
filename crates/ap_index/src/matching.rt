//! Keys that agree with a wanted one.

ghost use Rattle.std.specs.Prelude.{◌≡◌, ◌+◌, ◌≤◌, not, drop, length, take};
ghost use Rattle.std.specs.List.{prefix_len};
ghost use Rattle.ap_index.specs.Matching.{key_agrees, matching_keys};

use crate::blocks::{LANES, match_block, skipped_in_block};

/// The first place from a place on whose key agrees, or the number of keys, by keys one by one.
fn next_in_rest(keys: &[u32], key: u32, from: usize) -> usize
    requires { from ≤ length keys.now }
    ensures { result ≡ from + prefix_len (λ k. not (key_agrees key k)) (drop from keys.now) }
{
    'looking: for i in from..keys.len() {
        let k = keys[i];
        if k == key || k == 0 {
            return i;
        }
    }
    keys.len()
}

/// The first place from a place on whose key is the wanted one or the wild one, or the number of keys
/// where there is none.
pub fn next_match(keys: &[u32], key: u32, from: usize) -> usize
    requires { from ≤ length keys.now }
    ensures { result ≡ from + prefix_len (λ k. not (key_agrees key k)) (drop from keys.now) }
{
    let mut at = from;
    'blocks: while keys.len() - at >= LANES {
        let skipped = skipped_in_block(keys, key, at) as usize;
        if skipped < LANES {
            return at + skipped;
        }
        // By a number that is known, so that the next block is looked at while this one still is.
        at += LANES;
    }
    next_in_rest(keys, key, at)
}

/// Fills in the places of whole blocks, and gives the place behind them.
fn match_blocks(keys: &[u32], key: u32, out: &mut [u8]) -> usize
    requires { length out.old ≡ length keys.now }
    ensures place { result ≤ length keys.now }
    ensures long { length out.new ≡ length keys.now }
    ensures done { take result out.new ≡ matching_keys key (take result keys.now) }
{
    let mut at = 0;
    'blocks: while keys.len() - at >= LANES {
        match_block(keys, key, at, out);
        at += LANES;
    }
    at
}

/// Fills in the places from a place on, one by one.
fn match_rest(keys: &[u32], key: u32, from: usize, out: &mut [u8])
    requires long { length out.old ≡ length keys.now }
    requires from { from ≤ length keys.now }
    requires done { take from out.old ≡ matching_keys key (take from keys.now) }
    ensures { out.new ≡ matching_keys key keys.now }
{
    'filling: for i in from..keys.len() {
        let k = keys[i];
        out[i] = if k == key || k == 0 { 1 } else { 0 };
    }
}

/// Tells for each key whether it is the wanted one or the wild one, by a byte that is 1 or 0.
pub fn matches(keys: &[u32], key: u32, out: &mut [u8])
    requires { length out.old ≡ length keys.now }
    ensures { out.new ≡ matching_keys key keys.now }
{
    let behind = match_blocks(keys, key, out);
    match_rest(keys, key, behind, out);
}
