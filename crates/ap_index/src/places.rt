//! Where the keys of a list stand.

ghost use Rattle.std.specs.Prelude.{◌≡◌, ◌+◌, ◌<◌, ◌≤◌, ◌^◌, IfOk, drop, length, not};
ghost use Rattle.std.specs.List.{prefix_len};
ghost use Rattle.ap_index.specs.Places.{AreKeysWithin, bucket};
ghost use Rattle.ap_index.specs.Matching.{key_agrees};

use crate::matching::next_match;
use ap_defs::memory::Memory;
use std::alloc::Global;

/// How many keys are looked through from the first on, which takes no longer than to find a bucket.
const FEW: usize = 8;

/// The bucket of a key among so many and that of the wild key.
fn bucket_of(key: u32, count: u32) -> usize
    requires { 1 ≤ count }
    ensures is { result ≡ bucket count key }
    ensures within { result ≤ count }
{
    if key == 0 {
        0
    } else {
        1 + (key % count) as usize
    }
}

/// Where the keys of each bucket start and end.
#[derive(Drop)]
pub struct Places {
    pub starts: Vec<u32>,
    pub ends: Vec<u32>,
}

/// The places of keys.
pub fn places_of(alloc: Global, keys: &[u32]) -> Result<Places, Memory>
    requires { length keys.now < 2 ^ 32 }
    ensures starts { IfOk result (λ p. length p.starts.items ≡ length keys.now + 1) }
    ensures ends { IfOk result (λ p. length p.ends.items ≡ length keys.now + 1) }
    ensures within { IfOk result (λ p. AreKeysWithin keys.now p.starts.items p.ends.items) }
{
    let count = keys.len() as u32;
    let mut starts = Vec::from_elem(alloc, count, keys.len() + 1)?;
    let mut ends = Vec::from_elem(alloc, 0, keys.len() + 1)?;
    'placing: for i in 0..count {
        let b = bucket_of(keys[i as usize], count);
        starts[b] = starts[b].min(i);
        ends[b] = i + 1;
    }
    Ok(Places { starts, ends })
}

/// The first place from a place on whose key is the wanted one or the wild one, or the number of keys
/// where there is none. Only the places of their buckets are looked at, unless there are few keys.
pub fn next_within(keys: &[u32], places: &Places, key: u32, from: usize) -> usize
    requires few { length keys.now < 2 ^ 32 }
    requires from { from ≤ length keys.now }
    requires starts { length places.now.starts.items ≡ length keys.now + 1 }
    requires ends { length places.now.ends.items ≡ length keys.now + 1 }
    requires within { AreKeysWithin keys.now places.now.starts.items places.now.ends.items }
    ensures { result ≡ from + prefix_len (λ k. not (key_agrees key k)) (drop from keys.now) }
{
    let count = keys.len();
    if count <= FEW {
        return next_match(keys, key, from);
    }
    let b = bucket_of(key, count as u32);
    let start = from.max(places.starts[b].min(places.starts[0]) as usize);
    let end = count.min(places.ends[b].max(places.ends[0]) as usize);
    if start >= end {
        return count;
    }
    let place = next_match(&keys[..end], key, start);
    if place < end { place } else { count }
}
