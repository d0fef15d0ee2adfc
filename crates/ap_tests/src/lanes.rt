use ap_defs::memory::Memory;
use ap_index::matching::{matches, next_match};
use ap_values::differing::differ;
use std::alloc::Global;

/// So many keys: 0, 1 and 2 in turn.
fn keys_in_turn(alloc: Global, count: u32) -> Result<Vec<u32>, Memory> {
    let mut keys = Vec::new(alloc);
    for i in 0..count {
        keys.push(i % 3)?;
    }
    Ok(keys)
}

/// Whether the ones are told that are 2 or the wild 0, and no others.
fn are_told(alloc: Global, count: u32) -> Result<bool, Memory> {
    let keys = keys_in_turn(alloc, count)?;
    let mut out = Vec::from_elem(alloc, 9, keys.len())?;
    matches(keys.as_slice(), 2, out.as_mut_slice());
    let mut told = true;
    for i in 0..keys.len() {
        let wanted = if keys[i] == 2 || keys[i] == 0 { 1 } else { 0 };
        told = told && out.get(i) == Some(&wanted);
    }
    Ok(told)
}

/// Where the first key that agrees with 5 stands behind so many that don't.
fn found_behind(alloc: Global, count: u32, last: u32) -> Result<usize, Memory> {
    let mut keys = Vec::new(alloc);
    for _ in 0..count {
        keys.push(7)?;
    }
    keys.push(last)?;
    keys.push(5)?;
    Ok(next_match(keys.as_slice(), 5, 0))
}

/// So many numbers, of which each third is one less than its place.
fn numbers_in_turn(alloc: Global, count: u64) -> Result<Vec<u64>, Memory> {
    let mut numbers = Vec::new(alloc);
    for i in 0..count {
        numbers.push(if i % 3 == 2 { i - 1 } else { i })?;
    }
    Ok(numbers)
}

/// So many numbers, each its place.
fn places(alloc: Global, count: u64) -> Result<Vec<u64>, Memory> {
    let mut numbers = Vec::new(alloc);
    for i in 0..count {
        numbers.push(i)?;
    }
    Ok(numbers)
}

/// Whether each third place is told to differ, and no other one.
fn thirds_differ(alloc: Global, count: u64) -> Result<bool, Memory> {
    let left = numbers_in_turn(alloc, count)?;
    let right = places(alloc, count)?;
    let mut out = Vec::from_elem(alloc, 9, left.len())?;
    if left.len() != right.len() {
        return Ok(false);
    }
    differ(left.as_slice(), right.as_slice(), out.as_mut_slice());
    let mut told = true;
    for i in 0..left.len() {
        let wanted = if i % 3 == 2 { 1 } else { 0 };
        told = told && out.get(i) == Some(&wanted);
    }
    Ok(told && out.len() == left.len())
}

#[test]
fn differences_are_told_in_blocks_and_behind_them(rt: HostRuntime) {
    for count in [0, 1, 7, 8, 9, 65] {
        let told = thirds_differ(rt.alloc(), count);
        assert!(rt; matches!(told, Ok(true)));
    }
}

#[test]
fn keys_are_told_in_blocks_and_behind_them(rt: HostRuntime) {
    for count in [0, 1, 3, 31, 32, 33, 100] {
        let told = are_told(rt.alloc(), count);
        assert!(rt; matches!(told, Ok(true)));
    }
}

#[test]
fn the_next_key_is_found_in_blocks_and_behind_them(rt: HostRuntime) {
    for count in [0, 1, 15, 16, 17, 100] {
        let wild = found_behind(rt.alloc(), count, 0);
        assert!(rt; matches!(wild, Ok(place) if place == count as usize));
        let other = found_behind(rt.alloc(), count, 6);
        assert!(rt; matches!(other, Ok(place) if place == count as usize + 1));
    }
}
