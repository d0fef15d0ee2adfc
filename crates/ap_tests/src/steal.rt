ghost use Rattle.std.specs.Prelude.{◌≡◌, ◌<◌, ◌≤◌};

use crate::pairs::{Hold, Pairs, are_both_cuts};
use ap_book::merge;
use ap_defs::memory::Memory;
use ap_defs::paths::Out;
use ap_io::NoGate;
use ap_paths::Run;
use ap_steal::search;
use std::alloc::Global;
use std::sync::Wait;
use std::thread::Threads;

/// Whether visits of a small tree that meet are those of so many workers, and its outputs then.
fn met<R: Threads + Wait + Sync>(
    rt: &R,
    alloc: Global,
    workers: u32,
) -> Result<(bool, Vec<Run>), Memory>
    requires { (0 < workers) × (workers ≤ 64) }
{
    let mut tree = Pairs::of(1);
    tree.meets = true;
    let closed = search(rt, alloc, &tree, workers, &NoGate)?;
    let entries = closed.history.items().len() == 3;
    let logs = closed.logs.items().len() == workers as usize;
    let kept = tree.meeting.was_kept();
    Ok((entries && logs && kept, merge(alloc, closed)?))
}

fn meet<R: Threads + Wait + Sync>(rt: &R, alloc: Global, workers: u32) -> Result<bool, Memory>
    requires { (0 < workers) × (workers ≤ 64) }
{
    let (met, outs) = met(rt, alloc, workers)?;
    Ok(met && are_both_cuts(outs.as_slice()))
}

#[test]
fn workers_meet(rt: HostRuntime) {
    for workers in [2, 8, 64] {
        assert!(rt; matches!(meet(&rt, rt.alloc(), workers), Ok(true)));
    }
}

fn same_cut(left: &Run, right: &Run) -> bool {
    match (left, right) {
        (Run::One(Out::Cut(path)), Run::One(Out::Cut(other))) => path.choices() == other.choices(),
        _ => false,
    }
}

fn same_cuts(left: &[Run], right: &[Run]) -> bool {
    left.len() == right.len() && left.iter().zip(right.iter()).all(|(l, r)| same_cut(l, r))
}

/// The outputs of a search of 131,072 ends, if it has an entry for each path.
fn searched<R: Threads + Wait + Sync>(
    rt: &R,
    alloc: Global,
    workers: u32,
) -> Result<Vec<Run>, Memory>
    requires { (0 < workers) × (workers ≤ 64) }
{
    let closed = search(rt, alloc, &Pairs::of(17), workers, &NoGate)?;
    if closed.history.items().len() == 262143 {
        merge(alloc, closed)
    } else {
        Err(Memory)
    }
}

/// Whether so many workers find these.
fn find<R: Threads + Wait + Sync>(
    rt: &R,
    alloc: Global,
    workers: u32,
    runs: &[Run],
) -> Result<bool, Memory>
    requires { (0 < workers) × (workers ≤ 64) }
{
    Ok(same_cuts(searched(rt, alloc, workers)?.as_slice(), runs))
}

fn all_find_the_same<R: Threads + Wait + Sync>(rt: &R, alloc: Global) -> Result<bool, Memory> {
    let first = searched(rt, alloc, 1)?;
    let mut same = first.len() == 131072;
    for workers in [2, 8, 64] {
        same = find(rt, alloc, workers, first.as_slice())? && same;
    }
    Ok(same)
}

#[test]
fn all_counts_give_the_same(rt: HostRuntime) {
    assert!(rt; matches!(all_find_the_same(&rt, rt.alloc()), Ok(true)));
}

/// Whether a search fails in which a visit does.
fn fails<R: Threads + Wait + Sync>(rt: &R, alloc: Global, workers: u32) -> bool
    requires { (0 < workers) × (workers ≤ 64) }
{
    let mut tree = Pairs::of(6);
    tree.fails = true;
    search(rt, alloc, &tree, workers, &NoGate).is_err()
}

#[test]
fn want_of_memory_stops_all(rt: HostRuntime) {
    for workers in [1, 2, 8] {
        assert!(rt; fails(&rt, rt.alloc(), workers));
    }
}

fn meet_in_the_gate<R: Threads + Wait + Sync>(rt: &R, alloc: Global) -> Result<bool, Memory> {
    let gate = Hold::new();
    let closed = search(rt, alloc, &Pairs::of(1), 2, &gate)?;
    Ok(gate.was_kept() && closed.history.items().len() == 3)
}

#[test]
fn workers_meet_in_the_gate(rt: HostRuntime) {
    assert!(rt; matches!(meet_in_the_gate(&rt, rt.alloc()), Ok(true)));
}
