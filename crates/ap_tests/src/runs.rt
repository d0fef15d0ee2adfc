use ap_defs::memory::Memory;
use ap_defs::paths::{Out, Path};
use ap_paths::{Run, outs_in_full, push_run, runs_of};
use std::alloc::Global;

/// Two cuts, a stuck branch, and a cut with its path.
fn some_outs(alloc: Global) -> Result<Vec<Out>, Memory> {
    let mut outs = Vec::new(alloc);
    outs.push(Out::Cut(Path::root(alloc)))?;
    outs.push(Out::Cut(Path::root(alloc)))?;
    outs.push(Out::Stuck(Path::root(alloc)))?;
    outs.push(Out::Cut(Path::root(alloc).child(alloc, 1)?))?;
    Ok(outs)
}

fn is_cuts(run: &Run, count: u64) -> bool {
    match run {
        Run::Cuts(all) => *all == count,
        _ => false,
    }
}

fn is_stuck(run: &Run, count: u64) -> bool {
    match run {
        Run::Stuck(all) => *all == count,
        _ => false,
    }
}

fn is_one(run: &Run) -> bool {
    match run {
        Run::One(_) => true,
        _ => false,
    }
}

/// Whether these are the runs of them.
fn are_their_runs(runs: &[Run]) -> bool {
    match runs {
        [first, second, third] => is_cuts(first, 2) && is_stuck(second, 1) && is_one(third),
        _ => false,
    }
}

/// Whether the outputs are runs, and there are as many in full.
fn go_and_return(alloc: Global) -> Result<bool, Memory> {
    let runs = runs_of(alloc, some_outs(alloc)?)?;
    let are_runs = are_their_runs(runs.as_slice());
    let outs = outs_in_full(alloc, runs)?;
    Ok(are_runs && outs.len() == 4)
}

#[test]
fn cut_and_stuck_branches_are_numbers(rt: HostRuntime) {
    assert!(rt; matches!(go_and_return(rt.alloc()), Ok(true)));
}

/// Whether so many stuck branches are one run.
fn grows(alloc: Global, count: u64) -> Result<bool, Memory> {
    let mut runs = Vec::new(alloc);
    for _ in 0..count {
        push_run(&mut runs, Out::Stuck(Path::root(alloc)))?;
    }
    match runs.as_slice() {
        [all] => Ok(is_stuck(all, count)),
        _ => Ok(false),
    }
}

#[test]
fn a_run_is_a_number(rt: HostRuntime) {
    assert!(rt; matches!(grows(rt.alloc(), 10_000), Ok(true)));
}
