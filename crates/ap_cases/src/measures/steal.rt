//! A tree of two choices at each of 20 levels, with some work at each leaf.

ghost use Rattle.std.specs.Prelude.{◌≡◌, ◌<◌, ◌≤◌, ◌∷◌, [], IfOk};
ghost use Rattle.ap_defs.specs.Answers.{cut};
ghost use Rattle.ap_paths.specs.Runs.{outs_of_run};

use ap_defs::lists::List;
use ap_defs::memory::Memory;
use ap_defs::paths::{Out, Path};
use ap_io::NoGate;
use ap_paths::{Run, Tree, Visit};
use ap_steal::search;
use std::alloc::Global;
use std::sync::Wait;
use std::thread::Threads;

const LEVELS: usize = 20;

/// Rounds of work at each leaf, which take about 10 microseconds.
const ROUNDS: u64 = 6_000;

/// Some work: rounds of a mixer of bits, each of which waits for the one before it. It is 0 for 0 alone.
fn worked(seed: u64) -> u64 {
    let mut state = seed;
    for _ in 0..ROUNDS {
        state = (state ^ (state >> 33)).wrapping_mul(18_397_679_294_719_823_053);
    }
    state
}

fn cut_at(alloc: Global, path: &Path) -> Result<Run, Memory>
    ensures { IfOk result (λ r. outs_of_run r ≡ cut path.now ∷ []) }
{
    Ok(Run::One(Out::Cut(path.copy(alloc)?)))
}

/// The work at a leaf. Its result is looked at, so that no compiler leaves it out.
fn work_at(path: &Path) -> Result<(), Memory> {
    let mut seed = 1;
    for k in path.choices() {
        seed = 3u64.wrapping_mul(seed).wrapping_add(*k as u64);
    }
    if worked(seed) == 0 {
        return Err(Memory);
    }
    Ok(())
}

#[derive(Drop)]
struct Pairs {
    depth: usize,
}

impl Tree for Pairs {
    ghost use Rattle.ap_pairs.specs.Pairs.{pair_choices, pair_at, pair_plan};
    ghost use Rattle.ap_pairs.proofs.Laws.{pair_branches, pair_planned};

    ghost choices = { λ t. pair_choices t.depth };

    ghost at = { λ t. pair_at t.depth };

    ghost plan = { λ t most. pair_plan t.depth };

    fn width(&self, _alloc: Global, path: &Path) -> Result<Option<u32>, Memory> {
        if path.choices().len() < self.depth {
            Ok(Some(2))
        } else {
            Ok(None)
        }
    }

    fn outs(&self, _alloc: Global, _path: &Path) -> Result<Vec<Run>, Memory> {
        Err(Memory)
    }

    fn visit(&self, alloc: Global, path: &Path, _most: Option<u64>) -> Result<Visit, Memory> {
        if path.choices().len() < self.depth {
            return Ok(Visit::Kids(List::of(Vec::from_array(alloc, [1, 2])?)));
        }
        work_at(path)?;
        let mut runs = Vec::with_capacity(alloc, 1)?;
        runs.push(cut_at(alloc, path)?)?;
        Ok(Visit::Outs(List::of(runs)))
    }

    ghost branches = { λ t. pair_branches t.depth };

    ghost planned = { λ t most. pair_planned t.depth };
}

/// The outputs below a path, by recursion over the levels that are left.
fn gather(alloc: Global, levels: &[u8], path: &Path, runs: &mut Vec<Run>) -> Result<(), Memory> {
    match levels {
        [] => {
            work_at(path)?;
            runs.push(cut_at(alloc, path)?)?;
            Ok(())
        }
        [_, rest @ ..] => {
            gather(alloc, rest, &path.child(alloc, 1)?, runs)?;
            gather(alloc, rest, &path.child(alloc, 2)?, runs)
        }
    }
}

/// How many leaves a plain recursion goes through.
pub fn gathered(alloc: Global) -> Result<usize, Memory> {
    let mut runs = Vec::new(alloc);
    gather(alloc, &[0; LEVELS], &Path::root(alloc), &mut runs)?;
    Ok(runs.len())
}

/// How many leaves so many workers search.
pub fn searched<R: Threads + Wait + Sync>(
    rt: &R,
    alloc: Global,
    workers: u32,
) -> Result<usize, Memory>
    requires { (0 < workers) × (workers ≤ 64) }
{
    let tree = Pairs { depth: LEVELS };
    let closed = search(rt, alloc, &tree, workers, &NoGate)?;
    // There is an entry for each path, and half of them but one are of paths that were split.
    Ok(closed.history.items().len() / 2 + 1)
}
