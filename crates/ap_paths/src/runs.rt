//! Runs of outputs: cut or stuck branches one after another, without their paths, are a number.

ghost use Rattle.std.specs.Prelude.{◌≡◌, ◌∷◌, ◌++◌, [], IfOk, IfSome, OnOk, replicate};
ghost use Rattle.ap_defs.specs.Answers.{cut, out_of, outs_of, stuck};
ghost use Rattle.ap_paths.specs.Runs.{outs_of_run, outs_of_runs};

use ap_defs::memory::Memory;
use ap_defs::paths::{Out, Path};
use std::alloc::Global;

/// One output with its path, or so many cut or stuck branches one after another, each with the empty
/// path.
#[derive(Drop)]
pub enum Run {
    One(Out),
    Cuts(u64),
    Stuck(u64),
}

/// The run of a cut branch alone.
#[tactic(auto, using(crate::proofs::RunLemmas::no_choices))]
fn run_of_cut(path: Path) -> Run
    ensures { outs_of_run result ≡ cut path ∷ [] }
{
    if path.choices().is_empty() {
        Run::Cuts(1)
    } else {
        Run::One(Out::Cut(path))
    }
}

/// The run of a stuck branch alone.
#[tactic(auto, using(crate::proofs::RunLemmas::no_choices))]
fn run_of_stuck(path: Path) -> Run
    ensures { outs_of_run result ≡ stuck path ∷ [] }
{
    if path.choices().is_empty() {
        Run::Stuck(1)
    } else {
        Run::One(Out::Stuck(path))
    }
}

/// The run of one output.
fn run_of(out: Out) -> Run
    ensures { outs_of_run result ≡ out_of out ∷ [] }
{
    match out {
        Out::Found(path, answer) => Run::One(Out::Found(path, answer)),
        Out::Cut(path) => run_of_cut(path),
        Out::Stuck(path) => run_of_stuck(path),
    }
}

/// Two runs as one, where they are numbers of one kind whose sum is a number.
#[tactic(auto, using(crate::proofs::RunLemmas::replicated_sum))]
fn joined(first: &Run, second: &Run) -> Option<Run>
    ensures { IfSome result (λ r. outs_of_run r
        ≡ outs_of_run first.now ++ outs_of_run second.now) }
{
    match (first, second) {
        (Run::Cuts(m), Run::Cuts(n)) => {
            let sum = m.checked_add(*n)?;
            Some(Run::Cuts(sum))
        }
        (Run::Stuck(m), Run::Stuck(n)) => {
            let sum = m.checked_add(*n)?;
            Some(Run::Stuck(sum))
        }
        _ => None,
    }
}

/// Adds an output behind runs. A cut or stuck branch whose path is empty goes into the run at the end,
/// where that is one of its kind that may grow.
pub fn push_run(runs: &mut Vec<Run>, out: Out) -> Result<(), Memory>
    ensures { OnOk result (outs_of_runs runs.new.items
        ≡ outs_of_runs runs.old.items ++ out_of out ∷ []) }
{
    let run = run_of(out);
    if let Some(last) = runs.last_mut() {
        if let Some(both) = joined(last, &run) {
            *last = both;
            return Ok(());
        }
    }
    runs.push(run)?;
    Ok(())
}

/// Outputs as runs. Where they are one run, they take the memory of one.
pub fn runs_of(alloc: Global, outs: Vec<Out>) -> Result<Vec<Run>, Memory>
    ensures { IfOk result (λ v. outs_of_runs v.items ≡ outs_of outs.items) }
{
    let mut runs = Vec::with_capacity(alloc, outs.len().min(1))?;
    for out in outs {
        push_run(&mut runs, out)?;
    }
    Ok(runs)
}

/// Adds so many cut branches without their paths.
fn push_cuts(alloc: Global, outs: &mut Vec<Out>, count: u64) -> Result<(), Memory>
    ensures { OnOk result (outs_of outs.new.items
        ≡ outs_of outs.old.items ++ replicate count (cut [])) }
{
    let mut left = count;
    'adding: while left > 0 {
        outs.push(Out::Cut(Path::root(alloc)))?;
        left -= 1;
    }
    Ok(())
}

/// Adds so many stuck branches without their paths.
fn push_stuck(alloc: Global, outs: &mut Vec<Out>, count: u64) -> Result<(), Memory>
    ensures { OnOk result (outs_of outs.new.items
        ≡ outs_of outs.old.items ++ replicate count (stuck [])) }
{
    let mut left = count;
    'adding: while left > 0 {
        outs.push(Out::Stuck(Path::root(alloc)))?;
        left -= 1;
    }
    Ok(())
}

/// Adds the outputs of a run.
fn push_outs(alloc: Global, outs: &mut Vec<Out>, run: Run) -> Result<(), Memory>
    ensures { OnOk result (outs_of outs.new.items
        ≡ outs_of outs.old.items ++ outs_of_run run) }
{
    match run {
        Run::One(out) => {
            outs.push(out)?;
            Ok(())
        }
        Run::Cuts(count) => push_cuts(alloc, outs, count),
        Run::Stuck(count) => push_stuck(alloc, outs, count),
    }
}

/// The outputs of runs, one by one.
pub fn outs_in_full(alloc: Global, runs: Vec<Run>) -> Result<Vec<Out>, Memory>
    ensures { IfOk result (λ v. outs_of v.items ≡ outs_of_runs runs.items) }
{
    let mut outs = Vec::new(alloc);
    for run in runs {
        push_outs(alloc, &mut outs, run)?;
    }
    Ok(outs)
}
