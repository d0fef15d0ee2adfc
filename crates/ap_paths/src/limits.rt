//! How many answers are wanted, and the outputs up to so many.

ghost use Rattle.std.specs.Prelude.{◌≡◌, ◌+◌, ◌-◌, ◌^◌, ◌<◌, min, if◌then◌else◌, take};
ghost use Rattle.ap_defs.specs.Answers.{out_of, outs_of};
ghost use Rattle.ap_paths.specs.Limits.{is_answer_out, found_in, first_part};
ghost use Rattle.ap_paths.specs.Limits as limits;
ghost use Rattle.ap_paths.specs.Runs.{outs_of_run, outs_of_runs};

use crate::runs::Run;
use ap_defs::paths::Out;

/// How many answers of a search are wanted: all, or the first so many.
#[derive(Clone, Copy)]
pub enum Limit {
    All,
    First(u64),
}

/// The outputs up to the last answer that is wanted, or all where there are fewer. It takes no
/// memory.
pub fn part(runs: Vec<Run>, limit: Limit) -> Vec<Run>
    ensures { outs_of_runs result.items ≡ limits.part limit (outs_of_runs runs.items) }
{
    match limit {
        Limit::All => runs,
        Limit::First(count) => cut(runs, count),
    }
}

/// The outputs up to the answer of this number.
fn cut(mut runs: Vec<Run>, count: u64) -> Vec<Run>
    ensures { outs_of_runs result.items ≡ first_part count (outs_of_runs runs.items) }
{
    let end = end_of(runs.as_slice(), count);
    runs.truncate(end);
    runs
}

/// How many runs there are up to the answer of this number.
fn end_of(runs: &[Run], count: u64) -> usize
    ensures { outs_of_runs (take result runs.now) ≡ first_part count (outs_of_runs runs.now) }
{
    let mut left = count;
    let mut place = 0;
    for run in runs {
        if left == 0 {
            return place;
        }
        left = less_by(left, run);
        place += 1;
    }
    place
}

/// How many answers are still wanted after this run.
fn less_by(left: u64, run: &Run) -> u64
    requires { 0 < left }
    ensures { result + found_in (outs_of_run run.now) ≡ left }
{
    if has_answer(run) { left - 1 } else { left }
}

/// How many answers are among the outputs, or the greatest count where there are more.
pub fn answers_in(outs: &[Out]) -> u64
    ensures { result ≡ min (found_in (outs_of outs.now)) (2 ^ 64 - 1) }
{
    let mut count = 0;
    for out in outs {
        count = more_by(count, out);
    }
    count
}

/// The count with this output.
fn more_by(count: u64, out: &Out) -> u64
    ensures { result
        ≡ min (count + (if is_answer_out (out_of out.now) then 1 else 0)) (2 ^ 64 - 1) }
{
    if is_answer(out) {
        count.saturating_add(1)
    } else {
        count
    }
}

/// How many answers are among the outputs of runs, or the greatest count where there are more.
pub fn answers_in_runs(runs: &[Run]) -> u64
    ensures { result ≡ min (found_in (outs_of_runs runs.now)) (2 ^ 64 - 1) }
{
    let mut count = 0;
    for run in runs {
        count = more_by_run(count, run);
    }
    count
}

/// The count with this run.
fn more_by_run(count: u64, run: &Run) -> u64
    ensures { result ≡ min (count + found_in (outs_of_run run.now)) (2 ^ 64 - 1) }
{
    if has_answer(run) {
        count.saturating_add(1)
    } else {
        count
    }
}

/// Whether a run is an answer.
#[tactic(auto, using(crate::proofs::Limiting::one_found, crate::proofs::Limiting::no_cut_found, crate::proofs::Limiting::no_stuck_found))]
fn has_answer(run: &Run) -> bool
    ensures { found_in (outs_of_run run.now) ≡ (if result then 1 else 0) }
{
    match run {
        Run::One(out) => is_answer(out),
        Run::Cuts(_count) => false,
        Run::Stuck(_count) => false,
    }
}

/// Whether an output is an answer.
fn is_answer(out: &Out) -> bool
    ensures { result ≡ is_answer_out (out_of out.now) }
{
    match out {
        Out::Found(_path, _answer) => true,
        Out::Cut(_path) => false,
        Out::Stuck(_path) => false,
    }
}
