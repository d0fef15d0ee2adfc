//! One event, as the workers take it.

ghost use Rattle.std.specs.Prelude.{◌≡◌, ℕ, List as list, IfOk};
ghost use Rattle.ap_tools.specs.States.{Past};
ghost use Rattle.ap_tools.specs.Steps.{Splits, EndsPath, SkipsPath, IsStep};
ghost use Rattle.ap_play.specs.Stages.{state_of, hands_of, past_of, Answered, AreFirstsInTree};

use crate::kids::are_kids;
use crate::workers::{Worker, pop, push, steal};
use ap_defs::lists::List;
use ap_defs::memory::Memory;
use ap_defs::paths::Path;
use ap_paths::{Endings, Tree};
use ap_tools::Event;
use std::alloc::Global;

/// Replaces the first path in the hand of a worker by its kids.
fn split<T: Tree>(
    alloc: Global,
    tree: &T,
    workers: &mut [Worker],
    w: usize,
    kids: &[u32],
) -> Result<bool, Memory>
    requires { AreFirstsInTree (T.choices tree.now) (hands_of workers.old) }
    ensures { (past : Past) →
        IfOk result (λ b. Answered (Splits (T.choices tree.now) (T.at tree.now)
        (state_of workers.old past) w kids.now) b (state_of workers.new past)) }
{
    if w >= workers.len() {
        return Ok(false);
    }
    let worker = &mut workers[w];
    let Some(path) = worker.begin() else {
        return Ok(false);
    };
    let permitted = are_kids(alloc, tree, &path, kids)?;
    if !permitted {
        return Ok(false);
    }
    worker.take_kids(alloc, &path, kids)?;
    Ok(true)
}

/// Ends the first path in the hand of a worker, with the outputs below it.
fn done<T: Tree>(
    alloc: Global,
    tree: &T,
    workers: &mut [Worker],
    endings: &mut Endings,
    w: usize,
) -> Result<bool, Memory>
    requires { AreFirstsInTree (T.choices tree.now) (hands_of workers.old) }
    ensures { (skipped : list (list ℕ)) →
        IfOk result (λ b. Answered (EndsPath (T.at tree.now) (state_of workers.old
        (past_of endings.old skipped)) w) b (state_of workers.new (past_of endings.new skipped))) }
{
    if w >= workers.len() {
        return Ok(false);
    }
    let worker = &mut workers[w];
    let Some(path) = worker.begin() else {
        return Ok(false);
    };
    let outs = tree.outs(alloc, &path)?;
    endings.put(alloc, &path, List::of(outs))?;
    Ok(true)
}

/// Leaves out the first path in the hand of a worker, where so many answers have ended before it.
fn skip(
    workers: &mut [Worker],
    endings: &Endings,
    skipped: &mut Vec<Path>,
    w: usize,
    found: u64,
) -> Result<bool, Memory>
    ensures { IfOk result (λ b. Answered (SkipsPath (state_of workers.old
        (past_of endings.now skipped.old.items)) w found) b (state_of workers.new
        (past_of endings.now skipped.new.items))) }
{
    if w >= workers.len() {
        return Ok(false);
    }
    let worker = &mut workers[w];
    let Some(path) = worker.begin() else {
        return Ok(false);
    };
    let there = endings.answers_before(&path);
    if there < found {
        return Ok(false);
    }
    skipped.push(path)?;
    Ok(true)
}

/// Whether the event is permitted. If so, it is taken.
pub fn take<T: Tree>(
    alloc: Global,
    tree: &T,
    workers: &mut [Worker],
    endings: &mut Endings,
    skipped: &mut Vec<Path>,
    event: &Event,
) -> Result<bool, Memory>
    requires { AreFirstsInTree (T.choices tree.now) (hands_of workers.old) }
    ensures { IfOk result (λ b. Answered (IsStep (T.choices tree.now) (T.at tree.now) (state_of
        workers.old (past_of endings.old skipped.old.items)) event.now) b (state_of workers.new
        (past_of endings.new skipped.new.items))) }
{
    match event {
        Event::Push(w) => push(workers, *w as usize),
        Event::Pop(w) => pop(workers, *w as usize),
        Event::Steal(w, from) => steal(workers, *w as usize, *from as usize),
        Event::Split(w, kids) => split(alloc, tree, workers, *w as usize, kids.items()),
        Event::Done(w) => done(alloc, tree, workers, endings, *w as usize),
        Event::Skip(w, found) => skip(workers, endings, skipped, *w as usize, *found),
    }
}
