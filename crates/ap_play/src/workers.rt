//! The workers, each with a hand and a deque of paths.

ghost use Rattle.std.specs.Prelude.{◌≡◌, [], ◌∷◌, ◌++◌, IfOk, IsTrue, ◌↔◌};
ghost use Rattle.ap_paths.specs.History.{kids_of};
ghost use Rattle.ap_tools.specs.States.{Past};
ghost use Rattle.ap_play.specs.Single.{PushedAlone, PoppedAlone, Gave, Began};
ghost use Rattle.ap_tools.specs.Steps.{Pushes, Pops, Steals};
ghost use Rattle.ap_play.specs.Stages.{state_of, Answered};

use ap_defs::memory::Memory;
use ap_defs::paths::Path;
use std::alloc::Global;
use std::collections::VecDeque;

/// A worker runs the first path of its hand, and lends the others by its deque.
#[derive(Drop)]
pub struct Worker {
    pub hand: VecDeque<Path>,
    pub deque: VecDeque<Path>,
}

impl Worker {
    /// A worker with nothing in its hand and its deque.
    pub fn new(alloc: Global) -> Worker
        ensures hand { result.hand.items ≡ [] }
        ensures deque { result.deque.items ≡ [] }
    {
        Worker {
            hand: VecDeque::new(alloc),
            deque: VecDeque::new(alloc),
        }
    }

    /// Puts the last path of the hand at the back of the deque.
    fn push(&mut self) -> Result<bool, Memory>
        ensures { IfOk result (λ b. PushedAlone self.old b self.new) }
    {
        let Some(path) = self.hand.pop_back() else {
            return Ok(false);
        };
        self.deque.push_back(path)?;
        Ok(true)
    }

    /// Takes the last path of the deque into the hand, if that is empty.
    fn pop(&mut self) -> Result<bool, Memory>
        ensures { IfOk result (λ b. PoppedAlone self.old b self.new) }
    {
        if !self.hand.is_empty() {
            return Ok(false);
        }
        let Some(path) = self.deque.pop_back() else {
            return Ok(false);
        };
        self.hand.push_back(path)?;
        Ok(true)
    }

    /// Whether the hand is empty.
    fn is_idle(&self) -> bool
        ensures { IsTrue result ↔ (self.now.hand.items ≡ []) }
    {
        self.hand.is_empty()
    }

    /// Gives the first path of the deque away.
    fn give(&mut self) -> Option<Path>
        ensures { Gave self.old result self.new }
    {
        self.deque.pop_front()
    }

    /// Takes the first path out of the hand.
    pub fn begin(&mut self) -> Option<Path>
        ensures { Began self.old result self.new }
    {
        self.hand.pop_front()
    }

    /// Takes a path into the hand, behind the others.
    pub fn take(&mut self, path: Path) -> Result<(), Memory>
        ensures hand { IfOk result (λ _. self.new.hand.items ≡ self.old.hand.items ++ path ∷ []) }
        ensures deque { IfOk result (λ _. self.new.deque.items ≡ self.old.deque.items) }
    {
        self.hand.push_back(path)?;
        Ok(())
    }

    /// Takes the kids of a path into the hand, before the others.
    pub fn take_kids(&mut self, alloc: Global, path: &Path, kids: &[u32]) -> Result<(), Memory>
        ensures hand { IfOk result (λ _. self.new.hand.items
            ≡ kids_of path.now kids.now ++ self.old.hand.items) }
        ensures deque { IfOk result (λ _. self.new.deque.items ≡ self.old.deque.items) }
    {
        for i in 0..kids.len() {
            let kid = path.child(alloc, kids[kids.len() - 1 - i])?;
            self.hand.push_front(kid)?;
        }
        Ok(())
    }
}

/// Whether a worker may put a path from its hand into its deque. If so, it does.
pub fn push(workers: &mut [Worker], w: usize) -> Result<bool, Memory>
    ensures { (past : Past) →
        IfOk result (λ b. Answered (Pushes (state_of workers.old past) w) b
        (state_of workers.new past)) }
{
    if w >= workers.len() {
        return Ok(false);
    }
    let worker = &mut workers[w];
    worker.push()
}

/// Whether a worker may take a path back from its deque. If so, it does.
pub fn pop(workers: &mut [Worker], w: usize) -> Result<bool, Memory>
    ensures { (past : Past) →
        IfOk result (λ b. Answered (Pops (state_of workers.old past) w) b
        (state_of workers.new past)) }
{
    if w >= workers.len() {
        return Ok(false);
    }
    let worker = &mut workers[w];
    worker.pop()
}

/// Whether a worker may take a path from the deque of another. If so, it does.
pub fn steal(workers: &mut [Worker], w: usize, from: usize) -> Result<bool, Memory>
    ensures { (past : Past) →
        IfOk result (λ b. Answered (Steals (state_of workers.old past) w from) b
        (state_of workers.new past)) }
{
    if w == from {
        return Ok(false);
    }
    if w >= workers.len() {
        return Ok(false);
    }
    if from >= workers.len() {
        return Ok(false);
    }
    if !workers[w].is_idle() {
        return Ok(false);
    }
    let other = &mut workers[from];
    let Some(path) = other.give() else {
        return Ok(false);
    };
    let worker = &mut workers[w];
    worker.take(path)?;
    Ok(true)
}
