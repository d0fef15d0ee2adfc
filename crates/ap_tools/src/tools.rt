//! What a worker keeps: a hand of paths, a deque of its own, and thieves of the others' deques.

ghost use Rattle.std.specs.Prelude.{◌≡◌, ℕ, ◌+◌, ◌-◌, ◌^◌, min, if◌then◌else◌, true, None, List as list, [], ◌∷◌, ◌++◌, IfOk, MatchOption};
ghost use Rattle.ap_paths.specs.Weights.{weigh};
ghost use Rattle.ap_paths.specs.History.{kids_of};
ghost use Rattle.ap_tools.specs.Planned.{AllAreChoices};
ghost use Rattle.ap_tools.specs.Order.{KeepsWho, TookFirst};
ghost use Rattle.ap_tools.specs.Hands.{IsFreshTools, held};
ghost use Rattle.ap_tools.specs.Accounts.{fetched, Took};
ghost use Rattle.ap_tools.specs.Owners.{owner_view};

use crate::{Owner, Placed, Shape, Stolen, Thief};
use ap_defs::memory::Memory;
use std::alloc::Global;
use std::collections::VecDeque;

/// A hand, whose first path is the next to be run, a deque, and thieves of the others.
#[derive(Drop)]
pub struct Tools<W: Shape> {
    pub number: u32,
    // The paths that were run.
    pub count: u64,
    // How many paths in a row left the deque empty when they were taken.
    pub narrow: u32,
    // Whether there are no other workers. Then all paths stay in the hand.
    pub alone: bool,
    pub own: Owner<W>,
    pub others: Vec<Thief<W>>,
    // The thief that tried last.
    pub at: usize,
    pub hand: VecDeque<Placed<W>>,
}

/// How many paths in a row left the deque empty, after one more.
fn narrow_after(narrow: u32, is_empty: bool) -> u32
    ensures { result ≡ (if is_empty then min (narrow + 1) (2 ^ 32 - 1) else 0) }
{
    if is_empty {
        narrow.saturating_add(1)
    } else {
        0
    }
}

impl<W: Shape> Tools<W> {
    /// A path to run: from the hand, the own deque, or another's. No other path leaves them.
    pub fn next(&mut self) -> Option<Placed<W>>
        ensures kept { KeepsWho self.old self.new }
        ensures first { TookFirst self.old result self.new }
        ensures none { result ≡ None → self.old.hand.items ≡ [] }
        ensures took { MatchOption result (Took self.old [] self.new) (λ p.
            Took self.old (p ∷ []) self.new) }
    {
        let path = self.take()?;
        self.look();
        Some(path)
    }

    /// The same, without a look at what is left.
    fn take(&mut self) -> Option<Placed<W>>
        ensures kept { KeepsWho self.old self.new }
        ensures first { TookFirst self.old result self.new }
        ensures none { result ≡ None → self.old.hand.items ≡ [] }
        ensures took { MatchOption result (Took self.old [] self.new) (λ p.
            Took self.old (p ∷ []) self.new) }
    {
        match self.hand.pop_front() {
            Some(path) => Some(path),
            None => self.fetch(),
        }
    }

    /// Looks whether the own deque is empty.
    fn look(&mut self)
        ensures kept { KeepsWho self.old self.new }
        ensures hand { self.new.hand.items ≡ self.old.hand.items }
        ensures own { owner_view self.new.own ≡ owner_view self.old.own }
        ensures others { self.new.others.items ≡ self.old.others.items }
    {
        let is_empty = self.own.is_empty();
        self.narrow = narrow_after(self.narrow, is_empty);
    }

    /// A path from the own deque, or another's.
    fn fetch(&mut self) -> Option<Placed<W>>
        ensures kept { KeepsWho self.old self.new }
        ensures none { self.old.alone ≡ true →
            (result ≡ None) × (self.new.hand.items ≡ self.old.hand.items) }
        ensures took { MatchOption result (Took self.old [] self.new) (λ p.
            Took self.old (p ∷ []) self.new) }
    {
        if self.alone {
            return None;
        }
        match self.own.pop() {
            Some(path) => Some(path),
            None => self.rob(),
        }
    }

    /// A path of another worker. Each thief tries once, in turn.
    fn rob(&mut self) -> Option<Placed<W>>
        ensures kept { KeepsWho self.old self.new }
        ensures took { MatchOption result (Took self.old [] self.new) (λ p.
            Took self.old (p ∷ []) self.new) }
    {
        for _ in 0..self.others.len() {
            if let Some(path) = self.rob_next() {
                return Some(path);
            }
        }
        None
    }

    /// One try of the next thief.
    fn rob_next(&mut self) -> Option<Placed<W>>
        ensures kept { KeepsWho self.old self.new }
        ensures took { MatchOption result (Took self.old [] self.new) (λ p.
            Took self.old (p ∷ []) self.new) }
    {
        let next = self.at.saturating_add(1);
        let at = if next < self.others.len() { next } else { 0 };
        self.at = at;
        if at >= self.others.len() {
            return None;
        }
        match self.others[at].steal() {
            Stolen::Got(path) => Some(path),
            Stolen::Empty | Stolen::Again => None,
        }
    }

    /// Takes the kids of a path. The first is the next in the hand. The others go into the deque, the
    /// last first; where there are no other workers, or there is no room, they go into the hand.
    pub fn take_kids(&mut self, alloc: Global, path: &Placed<W>, kids: &[u32]) -> Result<(), Memory>
        requires { AllAreChoices (W.choices path.now) kids.now }
        ensures kept { KeepsWho self.old self.new }
        ensures kids { self.old.alone ≡ true →
            IfOk result (λ _. self.new.hand.items
            ≡ kids_of path.now kids.now ++ self.old.hand.items) }
        ensures held { (h : list ℕ → ℕ) →
            IfOk result (λ _. held h self.new
            ≡ weigh h (kids_of path.now kids.now) + held h self.old) }
        ensures fetched { (h : list ℕ → ℕ) → fetched h self.new ≡ fetched h self.old }
    {
        for i in 0..kids.len() {
            let kid = path.child(alloc, kids[kids.len() - 1 - i])?;
            self.put(kid, i + 1 == kids.len())?;
        }
        Ok(())
    }

    /// Takes one path.
    fn put(&mut self, path: Placed<W>, stays: bool) -> Result<(), Memory>
        ensures kept { KeepsWho self.old self.new }
        ensures first { self.old.alone ≡ true →
            IfOk result (λ _. self.new.hand.items ≡ path ∷ self.old.hand.items) }
        ensures held { (h : list ℕ → ℕ) →
            IfOk result (λ _. held h self.new ≡ h path + held h self.old) }
        ensures fetched { (h : list ℕ → ℕ) → fetched h self.new ≡ fetched h self.old }
    {
        if stays || self.alone {
            self.hand.push_front(path)?;
            return Ok(());
        }
        if let Err(kept) = self.own.push(path) {
            self.hand.push_front(kept.path)?;
        }
        Ok(())
    }

    /// One more thief.
    pub fn add(&mut self, thief: Thief<W>) -> Result<(), Memory>
        ensures { (n : ℕ) → IsFreshTools n self.old → IsFreshTools n self.new }
    {
        self.others.push(thief)?;
        Ok(())
    }
}
