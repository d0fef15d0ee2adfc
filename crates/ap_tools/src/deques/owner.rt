//! The owner's side of a deque of paths.

ghost use Rattle.std.specs.Prelude.{◌≡◌, ◌+◌, ◌-◌, ◌<◌, ◌≤◌, true, false, [], ◌∷◌, ◌++◌, length, vec_len, vec_capacity, IfOk, IfErr, MatchOption, MatchResult};
ghost use Rattle.crossbeam_deque.specs.Handles.{worker_flavor, worker_port, worker_view, worker_capacity, worker_index};

use crate::deques::hand::Hand;
use crate::deques::placed::{Placed, Shape};
use crate::deques::rule::{Fair, Looks, Pops, Puts};
use crossbeam_deque::Worker;
use std::alloc::Global;

/// The owner's side of a deque of paths, whose pushes and pops are accounted for.
pub type Deque<W> = Worker<Placed<W>, Global, Hand, Fair>;

/// So many pushes always succeed.
pub const ROOM: usize = 64;

/// A path for which there was no room. It comes back.
#[derive(Drop)]
pub struct Kept<W: Shape> {
    pub path: Placed<W>,
}

/// The side of a deque that pushes and pops.
#[derive(Drop)]
pub struct Owner<W: Shape> {
    pub(crate) deque: Deque<W>,
    // The pushes less the pops.
    pub(crate) held: usize,
    // Room for all paths that may be left.
    pub(crate) left: Vec<Placed<W>>,
    pub ghost is_first: { (worker_port deque ≡ 0) × (worker_flavor deque ≡ 1) },
    pub ghost counts: { held + length (worker_view deque).popped
        ≡ length (worker_view deque).pushed },
    pub ghost index: { worker_index deque ≤ length (worker_view deque).pushed },
    pub ghost reserved: { (left.items ≡ []) × (held ≤ vec_capacity left) },
    pub ghost none_stolen: { ((worker_view deque).parts ≡ 0) × ((worker_view deque).stolen ≡ []) },
    pub ghost room: { 64 ≤ worker_capacity deque },
    pub ghost reserved_first: { 64 ≤ vec_capacity left },
}

impl<W: Shape> Owner<W> {
    ghost use Rattle.ap_tools.specs.Owners.{owner_deque, owner_view, PushedOne, PoppedOne};
    ghost use Rattle.ap_tools.specs.Rule.{Permits, HoldsSome};

    /// Puts a path at the back. Where there is no room for it, it comes back, and the deque is
    /// unchanged; the first 64 pushes have room.
    pub fn push(&mut self, path: Placed<W>) -> Result<(), Kept<W>>
        ensures same { owner_deque self.new ≡ owner_deque self.old }
        ensures pushed { MatchResult result (λ _. PushedOne (owner_view self.old) path
            (owner_view self.new)) (λ k. (k.path ≡ path)
            × (owner_view self.new ≡ owner_view self.old)) }
        ensures room { IfErr result (λ _. 64 ≤ length (owner_view self.old).pushed) }
    {
        let Some(more) = self.held.checked_add(1) else {
            return Err(Kept { path });
        };
        if self.left.capacity() < more && self.left.reserve(more).is_err() {
            return Err(Kept { path });
        }
        match self.deque.push_as::<Puts>(path) {
            Ok(()) => {
                self.held = more;
                Ok(())
            }
            Err(path) => Err(Kept { path }),
        }
    }

    /// Takes the path at the back: of those that are there, the one that was pushed last. None
    /// comes only where nothing may be there, beside what this owner has pushed and popped. It
    /// takes no memory.
    pub fn pop(&mut self) -> Option<Placed<W>>
        ensures same { owner_deque self.new ≡ owner_deque self.old }
        ensures popped { PoppedOne (owner_view self.old) result (owner_view self.new) }
    {
        let found = self.deque.pop_as::<Pops>();
        if found.is_some() {
            self.held -= 1;
        }
        found
    }

    /// Whether the deque was empty at one moment of the call. It takes no memory.
    pub fn is_empty(&mut self) -> bool
        ensures same { (owner_deque self.new ≡ owner_deque self.old)
            × (owner_view self.new ≡ owner_view self.old) }
        ensures none { result ≡ true → Permits (owner_view self.old) [] }
        ensures some { result ≡ false → HoldsSome (owner_view self.old) }
    {
        self.deque.len_as::<Looks>() == 0
    }
}
