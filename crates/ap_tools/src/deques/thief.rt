//! The side of a deque that another thread has.

use crate::deques::hand::Hand;
use crate::deques::placed::{Placed, Shape};
use crate::deques::rule::{Fair, Robs};
use ap_defs::memory::Memory;
use crossbeam_deque::{Pass, Steal, Stealer};
use std::alloc::Global;
use std::marker::Model;

/// A thief's side of a deque of paths, whose steals are accounted for.
pub type Robber<W> = Stealer<Placed<W>, Global, Hand, Fair>;

/// The side of a deque that steals. Contracts see which deque it is, how many parts of the right to
/// close it this thief has, what it has stolen, and how many paths it knows to be taken.
#[derive(Drop)]
pub struct Thief<W: Shape> {
    pub(crate) stealer: Robber<W>,
    pub(crate) pass: Pass<Placed<W>, Hand>,
    pub(crate) spare: Vec<Pass<Placed<W>, Hand>>,
}

impl<W: Shape> Model for Thief<W> {
    ghost use Rattle.ap_tools.specs.Ends.{ThiefView, IsThief, thief_view};

    ghost Value = { ThiefView };

    ghost view = { λ t. thief_view t.stealer t.pass t.spare.items };

    ghost invariant = { λ t. IsThief t.stealer t.pass t.spare.items };
}

/// What a try to steal comes to: a path, which is taken; at most one was there; or others took
/// paths meanwhile.
#[derive(Drop)]
pub enum Stolen<W: Shape> {
    Got(Placed<W>),
    Empty,
    Again,
}

impl<W: Shape> Thief<W> {
    ghost use Rattle.std.specs.Prelude.{◌≡◌, ◌+◌, ◌<◌, ◌≤◌, [], IfOk, OnErr};
    ghost use Rattle.ap_tools.specs.Thieves.{Stole};
    ghost use Rattle.ap_tools.specs.Ends.{IsThief, thief_view};

    /// Tries once to take the path at the front.
    ///
    /// `Empty` comes only where the rule permits a deque of at most one path beside what this thief
    /// has stolen; `Again` only there, or where it now knows of more paths that are taken. It takes
    /// no memory.
    pub fn steal(&mut self) -> Stolen<W>
        ensures same { (self.new.deque ≡ self.old.deque) × (self.new.parts ≡ self.old.parts) }
        ensures stole { Stole self.old result self.new }
    {
        let Thief { stealer, pass, .. } = self;
        match stealer.steal_as::<Robs>(pass) {
            Steal::Success(path) => Stolen::Got(path),
            Steal::Empty => Stolen::Empty,
            Steal::Retry => Stolen::Again,
        }
    }

    /// The parts that it has.
    pub fn parts(&self) -> usize
        ensures { result ≡ self.now.parts }
    {
        self.spare.len() + 1
    }

    /// Another thief of this deque, with one of the parts. The only error is want of memory; after
    /// it this thief is unchanged.
    pub fn split(&mut self, alloc: Global) -> Result<Thief<W>, Memory>
        requires { 1 < self.old.parts }
        ensures same { (self.new.deque ≡ self.old.deque) × (self.new.stolen ≡ self.old.stolen)
            × (self.new.known ≡ self.old.known) }
        ensures parts { IfOk result (λ t. (t.deque ≡ self.old.deque) × (t.parts ≡ 1)
            × (t.stolen ≡ []) × (self.new.parts + 1 ≡ self.old.parts)) }
        ensures err { OnErr result (self.new ≡ self.old) }
    {
        let stealer = self.stealer.clone()?;
        let Some(pass) = self.spare.pop() else {
            unreachable!()
        };
        Ok(Thief::with_one(alloc, stealer, pass))
    }

    fn with_one(alloc: Global, stealer: Robber<W>, pass: Pass<Placed<W>, Hand>) -> Thief<W>
        requires { IsThief stealer pass [] }
        ensures { result ≡ thief_view stealer pass [] }
    {
        Thief {
            stealer,
            pass,
            spare: Vec::new(alloc),
        }
    }
}
