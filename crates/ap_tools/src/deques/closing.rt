//! How a deque is made, and what is left of it.

ghost use Rattle.std.specs.Prelude.{◌≡◌, ℕ, ◌+◌, ◌-◌, ◌≤◌, List as list, [], ◌++◌, length, vec_len, vec_capacity, IfOk};
ghost use Rattle.crossbeam_deque.specs.Handles.{view, IsPassOf, worker_deque, worker_view, worker_flavor, worker_port, worker_capacity, worker_index};
ghost use Rattle.ap_paths.specs.Weights.{weigh};
ghost use Rattle.ap_tools.specs.Rule.{hand};
ghost use Rattle.ap_tools.specs.Ends.{AreSpare};
ghost use Rattle.ap_tools.specs.Owners.{owner_deque, owner_view, parts_of_thieves, stolen_of, AreThievesOf, IsLifoOwner};

use crate::deques::hand::Hand;
use crate::deques::owner::{Deque, Owner, ROOM};
use crate::deques::placed::{Placed, Shape};
use crate::deques::rule::{Cut, Pops, Unite};
use crate::deques::thief::Thief;
use ap_defs::lists::List;
use ap_defs::memory::Memory;
use crossbeam_deque::Pass;
use std::alloc::Global;

/// The parts of a new thief but one.
const SPARE: usize = 1023;

/// The paths that are left in a deque that is closed.
#[derive(Drop)]
pub struct Left<W: Shape> {
    pub paths: List<Placed<W>>,
}

/// A new deque of paths, which is empty: its owner, and a thief that has all 1,024 parts of the
/// right to close it. The only error is want of memory.
pub fn tasks<W: Shape>(alloc: Global) -> Result<(Owner<W>, Thief<W>), Memory>
    ensures owner { IfOk result (λ t. owner_view t.0 ≡ hand 0 [] [] []) }
    ensures thief { IfOk result (λ t. (t.1.deque ≡ owner_deque t.0) × (t.1.parts ≡ 1024)
        × (t.1.stolen ≡ [])) }
{
    let left = Vec::with_capacity(alloc, ROOM)?;
    let spare = Vec::with_capacity(alloc, SPARE)?;
    let mut deque = Deque::<W>::lifo_as(alloc, ROOM)?;
    let stealer = deque.stealer()?;
    let pass = deque.another::<Cut>();
    let (deque, spare) = cut_spare(deque, spare);
    let thief = Thief {
        stealer,
        pass,
        spare,
    };
    let owner = Owner {
        deque,
        held: 0,
        left,
    };
    Ok((owner, thief))
}

/// Cuts passes of one part each.
fn cut_spare<W: Shape>(
    mut deque: Deque<W>,
    mut spare: Vec<Pass<Placed<W>, Hand>>,
) -> (Deque<W>, Vec<Pass<Placed<W>, Hand>>)
    requires { IsLifoOwner deque × (worker_view deque ≡ hand 1023 [] [] []) × (spare.items ≡ [])
        × (1023 ≤ vec_capacity spare) }
    ensures deque { (worker_deque result.0 ≡ worker_deque deque) × IsLifoOwner result.0
        × (worker_view result.0 ≡ hand 0 [] [] [])
        × (worker_capacity deque ≤ worker_capacity result.0)
        × (worker_index result.0 ≡ worker_index deque) }
    ensures spare { AreSpare (worker_deque deque) result.1.items × (length result.1.items ≡ 1023) }
{
    for _ in 0..SPARE {
        spare.push_reserved(deque.another::<Cut>());
    }
    (deque, spare)
}

fn absorb_spare<W: Shape>(deque: &mut Deque<W>, mut spare: Vec<Pass<Placed<W>, Hand>>)
    requires { IsLifoOwner deque.old × AreSpare (worker_deque deque.old) spare.items }
    ensures same { IsLifoOwner deque.new × (worker_deque deque.new ≡ worker_deque deque.old) }
    ensures view { ((worker_view deque.new).parts
        ≡ (worker_view deque.old).parts + length spare.items)
        × ((worker_view deque.new).pushed ≡ (worker_view deque.old).pushed)
        × ((worker_view deque.new).popped ≡ (worker_view deque.old).popped)
        × ((worker_view deque.new).stolen ≡ (worker_view deque.old).stolen) }
{
    while let Some(pass) = spare.pop() {
        deque.absorb::<Unite>(pass);
    }
}

/// A thief comes back to the owner.
fn absorb_thief<W: Shape>(deque: &mut Deque<W>, thief: Thief<W>)
    requires { IsLifoOwner deque.old × (thief.deque ≡ worker_deque deque.old) }
    ensures same { IsLifoOwner deque.new × (worker_deque deque.new ≡ worker_deque deque.old) }
    ensures view { ((worker_view deque.new).parts ≡ (worker_view deque.old).parts + thief.parts)
        × ((worker_view deque.new).pushed ≡ (worker_view deque.old).pushed)
        × ((worker_view deque.new).popped ≡ (worker_view deque.old).popped)
        × ((worker_view deque.new).stolen ≡ (worker_view deque.old).stolen ++ thief.stolen) }
{
    let Thief {
        stealer,
        pass,
        spare,
    } = thief;
    deque.absorb::<Unite>(pass);
    absorb_spare(deque, spare);
    drop(stealer);
}

fn absorb_all<W: Shape>(deque: &mut Deque<W>, mut thieves: Vec<Thief<W>>)
    requires { IsLifoOwner deque.old × AreThievesOf (worker_deque deque.old) thieves.items }
    ensures same { IsLifoOwner deque.new × (worker_deque deque.new ≡ worker_deque deque.old) }
    ensures view { ((worker_view deque.new).parts
        ≡ (worker_view deque.old).parts + parts_of_thieves thieves.items)
        × ((worker_view deque.new).pushed ≡ (worker_view deque.old).pushed)
        × ((worker_view deque.new).popped ≡ (worker_view deque.old).popped) }
    ensures stolen { (h : list ℕ → ℕ) →
        weigh h (worker_view deque.new).stolen
        ≡ weigh h (worker_view deque.old).stolen + stolen_of h thieves.items }
{
    while let Some(thief) = thieves.pop() {
        absorb_thief(deque, thief);
    }
}

/// Takes out what is there.
fn drain<W: Shape>(deque: &mut Deque<W>, left: &mut Vec<Placed<W>>)
    requires view { IsLifoOwner deque.old × ((worker_view deque.old).parts ≡ 1024) }
    requires room { (left.old.items ≡ [])
        × (length (worker_view deque.old).pushed
        ≤ length (worker_view deque.old).popped + vec_capacity left.old) }
    ensures { (h : list ℕ → ℕ) →
        weigh h (worker_view deque.old).pushed
        ≡ (weigh h (worker_view deque.old).popped + weigh h (worker_view deque.old).stolen)
        + weigh h left.new.items }
{
    while let Some(path) = deque.pop_as::<Pops>() {
        left.push_reserved(path);
    }
}

impl<W: Shape> Owner<W> {
    ghost use Rattle.std.specs.Prelude.{◌≡◌, ℕ, ◌+◌, List as list};
    ghost use Rattle.ap_paths.specs.Weights.{weigh};
    ghost use Rattle.ap_tools.specs.Owners.{owner_deque, owner_view, parts_of_thieves, stolen_of, AreThievesOf};

    /// The paths that are left, where all thieves of this deque are given: those whose parts add up
    /// to 1,024. What was popped, stolen and is left is what was pushed, each path as often. It
    /// takes no memory.
    pub fn close(self, thieves: Vec<Thief<W>>) -> Left<W>
        requires all { AreThievesOf (owner_deque self) thieves.items
            × (parts_of_thieves thieves.items ≡ 1024) }
        ensures { (h : list ℕ → ℕ) →
            weigh h (owner_view self).pushed
            ≡ (weigh h (owner_view self).popped + stolen_of h thieves.items)
            + weigh h result.paths }
    {
        let Owner {
            mut deque,
            held: _,
            mut left,
        } = self;
        absorb_all(&mut deque, thieves);
        drain(&mut deque, &mut left);
        drop(deque);
        Left {
            paths: List::of(left),
        }
    }
}
