//! What conditions are held of each number: those on its variable, in the order in which they came,
//! each as often as it came. Of numbers behind the last list nothing is held, so that a search without
//! conditions has no lists.

ghost use Rattle.std.specs.Prelude.{◌≡◌, ℕ, ◌+◌, ◌-◌, ◌<◌, ◌≤◌, ◌==◌, ◌++◌, ◌∷◌, [], IfOk, OnOk, OnErr, if◌then◌else◌, length, take};
ghost use Rattle.ap_defs.specs.Freshness.{add_conds};
ghost use Rattle.ap_store.specs.Slots.{IsHeldByVariable, all_held, held_in};

use ap_defs::memory::Memory;
use ap_defs::terms::Cond;
use ap_perm::sets::make_set;
use std::alloc::Global;
use std::mem;

/// Makes room for the conditions of a number, where nothing was held of it or of higher ones so far.
fn make_place(held: &mut Vec<Vec<Cond>>, place: usize) -> Result<(), Memory>
    ensures held { (i : ℕ) → held_in held.new.items i ≡ held_in held.old.items i }
    ensures place { OnOk result (place < length held.new.items) }
    ensures length { length held.old.items ≤ length held.new.items }
{
    let alloc = *held.allocator();
    'adding: while held.len() <= place {
        held.push(Vec::new(alloc))?;
    }
    Ok(())
}

/// Puts a condition behind those that are held of its variable.
pub fn hold(held: &mut Vec<Vec<Cond>>, c: Cond) -> Result<(), Memory>
    ensures held { OnOk result ((i : ℕ) →
        held_in held.new.items i
        ≡ (if i == c.var.num then held_in held.old.items i ++ c
        ∷ [] else held_in held.old.items i)) }
    ensures unchanged { OnErr result ((i : ℕ) →
        held_in held.new.items i ≡ held_in held.old.items i) }
    ensures length { length held.old.items ≤ length held.new.items }
{
    let place = c.var.num as usize;
    make_place(held, place)?;
    push_at(held, place, c)
}

/// Puts a condition behind those that are held of a number.
fn push_at(held: &mut Vec<Vec<Cond>>, place: usize, c: Cond) -> Result<(), Memory>
    requires { place < length held.old.items }
    ensures held { OnOk result ((i : ℕ) →
        held_in held.new.items i
        ≡ (if i == place then held_in held.old.items i ++ c ∷ [] else held_in held.old.items i)) }
    ensures unchanged { OnErr result ((i : ℕ) →
        held_in held.new.items i ≡ held_in held.old.items i) }
    ensures length { length held.new.items ≡ length held.old.items }
{
    held[place].push(c)?;
    Ok(())
}

/// What is held of a number. It takes no memory.
pub fn held_of(held: &[Vec<Cond>], place: usize) -> &[Cond]
    ensures { result.now ≡ held_in held.now place }
{
    if place < held.len() {
        held[place].as_slice()
    } else {
        &[]
    }
}

/// Lets the last condition go that is held of a number.
pub fn let_go(held: &mut Vec<Vec<Cond>>, place: usize)
    requires { place < length held.old.items }
    ensures held { (i : ℕ) →
        held_in held.new.items i
        ≡ (if i == place then take (length (held_in held.old.items i) - 1)
        (held_in held.old.items i) else held_in held.old.items i) }
    ensures length { length held.new.items ≡ length held.old.items }
{
    let _last = held[place].pop();
}

/// Takes out what is held of a number. It takes no memory.
pub fn take_out(held: &mut Vec<Vec<Cond>>, place: usize) -> Vec<Cond>
    requires { place < length held.old.items }
    ensures taken { result.items ≡ held_in held.old.items place }
    ensures held { (i : ℕ) →
        held_in held.new.items i ≡ (if i == place then [] else held_in held.old.items i) }
    ensures length { length held.new.items ≡ length held.old.items }
{
    let nothing = Vec::new(*held.allocator());
    mem::replace(&mut held[place], nothing)
}

/// Puts back what was held of a number, of which nothing is held.
pub fn put_back(held: &mut Vec<Vec<Cond>>, place: usize, conds: Vec<Cond>)
    requires { place < length held.old.items }
    ensures held { (i : ℕ) →
        held_in held.new.items i ≡ (if i == place then conds.items else held_in held.old.items i) }
    ensures length { length held.new.items ≡ length held.old.items }
{
    held[place] = conds;
}

/// Puts the set of some conditions behind others. It is made in `own`, whose memory is used again.
fn put_set(own: &mut Vec<Cond>, conds: &[Cond], all: &mut Vec<Cond>) -> Result<(), Memory>
    ensures { OnOk result (all.new.items ≡ all.old.items ++ add_conds conds.now []) }
{
    if conds.is_empty() {
        return Ok(());
    }
    own.clear();
    own.extend_from_slice(conds)?;
    make_set(own);
    all.extend_from_slice(own)?;
    Ok(())
}

/// The set of all conditions that are held. Those of a number come before those of higher ones, so each
/// number's are made a set by themselves.
pub fn set_of(alloc: Global, held: &[Vec<Cond>]) -> Result<Vec<Cond>, Memory>
    requires { IsHeldByVariable held.now }
    ensures { IfOk result (λ v. v.items ≡ add_conds (all_held held.now) []) }
{
    let mut all = Vec::new(alloc);
    let mut own = Vec::new(alloc);
    'gathering: for conds in held {
        put_set(&mut own, conds, &mut all)?;
    }
    Ok(all)
}
