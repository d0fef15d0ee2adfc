ghost use Rattle.std.specs.Prelude.{◌≡◌, ◌≤◌, ◌∷◌, [], IfOk, OnOk};
ghost use Rattle.ap_tools.specs.Owners.{owner_deque};

use ap_defs::memory::Memory;
use ap_tools::{Owner, Placed, Shape, Stolen, Thief, tasks};
use std::alloc::Global;

// Each path has three choices.
#[derive(Drop)]
struct Ternary;

impl Shape for Ternary {
    ghost use Rattle.std.specs.Prelude.{Some};

    ghost choices = { λ p. Some 3 };
}

fn kid(alloc: Global, k: u32) -> Result<Placed<Ternary>, Memory>
    requires { (1 ≤ k) × (k ≤ 3) }
    ensures { IfOk result (λ p. p ≡ k ∷ []) }
{
    let root: Placed<Ternary> = Placed::root(alloc);
    root.child(alloc, k)
}

fn push(alloc: Global, owner: &mut Owner<Ternary>, k: u32) -> Result<(), Memory>
    requires { (1 ≤ k) × (k ≤ 3) }
    ensures { owner_deque owner.new ≡ owner_deque owner.old }
{
    match owner.push(kid(alloc, k)?) {
        Ok(()) => Ok(()),
        Err(_) => Err(Memory),
    }
}

/// Whether a thief gets the path of a choice.
fn steals(thief: &mut Thief<Ternary>, k: u32) -> bool
    ensures { (thief.new.deque ≡ thief.old.deque) × (thief.new.parts ≡ thief.old.parts) }
{
    match thief.steal() {
        Stolen::Got(path) => path.path().choices() == [k].as_slice(),
        _ => false,
    }
}

/// Whether the owner gets the path of a choice.
fn pops(owner: &mut Owner<Ternary>, k: u32) -> bool
    ensures { owner_deque owner.new ≡ owner_deque owner.old }
{
    match owner.pop() {
        Some(path) => path.path().choices() == [k].as_slice(),
        None => false,
    }
}

/// Whether the path of a choice is all that is left.
fn leaves(left: &[Placed<Ternary>], k: u32) -> bool {
    match left {
        [path] => path.path().choices() == [k].as_slice(),
        _ => false,
    }
}

fn one_is_left(alloc: Global) -> Result<bool, Memory> {
    let (mut owner, mut thief) = tasks::<Ternary>(alloc)?;
    push(alloc, &mut owner, 1)?;
    push(alloc, &mut owner, 2)?;
    push(alloc, &mut owner, 3)?;
    let stolen = steals(&mut thief, 1);
    let popped = pops(&mut owner, 3);
    let left = owner.close(Vec::from_array(alloc, [thief])?).paths;
    Ok(stolen && popped && leaves(left.items(), 2))
}

#[test]
fn one_of_three_is_left(rt: HostRuntime) {
    assert!(rt; matches!(one_is_left(rt.alloc()), Ok(true)));
}

fn is_empty(alloc: Global) -> Result<bool, Memory> {
    let (mut owner, mut thief) = tasks::<Ternary>(alloc)?;
    Ok(owner.pop().is_none() && matches!(thief.steal(), Stolen::Empty))
}

#[test]
fn a_new_one_is_empty(rt: HostRuntime) {
    assert!(rt; matches!(is_empty(rt.alloc()), Ok(true)));
}

fn both_close(alloc: Global) -> Result<bool, Memory> {
    let (mut owner, mut thief) = tasks::<Ternary>(alloc)?;
    let mut other = thief.split(alloc)?;
    let parts = thief.parts() == 1023 && other.parts() == 1;
    push(alloc, &mut owner, 2)?;
    let stolen = steals(&mut other, 2);
    let left = owner.close(Vec::from_array(alloc, [thief, other])?).paths;
    Ok(parts && stolen && left.items().is_empty())
}

#[test]
fn a_thief_has_company(rt: HostRuntime) {
    assert!(rt; matches!(both_close(rt.alloc()), Ok(true)));
}
