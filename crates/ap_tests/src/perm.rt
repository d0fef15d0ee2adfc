ghost use Rattle.std.specs.Prelude.{None};

use ap_defs::memory::Memory;
use ap_defs::terms::{Name, Swap, Term, Var};
use ap_perm::closures::{Closure, Lent, Opened};
use ap_perm::laws::{bindings_are_carried_out, idempotent_lists};
use ap_perm::look::Look;
use ap_values::perm::Perm;
use std::alloc::Global;

const A: Name = Name { sort: 0, num: 0 };

/// The name of this number.
pub const fn name(num: u64) -> Name {
    Name { sort: 0, num }
}

/// The swapping of these two names.
pub const fn swap(left: u64, right: u64) -> Swap {
    Swap {
        sort: 0,
        left,
        right,
    }
}

/// First 1 and 2 are exchanged, then 0 and 1.
fn cycle(alloc: Global) -> Result<Perm, Memory> {
    Perm::of(alloc, &[swap(0, 1), swap(1, 2)])
}

fn moves(p: &Perm, images: &[u64; 3]) -> bool {
    p.apply(name(0)) == name(images[0])
        && p.apply(name(1)) == name(images[1])
        && p.apply(name(2)) == name(images[2])
        && p.apply(Name { sort: 1, num: 0 }) == Name { sort: 1, num: 0 }
}

/// Whether these are its images, and this is its canonical list.
fn is_perm(alloc: Global, p: &Perm, images: &[u64; 3], swaps: &[Swap]) -> Result<bool, Memory> {
    Ok(p.swaps(alloc)?.as_slice() == swaps && moves(p, images))
}

fn cycles(alloc: Global) -> Result<bool, Memory> {
    let p = cycle(alloc)?.copy(alloc)?;
    let back = p.preimage(name(1)) == name(0);
    Ok(is_perm(alloc, &p, &[1, 2, 0], &[swap(0, 1), swap(1, 2)])? && back)
}

fn inverts(alloc: Global) -> Result<bool, Memory> {
    let p = cycle(alloc)?.inverse(alloc)?;
    is_perm(alloc, &p, &[2, 0, 1], &[swap(0, 2), swap(1, 2)])
}

fn goes_twice(alloc: Global, p: &Perm) -> Result<bool, Memory> {
    let twice = p.then(alloc, p)?;
    is_perm(alloc, &twice, &[2, 0, 1], &[swap(0, 2), swap(1, 2)])
}

fn goes_back(alloc: Global, p: &Perm) -> Result<bool, Memory> {
    let inverse = p.inverse(alloc)?;
    is_perm(alloc, &p.then(alloc, &inverse)?, &[0, 1, 2], &[])
}

fn follows(alloc: Global) -> Result<bool, Memory> {
    let p = cycle(alloc)?;
    Ok(goes_twice(alloc, &p)? && goes_back(alloc, &p)?)
}

fn differ_on(alloc: Global, p: &Perm, q: &Perm, names: &[Name]) -> Result<bool, Memory> {
    p.equal_ones_are_one(q);
    Ok(p.differences(alloc, q)?.as_slice() == names)
}

fn differs(alloc: Global) -> Result<bool, Memory> {
    let identity = Perm::identity(alloc);
    differ_on(
        alloc,
        &identity,
        &cycle(alloc)?,
        &[name(0), name(1), name(2)],
    )
}

fn differs_by_sort(alloc: Global) -> Result<bool, Memory> {
    let other = Swap {
        sort: 1,
        left: 3,
        right: 0,
    };
    let p = Perm::of(alloc, &[other, swap(0, 1)])?;
    let first = Name { sort: 1, num: 0 };
    let last = Name { sort: 1, num: 3 };
    differ_on(alloc, &p, &cycle(alloc)?, &[name(1), name(2), first, last])
}

/// 0 goes to 1 under both, and 1 and 2 don't go to the same.
fn differs_from_a_part(alloc: Global) -> Result<bool, Memory> {
    let part = Perm::of(alloc, &[swap(0, 1)])?;
    differ_on(alloc, &cycle(alloc)?, &part, &[name(1), name(2)])
}

/// Each of the numbers below 6 is moved by two to the next one of its kind, more than lie in the value.
fn moves_six(alloc: Global) -> Result<bool, Memory> {
    let all = [swap(0, 2), swap(2, 4), swap(1, 3), swap(3, 5)];
    let p = Perm::of(alloc, &all)?;
    let back = p.inverse(alloc)?;
    let mut moved = true;
    for i in 0..6 {
        let next = name((i + 2) % 6);
        moved = moved
            && p.apply(name(i)) == next
            && p.preimage(next) == name(i)
            && back.apply(next) == name(i);
    }
    let thrice = p.then(alloc, &p)?.then(alloc, &p)?;
    Ok(moved && thrice.swaps(alloc)?.is_empty() && p.apply(name(6)) == name(6))
}

#[test]
fn permutations_of_many_names(rt: HostRuntime) {
    assert!(rt; matches!(moves_six(rt.alloc()), Ok(true)));
}

#[test]
fn permutations_are_finite_maps(rt: HostRuntime) {
    let alloc = rt.alloc();
    assert!(rt; matches!(cycles(alloc), Ok(true)));
    assert!(rt; matches!(inverts(alloc), Ok(true)));
    assert!(rt; matches!(follows(alloc), Ok(true)));
}

#[test]
fn permutations_differ_on_names(rt: HostRuntime) {
    assert!(rt; matches!(differs(rt.alloc()), Ok(true)));
    assert!(rt; matches!(differs_by_sort(rt.alloc()), Ok(true)));
    assert!(rt; matches!(differs_from_a_part(rt.alloc()), Ok(true)));
}

/// A lookup that binds nothing.
pub struct NothingBound;

impl Look for NothingBound {
    ghost bound = { λ l x. None };

    ghost rank = { λ l x. 0 };

    ghost use Rattle.std.proofs.Common.{rules};

    ghost ranked = { λ l x y t h. Prim.search rules };

    fn look(&self, _v: Var) -> Option<Lent<'_, '_>> {
        None
    }
}

#[test]
fn laws_hold_of_a_lookup(rt: HostRuntime) {
    bindings_are_carried_out(&NothingBound);
    idempotent_lists();
    assert!(rt; NothingBound.look(Var { num: 3 }).is_none());
}

fn opens(alloc: Global, closure: Closure<'_>, a: Name) -> Result<bool, Memory> {
    Ok(matches!(closure.open(alloc)?, Opened::Name(b) if a == b))
}

fn opened(alloc: Global) -> Result<bool, Memory> {
    let term = Term::Name(A);
    let closure = Closure::of(alloc, 1, 4, &term);
    let copy = closure.copy(alloc)?;
    let moved = closure.moved_by(alloc, &[swap(1, 2)])?;
    Ok(opens(alloc, moved, name(2))? && opens(alloc, copy, name(1))?)
}

#[test]
fn closures_are_moved_and_opened(rt: HostRuntime) {
    assert!(rt; matches!(opened(rt.alloc()), Ok(true)));
}
