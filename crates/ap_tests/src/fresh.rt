use crate::perm::{NothingBound, name, swap};
use ap_defs::lists::Swaps;
use ap_defs::memory::Memory;
use ap_defs::terms::{Cond, Name, Term, Var};
use ap_fresh::error::FreshError;
use ap_fresh::reduction::reduce;
use ap_perm::closures::Closure;
use std::alloc::Global;

const C: Name = Name { sort: 0, num: 2 };

const Y: Var = Var { num: 3 };

/// The names of the conditions on Y to which freshness for a closure reduces, or none where it is refuted.
fn reduced(alloc: Global, a: Name, closure: &Closure<'_>) -> Result<Option<Vec<Cond>>, Memory> {
    match reduce(alloc, a, closure, &NothingBound) {
        Ok(conds) => Ok(Some(conds)),
        Err(FreshError::Refuted) => Ok(None),
        Err(FreshError::Memory) => Err(Memory),
    }
}

/// What stands for (0 1)(1 2) Y reduces to a condition on Y.
fn reduces(alloc: Global) -> Result<bool, Memory> {
    let term = Term::Susp(Swaps::none(alloc)?, Y);
    let closure = Closure::of(alloc, 0, 4, &term).moved_by(alloc, &[swap(0, 1), swap(1, 2)])?;
    let conds = reduced(alloc, name(0), &closure)?;
    let wanted = [Cond { name: C, var: Y }];
    Ok(matches!(&conds, Some(conds) if conds.as_slice() == wanted.as_slice()))
}

/// The name 2 becomes the name 0.
fn is_refuted(alloc: Global) -> Result<bool, Memory> {
    let term = Term::Name(C);
    let closure = Closure::of(alloc, 0, 4, &term).moved_by(alloc, &[swap(0, 1), swap(1, 2)])?;
    Ok(reduced(alloc, name(0), &closure)?.is_none())
}

#[test]
fn freshness_is_reduced(rt: HostRuntime) {
    assert!(rt; matches!(reduces(rt.alloc()), Ok(true)));
    assert!(rt; matches!(is_refuted(rt.alloc()), Ok(true)));
}
