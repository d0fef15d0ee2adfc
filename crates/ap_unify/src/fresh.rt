//! Names that are made fresh.

ghost use Rattle.std.specs.Prelude.{◌≡◌, ◌<◌, false, IfOk, OnErr};
ghost use Rattle.ap_defs.specs.Freshness.{reduce};
ghost use Rattle.ap_defs.specs.Renaming.{IsBelow};
ghost use Rattle.ap_defs.specs.Resolution.{fresh_for_each};
ghost use Rattle.ap_defs.specs.Substitution.{under};
ghost use Rattle.ap_defs.specs.Unification.{reduce_all};
ghost use Rattle.ap_perm.specs.Closures.{closure_term};
ghost use Rattle.ap_store.specs.Triples.{IsPrefixOf};
ghost use Rattle.ap_store.specs.Views.{IsUnchanged, bindings_of, kinds, meaning_in, present, versions};
ghost use Rattle.ap_unify.specs.Unified.{AreVarsBelow, IsReduced};

use crate::reducing::{reduce_closure, reduce_vars};
use ap_defs::memory::Memory;
use ap_defs::terms::{Name, Var};
use ap_perm::closures::Closure;
use ap_perm::sets::make_set;
use ap_store::store::Store;
use std::alloc::Global;

/// Makes a name fresh for what a closure stands for, by the least conditions (Urban, Pitts and
/// Gabbay, "Nominal Unification").
///
/// It answers true where there are such, and then the store has them beside its own ones. It answers
/// false exactly where the name is free in the term under the bindings. Then, and after want of
/// memory, the store is as before.
pub fn make_fresh<'a>(
    alloc: Global,
    store: &mut Store<'a>,
    a: Name,
    t: &Closure<'_>,
) -> Result<bool, Memory>
    requires name { a.num < (present store.old).next }
    requires term { IsBelow (present store.old).next (closure_term t.now) }
    ensures defined { IfOk result (λ fresh. IsReduced (reduce a (meaning_in store.old t.now))
        (present store.old) fresh (present store.new)) }
    ensures past { IsPrefixOf (versions store.old) (versions store.new) }
    ensures kinds { kinds store.new ≡ kinds store.old }
    ensures failed { IfOk result (λ fresh. fresh ≡ false → IsUnchanged store.old store.new) }
    ensures unchanged { OnErr result (IsUnchanged store.old store.new) }
{
    let mut conds = Vec::new(alloc);
    if !reduce_closure(store, a, t, &mut conds)? {
        return Ok(false);
    }
    make_set(&mut conds);
    store.add(&conds)?;
    Ok(true)
}

/// Makes a name fresh for what each of the variables stands for, by the least conditions.
///
/// It answers true where there are such, and then the store has them beside its own ones. It answers
/// false exactly where the name is free in what one of the variables stands for. Then, and after want
/// of memory, the store is as before.
pub fn make_fresh_for_each<'a>(
    alloc: Global,
    store: &mut Store<'a>,
    a: Name,
    vars: &[Var],
) -> Result<bool, Memory>
    requires name { a.num < (present store.old).next }
    requires vars { AreVarsBelow (present store.old).next vars.now }
    ensures defined { IfOk result (λ fresh. IsReduced (reduce_all (bindings_of store.old)
        (fresh_for_each a vars.now)) (present store.old) fresh (present store.new)) }
    ensures past { IsPrefixOf (versions store.old) (versions store.new) }
    ensures kinds { kinds store.new ≡ kinds store.old }
    ensures failed { IfOk result (λ fresh. fresh ≡ false → IsUnchanged store.old store.new) }
    ensures unchanged { OnErr result (IsUnchanged store.old store.new) }
{
    let mut conds = Vec::new(alloc);
    if !reduce_vars(store, a, vars, &mut conds)? {
        return Ok(false);
    }
    make_set(&mut conds);
    store.add(&conds)?;
    Ok(true)
}
