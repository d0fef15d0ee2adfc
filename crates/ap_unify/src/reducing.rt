//! Freshness problems, reduced under the bindings of a store.

ghost use Rattle.std.specs.Prelude.{◌≡◌, [], IfOk};
ghost use Rattle.ap_defs.specs.Freshness.{reduce};
ghost use Rattle.ap_defs.specs.Resolution.{fresh_for_each};
ghost use Rattle.ap_defs.specs.Substitution.{under};
ghost use Rattle.ap_defs.specs.Terms.{susp};
ghost use Rattle.ap_defs.specs.Unification.{reduce_all};
ghost use Rattle.ap_fresh.specs.Reduction.{added};
ghost use Rattle.ap_store.specs.Views.{bindings_of, meaning_in};
ghost use Rattle.ap_theory.specs.StatementsOnConditions.{collected};
ghost use Rattle.ap_unify.specs.Finishing.{some_if};

use ap_defs::memory::Memory;
use ap_defs::terms::{Cond, Name, Var};
use ap_fresh::error::FreshError;
use ap_fresh::reduction::{add_reduced, add_reduced_var};
use ap_perm::closures::Closure;
use ap_store::store::Store;

/// Puts the conditions under which a name is fresh for what a closure stands for behind others, unless it
/// is free there.
#[tactic(auto, using(crate::proofs::WellLemmas::looked))]
pub fn reduce_closure<'a>(
    store: &Store<'a>,
    a: Name,
    c: &Closure<'_>,
    conds: &mut Vec<Cond>,
) -> Result<bool, Memory>
    ensures { IfOk result (λ fine. added (reduce a (meaning_in store.now c.now)) conds.old.items
        ≡ collected (some_if fine conds.new.items)) }
{
    match add_reduced(a, c, store, conds) {
        Ok(()) => Ok(true),
        Err(FreshError::Refuted) => Ok(false),
        Err(FreshError::Memory) => Err(Memory),
    }
}

/// Puts the conditions under which a name is fresh for what a variable stands for behind others, unless it
/// is free there.
#[tactic(auto, using(crate::proofs::WellLemmas::looked))]
pub fn reduce_var<'a>(
    store: &Store<'a>,
    a: Name,
    x: Var,
    conds: &mut Vec<Cond>,
) -> Result<bool, Memory>
    ensures { IfOk result (λ fine. added (reduce a (under (bindings_of store.now) (susp [] x)))
        conds.old.items ≡ collected (some_if fine conds.new.items)) }
{
    match add_reduced_var(a, x, store, conds) {
        Ok(()) => Ok(true),
        Err(FreshError::Refuted) => Ok(false),
        Err(FreshError::Memory) => Err(Memory),
    }
}

/// Puts the conditions under which a name is fresh for what each of the variables stands for behind
/// others, unless it is free in one.
pub fn reduce_vars<'a>(
    store: &Store<'a>,
    a: Name,
    vars: &[Var],
    conds: &mut Vec<Cond>,
) -> Result<bool, Memory>
    ensures { IfOk result (λ fine. added (reduce_all (bindings_of store.now)
        (fresh_for_each a vars.now)) conds.old.items ≡ collected (some_if fine conds.new.items)) }
{
    'reducing: for i in (0..vars.len()).rev() {
        if !reduce_var(store, a, vars[i], conds)? {
            return Ok(false);
        }
    }
    Ok(true)
}
