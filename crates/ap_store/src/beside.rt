//! Occurrences of variables that no binding mentions: they can only stand in a term itself.

ghost use Rattle.std.specs.Prelude.{◌≡◌, false, true, IfOk};
ghost use Rattle.ap_defs.specs.Substitution.{under};
ghost use Rattle.ap_defs.specs.declared.terms.Var.{Var as variable};
ghost use Rattle.ap_store.specs.Founds.{bare_term, does_occur, occurs_in};
ghost use Rattle.ap_store.specs.Likes.{HaveSameVars};
ghost use Rattle.ap_store.specs.Marks.{HasNoVars};
ghost use Rattle.ap_store.specs.Views.{bindings_of};

use crate::bare::Bare;
use crate::mentions::MANY;
use crate::occurrences::{Occurrence, occurs_below};
use crate::own::{is_among, own_vars};
use crate::store::Store;
use ap_defs::memory::Memory;
use ap_defs::terms::Var;
use std::alloc::Global;

/// Whether it is known that a variable does not occur in what a part stands for, since no binding mentions it, and it
/// does not stand in the part itself.
#[cold]
#[inline(never)]
fn is_beside<'a>(alloc: Global, store: &Store<'a>, x: Var, first: Bare<'a>) -> Result<bool, Memory>
    ensures { IfOk result (λ b. b ≡ true → occurs_in store.now x first.entry ≡ false) }
{
    if !store.is_unmentioned(x) {
        return Ok(false);
    }
    match own_vars(alloc, first, MANY)? {
        None => Ok(false),
        Some(vars) => Ok(!is_among(x, &vars)),
    }
}

/// Whether a variable occurs in what a part stands for that has the same variables as another one. While mentions are
/// kept, a variable that no binding mentions can only stand in that itself.
#[inline(always)]
pub fn occurs_open<'a>(
    alloc: Global,
    store: &Store<'a>,
    x: Var,
    first: Bare<'a>,
    b: Bare<'a>,
) -> Result<Occurrence, Memory>
    requires same { HaveSameVars (under (bindings_of store.now) (bare_term first))
        (under (bindings_of store.now) (bare_term b)) }
    ensures found { IfOk result (λ o. does_occur o ≡ occurs_in store.now x b.entry) }
    ensures no_vars { IfOk result (λ o. o ≡ Occurrence.Ground →
        HasNoVars (under (bindings_of store.now) (bare_term b.entry))) }
    ensures like { IfOk result (λ o. (w : variable) → (o ≡ Occurrence.Like w → ⊥)) }
{
    if store.keeps_mentions() {
        let is_apart = is_beside(alloc, store, x, first)?;
        if is_apart {
            return Ok(Occurrence::Apart);
        }
    }
    occurs_below(alloc, store, x, b)
}
