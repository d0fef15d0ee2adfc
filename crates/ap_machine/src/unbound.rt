//! Variables that are unbound.

ghost use Rattle.std.specs.Prelude.{◌≡◌, ◌++◌, ◌+◌, ◌<◌, ◌^◌, not, IfOk, OnOk, length};
ghost use Rattle.ap_defs.specs.Renaming.{local_vars};
ghost use Rattle.ap_defs.specs.Types.{locals_of};
ghost use Rattle.ap_store.specs.Views.{bindings_of, versions};
ghost use Rattle.ap_theory.specs.Variables.{is_bound};
ghost use Rattle.ap_machine.specs.Brought.{vars_of_brought, vars_of_one};
ghost use Rattle.ap_machine.specs.Looks.{HasLooked};
ghost use Rattle.ap_machine.specs.Unbound.{unbound_vars};
ghost use Rattle.ap_machine.specs.Views.{state_in};

use crate::brought::Brought;
use crate::looks::Look;
use crate::renaming::is_free_var;
use ap_defs::goals::Local;
use ap_defs::memory::Memory;
use ap_defs::terms::Var;
use ap_store::slots::Found;
use ap_store::store::Store;
use std::alloc::Global;

/// Whether a variable stands for itself.
fn is_unbound(store: &Store<'_>, x: Var) -> bool
    ensures { result ≡ not (is_bound x (bindings_of store.now)) }
{
    match store.found(x) {
        Found::Nothing => true,
        Found::Plain(_) => false,
        Found::Ground(_) => false,
        Found::Moved(_) => false,
    }
}

/// Those of the variables among identifiers that are not marked as bound, the first number being
/// `base`, that stand for themselves, after others.
fn add_unbound_locals(
    all: &mut Vec<Var>,
    store: &Store<'_>,
    base: u64,
    locals: &[Local],
) -> Result<(), Memory>
    requires { base + length locals.now < 2 ^ 64 }
    ensures { OnOk result (all.new.items ≡ all.old.items
        ++ unbound_vars (state_in store.now) (local_vars base (locals_of locals.now))) }
{
    'choosing: for i in 0..locals.len() {
        if is_free_var(&locals[i]) {
            let x = Var {
                num: base + i as u64,
            };
            if is_unbound(store, x) {
                all.push(x)?;
            }
        }
    }
    Ok(())
}

/// Those of the variables of a range that stand for themselves, after others. `2 ^ 32` identifiers and
/// more are want of memory, as they are to the store.
fn add_unbound(all: &mut Vec<Var>, store: &Store<'_>, range: Brought<'_>) -> Result<(), Memory>
    ensures { OnOk result (all.new.items ≡ all.old.items
        ++ unbound_vars (state_in store.now) (vars_of_one range.entry)) }
{
    match range {
        Brought::Exists(num) => {
            let x = Var { num: num as u64 };
            if is_unbound(store, x) {
                all.push(x)?;
            }
            Ok(())
        }
        Brought::Clause(base, locals) => {
            let locals = locals.items();
            if locals.len() > u32::MAX as usize {
                return Err(Memory);
            }
            add_unbound_locals(all, store, base as u64, locals)
        }
    }
}

/// Those of variables that stand for themselves, after others.
fn add_unbound_vars(all: &mut Vec<Var>, store: &Store<'_>, vars: &[Var]) -> Result<(), Memory>
    ensures { OnOk result (all.new.items ≡ all.old.items
        ++ unbound_vars (state_in store.now) vars.now) }
{
    'choosing: for x in vars {
        if is_unbound(store, *x) {
            all.push(*x)?;
        }
    }
    Ok(())
}

/// Those of the variables of ranges that stand for themselves, after others.
#[tactic(auto, using(crate::proofs::BroughtLemmas::unbound_more))]
fn add_unbound_of(
    all: &mut Vec<Var>,
    store: &Store<'_>,
    brought: &[Brought<'_>],
) -> Result<(), Memory>
    ensures { OnOk result (all.new.items ≡ all.old.items
        ++ unbound_vars (state_in store.now) (vars_of_brought brought.now)) }
{
    'choosing: for range in brought {
        add_unbound(all, store, *range)?;
    }
    Ok(())
}

/// Those of the variables that were brought that stand for themselves. What the others stand for is not
/// looked at, and what was bound when some ranges were looked at not again.
pub fn unbound_of(
    alloc: Global,
    store: &Store<'_>,
    look: &Look,
    brought: &[Brought<'_>],
) -> Result<Vec<Var>, Memory>
    requires { HasLooked (versions store.now) brought.now look.now }
    ensures { IfOk result (λ v. v.items
        ≡ unbound_vars (state_in store.now) (vars_of_brought brought.now)) }
{
    let mut all = Vec::new(alloc);
    add_unbound_vars(&mut all, store, &look.unbound)?;
    add_unbound_of(&mut all, store, &brought[look.looked..])?;
    Ok(all)
}
