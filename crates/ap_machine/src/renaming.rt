//! Variables of clauses whose numbers are raised.

ghost use Rattle.std.specs.Prelude.{◌≡◌, ℕ, ◌+◌, ◌<◌, ◌^◌, if◌then◌else◌, List as list, ◌∷◌, ◌++◌, IfOk, OnOk, length};
ghost use Rattle.ap_defs.specs.Renaming.{local_vars, var_unless};
ghost use Rattle.ap_defs.specs.Types.{kind_of, locals_of};
ghost use Rattle.ap_defs.specs.declared.terms.Var.{Var as variable};

use ap_defs::goals::{Kind, Local};
use ap_defs::memory::Memory;
use ap_defs::terms::Var;
use std::alloc::Global;

/// Adds the variables among identifiers that are not marked as bound after others, the first number
/// being `base`.
pub fn add_vars_of_locals(vars: &mut Vec<Var>, base: u64, locals: &[Local]) -> Result<(), Memory>
    requires { base + length locals.now < 2 ^ 64 }
    ensures { OnOk result (vars.new.items
        ≡ vars.old.items ++ local_vars base (locals_of locals.now)) }
{
    'choosing: for i in 0..locals.len() {
        if is_free_var(&locals[i]) {
            vars.push(Var {
                num: base + i as u64,
            })?;
        }
    }
    Ok(())
}

/// The variables among identifiers that are not marked as bound, the first number being `base`.
pub fn vars_of_locals(alloc: Global, base: u64, locals: &[Local]) -> Result<Vec<Var>, Memory>
    requires { base + length locals.now < 2 ^ 64 }
    ensures { IfOk result (λ v. v.items ≡ local_vars base (locals_of locals.now)) }
{
    let mut all = Vec::with_capacity(alloc, locals.len())?;
    add_vars_of_locals(&mut all, base, locals)?;
    Ok(all)
}

/// Whether an identifier is a variable that isn't marked as bound.
pub(crate) fn is_free_var(local: &Local) -> bool
    ensures { (n : ℕ) (xs : list variable) →
        var_unless local.now.bound (kind_of local.now.kind) n xs
        ≡ (if result then (record { num = n } ∷ xs) else xs) }
{
    match local.kind {
        Kind::Name(_) => false,
        Kind::Var(_) => !local.bound,
    }
}
