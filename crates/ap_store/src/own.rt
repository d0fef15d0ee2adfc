//! The variables that stand in terms themselves, whatever they are bound to.

ghost use Rattle.std.specs.Prelude.{◌≡◌, ◌||◌, IfOk, IfSome, OnOk};
ghost use Rattle.ap_defs.specs.Substitution.{occurs};
ghost use Rattle.ap_defs.specs.Unification.{has_var};
ghost use Rattle.ap_defs.specs.declared.terms.Var.{Var as variable};
ghost use Rattle.ap_store.specs.Founds.{bare_term};
ghost use Rattle.ap_store.specs.Own.{occurs_own};

use crate::bare::Bare;
use crate::occurrences::{Step, step_of};
use ap_defs::memory::Memory;
use ap_defs::terms::Var;
use std::alloc::Global;

/// A part is taken apart: its variable is put behind others, or the parts in it behind those that wait.
fn take_apart<'a>(
    b: Bare<'a>,
    vars: &mut Vec<Var>,
    waiting: &mut Vec<Bare<'a>>,
) -> Result<(), Memory>
    ensures { OnOk result ((y : variable) →
        (has_var y vars.new.items || occurs_own y waiting.new.items)
        ≡ (has_var y vars.old.items
        || (occurs y (bare_term b.entry) || occurs_own y waiting.old.items))) }
{
    match step_of(b) {
        Step::Leaf => Ok(()),
        Step::Inner(inner) => {
            waiting.push(inner)?;
            Ok(())
        }
        Step::Both(left, right) => {
            waiting.push(right)?;
            waiting.push(left)?;
            Ok(())
        }
        Step::Variable(x) => {
            vars.push(x)?;
            Ok(())
        }
    }
}

/// The variables that stand in a term itself, each as often as it does, or none where the term has more than so many
/// parts.
pub fn own_vars(alloc: Global, first: Bare<'_>, most: usize) -> Result<Option<Vec<Var>>, Memory>
    ensures { IfOk result (λ o. IfSome o (λ vars. (y : variable) →
        has_var y vars.items ≡ occurs y (bare_term first.entry))) }
{
    let mut vars = Vec::new(alloc);
    let mut waiting = Vec::new(alloc);
    waiting.push(first)?;
    'gathering: for _ in 0..most {
        let Some(here) = waiting.pop() else {
            return Ok(Some(vars));
        };
        take_apart(here, &mut vars, &mut waiting)?;
    }
    Ok(None)
}

/// Whether a variable is among others.
pub fn is_among(x: Var, vars: &[Var]) -> bool
    ensures { result ≡ has_var x vars.now }
{
    let mut rest = vars;
    'seeking: while let Some((y, others)) = rest.split_first() {
        if x.num == y.num {
            return true;
        }
        rest = others;
    }
    false
}
