//! Identifiers of a query of which those whose bindings aren't shown are marked as bound.

ghost use Rattle.std.specs.Prelude.{◌≡◌, false, IfOk, filter};
ghost use Rattle.ap_defs.specs.Types.{kind_of, local_of, locals_of};
ghost use Rattle.ap_program.specs.FreeLocals.{is_free_var};
ghost use Rattle.ap_stream.specs.Shown.{is_unshown, shown_local, shown_locals};

use ap_defs::copies::copy_kind;
use ap_defs::goals::{Kind, Local};
use ap_defs::memory::Memory;
use std::alloc::Global;

/// Whether it is a free variable.
fn is_free_var(local: &Local) -> bool
    ensures { result ≡ is_free_var (local_of local.now) }
{
    match &local.kind {
        Kind::Var(_) => !local.bound,
        Kind::Name(_) => false,
    }
}

/// Whether it is a variable that is written `_`, whose binding isn't shown.
fn is_unshown(local: &Local) -> bool
    ensures { result ≡ is_unshown (local_of local.now) }
{
    is_free_var(local) && local.text.text().as_str() == "_"
}

/// Whether there is one whose binding isn't shown.
pub(crate) fn has_unshown(locals: &[Local]) -> bool
    ensures { result ≡ false → shown_locals (locals_of locals.now) ≡ locals_of locals.now }
{
    'looking: for local in locals {
        if is_unshown(local) {
            return true;
        }
    }
    false
}

/// A copy of an identifier, marked as bound or not.
fn marked(local: &Local, bound: bool) -> Result<Local, Memory>
    ensures { IfOk result (λ l. local_of l ≡ record (local_of local.now) { bound = bound }) }
{
    Ok(Local {
        kind: copy_kind(&local.kind)?,
        bound,
        text: local.text.share()?,
    })
}

/// Copies of identifiers, of which those whose bindings aren't shown are marked as bound.
pub(crate) fn shown_locals(alloc: Global, locals: &[Local]) -> Result<Vec<Local>, Memory>
    ensures { IfOk result (λ v. locals_of v.items ≡ shown_locals (locals_of locals.now)) }
{
    let mut shown = Vec::with_capacity(alloc, locals.len())?;
    'copying: for local in locals {
        let bound = local.bound || is_unshown(local);
        shown.push(marked(local, bound)?)?;
    }
    Ok(shown)
}

/// Copies of those identifiers that are free variables.
pub(crate) fn free_vars(alloc: Global, locals: &[Local]) -> Result<Vec<Local>, Memory>
    ensures { IfOk result (λ v. locals_of v.items
        ≡ filter is_free_var (locals_of locals.now)) }
{
    let mut vars = Vec::new(alloc);
    'choosing: for local in locals {
        if is_free_var(local) {
            vars.push(marked(local, local.bound)?)?;
        }
    }
    Ok(vars)
}
