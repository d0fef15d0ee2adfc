//! Words that stand where names belong: binders and places of swappings.

ghost use Rattle.std.specs.Prelude.{◌≡◌, IfOk, OnOk};
ghost use Rattle.ap_kinds.specs.Systems.{system_of};
ghost use Rattle.ap_kinds.specs.Gathering.{number_of_id, is_of_class, no_place, name_place, one_sort};

use crate::kinds::IdentKind;
use crate::systems::{System, add_name, equate, is_name_at, is_var_at, new_hole, refuse};
use ap_defs::memory::Memory;
use ap_defs::terms::{Id, Shape};

/// The number of an identifier.
fn number_of(ident: Id) -> u64
    ensures { result ≡ number_of_id ident }
{
    match ident {
        Id::Name(a) => a.num,
        Id::Var(x) => x.num,
    }
}

/// Whether an identifier is a name or a variable as it is written.
fn is_of_class(idents: &[IdentKind], ident: Id) -> bool
    ensures { result ≡ is_of_class idents.now ident }
{
    match ident {
        Id::Name(a) => is_name_at(idents, a.num),
        Id::Var(x) => is_var_at(idents, x.num),
    }
}

/// A hole that must be a name type, in a system that nothing solves.
fn no_place(system: &mut System) -> Result<u64, Memory>
    ensures hole { IfOk result (λ x. x ≡ (no_place (system_of system.old)).hole) }
    ensures system { OnOk result (system_of system.new
        ≡ (no_place (system_of system.old)).system) }
{
    let hole = system.next;
    refuse(system)?;
    new_hole(system)?;
    add_name(system, hole)?;
    Ok(hole)
}

/// The hole of an identifier that stands where a name belongs.
pub(crate) fn name_place(
    idents: &[IdentKind],
    ident: Id,
    system: &mut System,
) -> Result<u64, Memory>
    ensures hole { IfOk result (λ x. x
        ≡ (name_place idents.now ident (system_of system.old)).hole) }
    ensures system { OnOk result (system_of system.new
        ≡ (name_place idents.now ident (system_of system.old)).system) }
{
    if is_of_class(idents, ident) {
        let hole = number_of(ident);
        add_name(system, hole)?;
        Ok(hole)
    } else {
        no_place(system)
    }
}

/// Both identifiers stand for names of one sort.
pub(crate) fn one_sort(
    idents: &[IdentKind],
    i: Id,
    j: Id,
    system: &mut System,
) -> Result<(), Memory>
    ensures { OnOk result (system_of system.new
        ≡ one_sort idents.now i j (system_of system.old)) }
{
    let left = name_place(idents, i, system)?;
    let right = name_place(idents, j, system)?;
    equate(system, Shape::Hole(left), Shape::Hole(right))
}
