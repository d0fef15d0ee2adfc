//! The type equations of goals.

ghost use Rattle.std.specs.Prelude.{◌≡◌, map, OnOk, MatchOption, Some, None, if◌then◌else◌};
ghost use Rattle.ap_defs.specs.RawTerms.{raw_of};
ghost use Rattle.ap_defs.specs.Types.{type_of, constructor_of, signature_of};
ghost use Rattle.ap_defs.specs.Goals.{goal_over};
ghost use Rattle.ap_kinds.specs.Systems.{system_of, system_refused, is_name_at, is_var_at};
ghost use Rattle.ap_kinds.specs.Gathering.{gather_terms, gather_atom, gather_equal, gather_fresh, gather_goal};
ghost use Rattle.ap_program.specs.Typed.{predicate_at};

use crate::kinds::IdentKind;
use crate::systems::{System, add_name, is_name_at, is_var_at, new_hole, refuse};
use crate::terms::gather_term;
use crate::wants::Wanted;
use ap_defs::goals::{Constructor, Goal, Signature};
use ap_defs::lists::List;
use ap_defs::memory::Memory;
use ap_defs::terms::{Raw, Shape, Ty};
use std::alloc::Global;

/// The equations of terms, of which each has its type.
#[tactic(auto, using(crate::proofs::Walks::terms_next, crate::proofs::Walks::terms_short, crate::proofs::Walks::terms_long, crate::proofs::Walks::terms_done))]
fn gather_terms<'a>(
    alloc: Global,
    constructors: &'a [Constructor],
    idents: &[IdentKind],
    terms: &[Raw],
    types: &'a [Ty],
    system: &mut System,
) -> Result<(), Memory>
    ensures { OnOk result (system_of system.new
        ≡ gather_terms (map constructor_of constructors.now) idents.now (map raw_of terms.now)
        (map type_of types.now) (system_of system.old)) }
{
    for (i, t) in terms.iter().enumerate() {
        if i >= types.len() {
            return refuse(system);
        }
        gather_term(
            alloc,
            constructors,
            idents,
            t,
            Wanted::Type(&types[i]),
            system,
        )?;
    }
    if terms.len() < types.len() {
        return refuse(system);
    }
    Ok(())
}

/// The types of the arguments of a declared predicate.
#[tactic(auto, using(crate::proofs::Lookups::predicate_found, crate::proofs::Lookups::predicate_past))]
fn types_at(predicates: &[List<Ty>], pred: u32) -> Option<&[Ty]>
    ensures { MatchOption result (predicate_at (map (map type_of) predicates.now) pred ≡ None) (λ ts.
        predicate_at (map (map type_of) predicates.now) pred ≡ Some (map type_of ts.now)) }
{
    let place = pred as usize;
    if place >= predicates.len() {
        return None;
    }
    Some(predicates[place].items())
}

/// The equations of an atom, or of the head of a clause.
pub(crate) fn gather_atom(
    alloc: Global,
    sig: &Signature,
    idents: &[IdentKind],
    pred: u32,
    terms: &[Raw],
    system: &mut System,
) -> Result<(), Memory>
    ensures { OnOk result (system_of system.new
        ≡ gather_atom (signature_of sig.now) idents.now pred (map raw_of terms.now)
        (system_of system.old)) }
{
    match types_at(sig.predicates.items(), pred) {
        None => refuse(system),
        Some(types) => {
            gather_terms(
                alloc,
                sig.constructors.items(),
                idents,
                terms,
                types,
                system,
            )
        }
    }
}

/// The equations of `t = u`.
fn gather_equal(
    alloc: Global,
    constructors: &[Constructor],
    idents: &[IdentKind],
    t: &Raw,
    u: &Raw,
    system: &mut System,
) -> Result<(), Memory>
    ensures { OnOk result (system_of system.new
        ≡ gather_equal (map constructor_of constructors.now) idents.now (raw_of t.now)
        (raw_of u.now) (system_of system.old)) }
{
    let hole = new_hole(system)?;
    let want = Wanted::Whole(Shape::Hole(hole));
    gather_term(alloc, constructors, idents, t, want, system)?;
    let want = Wanted::Whole(Shape::Hole(hole));
    gather_term(alloc, constructors, idents, u, want, system)
}

/// The equations of `t # u`.
fn gather_fresh(
    alloc: Global,
    constructors: &[Constructor],
    idents: &[IdentKind],
    t: &Raw,
    u: &Raw,
    system: &mut System,
) -> Result<(), Memory>
    ensures { OnOk result (system_of system.new
        ≡ gather_fresh (map constructor_of constructors.now) idents.now (raw_of t.now)
        (raw_of u.now) (system_of system.old)) }
{
    let left = new_hole(system)?;
    let right = new_hole(system)?;
    add_name(system, left)?;
    let want = Wanted::Whole(Shape::Hole(left));
    gather_term(alloc, constructors, idents, t, want, system)?;
    let want = Wanted::Whole(Shape::Hole(right));
    gather_term(alloc, constructors, idents, u, want, system)
}

/// An equation that nothing solves, unless something holds.
fn refuse_unless(holds: bool, system: &mut System) -> Result<(), Memory>
    ensures { OnOk result (system_of system.new
        ≡ (if holds then system_of system.old else system_refused (system_of system.old))) }
{
    if holds { Ok(()) } else { refuse(system) }
}

/// The equations of a goal.
///
/// It goes on along what is right of `,` and `;` and inside `exists` and `new`, and calls itself on what
/// is left of them alone.
pub(crate) fn gather_goal(
    alloc: Global,
    sig: &Signature,
    idents: &[IdentKind],
    goal: &Goal<Raw>,
    system: &mut System,
) -> Result<(), Memory>
    ensures { OnOk result (system_of system.new
        ≡ gather_goal (signature_of sig.now) idents.now (goal_over raw_of goal.now)
        (system_of system.old)) }
{
    let constructors = sig.constructors.items();
    let mut rest = goal;
    loop {
        match rest {
            Goal::True => return Ok(()),
            Goal::Atom(pred, terms) => {
                return gather_atom(alloc, sig, idents, *pred, terms.items(), system);
            }
            Goal::Equal(t, u) => return gather_equal(alloc, constructors, idents, t, u, system),
            Goal::Fresh(t, u) => return gather_fresh(alloc, constructors, idents, t, u, system),
            Goal::Both(left, right) => {
                gather_goal(alloc, sig, idents, left, system)?;
                rest = right;
            }
            Goal::Either(left, right) => {
                gather_goal(alloc, sig, idents, left, system)?;
                rest = right;
            }
            Goal::Exists(x, inner) => {
                refuse_unless(is_var_at(idents, x.num), system)?;
                rest = inner;
            }
            Goal::New(a, inner) => {
                refuse_unless(is_name_at(idents, a.num), system)?;
                rest = inner;
            }
        }
    }
}
