//! The step for two abstractions on whose bodies swappings wait: where their binders differ, these are exchanged.

ghost use Rattle.std.specs.Prelude.{◌≡◌, ◌∷◌, ◌++◌, [], ℕ, List, None, IfOk, OnOk};
ghost use Rattle.ap_defs.specs.Permutations.{act_name, inverse, swap_of};
ghost use Rattle.ap_defs.specs.Substitution.{Binding, ◌#◌};
ghost use Rattle.ap_equations.specs.Plain.{plain_term};
ghost use Rattle.ap_rules.specs.Runs.{stage_under};
ghost use Rattle.ap_rules.specs.Work.{equations_left, problems_met, progress_if};
ghost use Rattle.ap_unify.specs.Moved.{binders_equation, moved_equation, waiting};
ghost use Rattle.ap_unify.specs.Parts.{AreBelowBoth, AreMarksTrue, AreWayMarksTrue, IsEquationBelow, IsWayBelow, LeadsTo, progress_to, stage_with};

use crate::fronts::{Front, Way};
use crate::sides::{Sides, origin};
use ap_defs::memory::Memory;
use ap_defs::terms::{Name, Swap};
use ap_equations::plain::{Plain, PlainPair};
use ap_perm::swappings::is_same;
use ap_rules::pairs::{FreshFor, Work};
use std::alloc::Global;

/// The binders are exchanged on the right from now on, and the left one is to be fresh for the right body. It is kept
/// as the name of which the swappings that waited there make it, which is to be fresh for the body without them.
#[tactic(auto, using(crate::proofs::SideLemmas::added_last))]
fn exchange<'a>(
    alloc: Global,
    work: &mut Work<'a>,
    sides: &mut Sides,
    a: Name,
    b: Name,
    body: Plain<'a>,
) -> Result<(), Memory>
    ensures left { waiting sides.new.left ≡ waiting sides.old.left }
    ensures right { OnOk result (waiting sides.new.right
        ≡ swap_of a b ∷ waiting sides.old.right) }
    ensures problems { OnOk result (problems_met work.new ≡ problems_met work.old
        ++ (act_name (inverse (waiting sides.old.right)) a # plain_term body.entry) ∷ []) }
    ensures equations { work.new.equations.items ≡ work.old.equations.items }
    ensures taken { work.new.taken.items ≡ work.old.taken.items }
{
    let name = origin(&sides.right, a);
    work.problems
        .push(FreshFor::OfTerm(name, body.closure(alloc)))?;
    sides.right.added.push(Swap {
        sort: a.sort,
        left: a.num,
        right: b.num,
    })?;
    Ok(())
}

/// The step for two abstractions with these binders, after which their bodies come first. It answers false where
/// there is no solution.
fn by_binders<'a>(
    alloc: Global,
    work: &mut Work<'a>,
    sides: &mut Sides,
    a: Name,
    b: Name,
    bodies: PlainPair<'a>,
) -> Result<bool, Memory>
    ensures stage { IfOk result (λ goes_on. (s : List Binding) → LeadsTo
        (stage_under s (binders_equation sides.old a b bodies.entry ∷ equations_left work.old)
        (problems_met work.old))
        (progress_if goes_on (stage_with (moved_equation sides.new) s bodies.entry work.new))) }
    ensures below { IfOk result (λ goes_on. (n : ℕ) →
        IsEquationBelow n (binders_equation sides.old a b bodies.entry) →
        AreBelowBoth (moved_equation sides.new) n bodies.entry) }
    ensures equations { work.new.equations.items ≡ work.old.equations.items }
    ensures taken { work.new.taken.items ≡ work.old.taken.items }
{
    if is_same(&a, &b) {
        Ok(true)
    } else if a.sort == b.sort {
        exchange(alloc, work, sides, a, b, bodies.right)?;
        Ok(true)
    } else {
        Ok(false)
    }
}

/// The step for two abstractions, and what comes after it in front. Nothing waits there.
pub fn next_binders<'a>(
    alloc: Global,
    work: &mut Work<'a>,
    sides: &mut Sides,
    front: &mut Front<'a>,
    a: Name,
    b: Name,
    bodies: PlainPair<'a>,
) -> Result<Way, Memory>
    requires none { front.old.waiting ≡ None }
    ensures stage { IfOk result (λ way. (s : List Binding) → LeadsTo
        (stage_under s (binders_equation sides.old a b bodies.entry ∷ equations_left work.old)
        (problems_met work.old))
        (progress_to (moved_equation sides.new) way s front.new work.new)) }
    ensures below { IfOk result (λ way. (n : ℕ) →
        IsEquationBelow n (binders_equation sides.old a b bodies.entry) →
        IsWayBelow (moved_equation sides.new) n way front.new) }
    ensures marks { IfOk result (λ way. (s : List Binding) → AreMarksTrue s bodies.entry →
        AreWayMarksTrue s way front.new) }
    ensures equations { work.new.equations.items ≡ work.old.equations.items }
    ensures taken { work.new.taken.items ≡ work.old.taken.items }
{
    if !by_binders(alloc, work, sides, a, b, bodies)? {
        return Ok(Way::End(false));
    }
    front.ahead.next = bodies;
    Ok(Way::On)
}
