//! How a run goes on from an equation of two parts.

ghost use Rattle.std.specs.Prelude.{◌≡◌, ◌++◌, ℕ, List, IfOk, OnOk};
ghost use Rattle.ap_defs.specs.Substitution.{Binding};
ghost use Rattle.ap_defs.specs.Unification.{next};
ghost use Rattle.ap_store.specs.Triples.{IsPrefixOf};
ghost use Rattle.ap_store.specs.Views.{bindings_of, kinds, present, versions};
ghost use Rattle.ap_unify.specs.Parts.{AreBelowBoth, AreMarksTrue, AreWaitingMarksTrue, AreWayMarksTrue, IsWaitingBelow, IsWayBelow, LeadsTo, parts_equation, progress_to, stage_of, stage_with, waiting_equations};
ghost use Rattle.ap_unify.specs.Settled.{AreSettled};
ghost use Rattle.ap_rules.specs.Runs.{stage_under};
ghost use Rattle.ap_rules.specs.Work.{ArePairsBelow, GoOn, equations_left, problems_met, progress_if, work_stage};
ghost use Rattle.ap_rules.specs.declared.pairs.Work.{Work};

use crate::fronts::{Front, Way, after_done};
use crate::moved_runs::along_closures;
use crate::parts::{Turn, step_parts};
use crate::settled::{Settled, is_settled};
use crate::solved::Solved;
use ap_defs::memory::Memory;
use ap_equations::plain::PlainPair;
use ap_equations::work::put_equation;
use ap_rules::pairs::{ClosurePair, Work};
use ap_store::store::Store;
use std::alloc::Global;

/// Puts an equation that waits in front of those that are left.
fn put_waiting<'a>(
    alloc: Global,
    work: &mut Work<'a>,
    waiting: Option<PlainPair<'a>>,
) -> Result<(), Memory>
    ensures equations { OnOk result (equations_left work.new
        ≡ waiting_equations parts_equation waiting.entry ++ equations_left work.old) }
    ensures below { OnOk result ((n : ℕ) → IsWaitingBelow parts_equation n waiting.entry →
        ArePairsBelow n work.old.equations.items → ArePairsBelow n work.new.equations.items) }
    ensures problems { work.new.problems.items ≡ work.old.problems.items }
    ensures taken { work.new.taken.items ≡ work.old.taken.items }
{
    match waiting {
        None => Ok(()),
        Some(pair) => {
            let left = pair.left.closure(alloc);
            let right = pair.right.closure(alloc);
            put_equation(work, ClosurePair { left, right })
        }
    }
}

/// One or several steps for two parts, by closures: what they stand for is followed no further than few swappings
/// wait. It answers false where there is no solution.
fn by_closures<'a>(
    alloc: Global,
    store: &mut Store<'a>,
    work: &mut Work<'a>,
    pair: PlainPair<'a>,
) -> Result<bool, Memory>
    requires below { AreBelowBoth parts_equation (present store.old).next pair }
    ensures stage { IfOk result (λ goes_on. LeadsTo
        (stage_with parts_equation (bindings_of store.old) pair.entry work.old) (progress_if goes_on (work_stage (bindings_of store.new) work.new))) }
    ensures goes_on { OnOk result (GoOn (present store.old) work.old (present store.new) work.new) }
    ensures past { IsPrefixOf (versions store.old) (versions store.new) }
    ensures kinds { kinds store.new ≡ kinds store.old }
{
    let left = store.shortened(pair.left.closure(alloc))?;
    let right = store.shortened(pair.right.closure(alloc))?;
    let mut solved = Solved::without_notes(alloc);
    along_closures(alloc, store, work, &mut solved, ClosurePair { left, right })
}

/// One step for the equation in front, or several by closures. It is replaced in the place.
#[inline(always)]
pub fn next_way<'a>(
    alloc: Global,
    store: &mut Store<'a>,
    work: &mut Work<'a>,
    front: &mut Front<'a>,
) -> Result<Way, Memory>
    requires pair { AreBelowBoth parts_equation (present store.old).next front.old.ahead.next }
    requires waiting { IsWaitingBelow parts_equation (present store.old).next front.old.waiting }
    requires marks { AreMarksTrue (bindings_of store.old) front.old.ahead.next }
    requires waiting_marks { AreWaitingMarksTrue (bindings_of store.old) front.old.waiting }
    ensures stage { IfOk result (λ way. LeadsTo (stage_of parts_equation (bindings_of store.old)
        front.old.ahead.next front.old.waiting work.old)
        (progress_to parts_equation way (bindings_of store.new) front.new work.new)) }
    ensures below { IfOk result (λ way.
        IsWayBelow parts_equation (present store.old).next way front.new) }
    ensures marks { IfOk result (λ way. AreWayMarksTrue (bindings_of store.new) way front.new) }
    ensures goes_on { OnOk result (GoOn (present store.old) work.old (present store.new) work.new) }
    ensures past { IsPrefixOf (versions store.old) (versions store.new) }
    ensures kinds { kinds store.new ≡ kinds store.old }
{
    match step_parts(alloc, store, work, &mut front.ahead)? {
        Turn::Clash => Ok(Way::End(false)),
        Turn::Done => Ok(after_done(front)),
        Turn::On => Ok(Way::On),
        Turn::Both => {
            put_waiting(alloc, work, front.waiting)?;
            front.waiting = Some(front.ahead.later);
            Ok(Way::On)
        }
        Turn::Other => {
            put_waiting(alloc, work, front.waiting)?;
            let solved = by_closures(alloc, store, work, front.ahead.next)?;
            Ok(Way::End(solved))
        }
    }
}

/// Likewise, and past the equation in front where a look tells that both sides stand for one term.
pub fn way_unless_settled<'a>(
    alloc: Global,
    store: &mut Store<'a>,
    work: &mut Work<'a>,
    settled: &mut Settled,
    front: &mut Front<'a>,
) -> Result<Way, Memory>
    requires pair { AreBelowBoth parts_equation (present store.old).next front.old.ahead.next }
    requires waiting { IsWaitingBelow parts_equation (present store.old).next front.old.waiting }
    requires marks { AreMarksTrue (bindings_of store.old) front.old.ahead.next }
    requires waiting_marks { AreWaitingMarksTrue (bindings_of store.old) front.old.waiting }
    requires settled { AreSettled (bindings_of store.old) settled.old }
    ensures stage { IfOk result (λ way. LeadsTo (stage_of parts_equation (bindings_of store.old)
        front.old.ahead.next front.old.waiting work.old)
        (progress_to parts_equation way (bindings_of store.new) front.new work.new)) }
    ensures below { IfOk result (λ way.
        IsWayBelow parts_equation (present store.old).next way front.new) }
    ensures marks { IfOk result (λ way. AreWayMarksTrue (bindings_of store.new) way front.new) }
    ensures settled { OnOk result (AreSettled (bindings_of store.new) settled.new) }
    ensures goes_on { OnOk result (GoOn (present store.old) work.old (present store.new) work.new) }
    ensures past { IsPrefixOf (versions store.old) (versions store.new) }
    ensures kinds { kinds store.new ≡ kinds store.old }
{
    let same = is_settled(alloc, store, settled, front.ahead.next)?;
    if same {
        return Ok(after_done(front));
    }
    next_way(alloc, store, work, front)
}
