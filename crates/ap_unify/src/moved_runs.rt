//! How a run goes on from an equation of closures on which swappings wait.

ghost use Rattle.std.specs.Prelude.{◌≡◌, ◌-◌, ◌^◌, ◌∷◌, ◌++◌, ℕ, None, IfOk, OnOk, length, min};
ghost use Rattle.ap_defs.specs.Unification.{step};
ghost use Rattle.ap_rules.specs.Runs.{stage_under};
ghost use Rattle.ap_rules.specs.Work.{ArePairsBelow, GoOn, IsPairBelow, equations_left, pair_equation, problems_met, progress_if, work_stage};
ghost use Rattle.ap_rules.specs.declared.pairs.Work.{Work};
ghost use Rattle.ap_store.specs.Triples.{IsPrefixOf};
ghost use Rattle.ap_store.specs.Views.{bindings_of, kinds, present, versions};
ghost use Rattle.ap_unify.specs.Moved.{moved_equation};
ghost use Rattle.ap_unify.specs.Parts.{AreBelowBoth, AreMarksTrue, AreWaitingMarksTrue, AreWayMarksTrue, IsWaitingBelow, IsWayBelow, LeadsTo, PairReading, progress_to, stage_of, stage_with, waiting_equations};
ghost use Rattle.ap_unify.specs.Solved.{AreSolved, AreSolvedAfter};

use crate::binders::next_binders;
use crate::fronts::{Front, Way, after_done};
use crate::moved::step_moved;
use crate::parts::{Ahead, Turn, terms_of};
use crate::sides::{Sides, apart, moved_closure, name_within};
use crate::solved::{Solved, is_solved};
use ap_defs::memory::Memory;
use ap_defs::terms::{Name, Term};
use ap_equations::plain::PlainPair;
use ap_equations::work::{by_rule, put_equation};
use ap_rules::pairs::{ClosurePair, Work};
use ap_store::store::Store;
use std::alloc::Global;

/// The equation of two parts on which swappings wait.
fn pair_of<'a>(alloc: Global, sides: &Sides, pair: PlainPair<'a>) -> Result<ClosurePair<'a>, Memory>
    ensures same { IfOk result (λ e. pair_equation e ≡ moved_equation sides.now pair.entry) }
    ensures below { IfOk result (λ e. (n : ℕ) →
        AreBelowBoth (moved_equation sides.now) n pair.entry → IsPairBelow n e) }
{
    let left = moved_closure(alloc, &sides.left, pair.left)?;
    let right = moved_closure(alloc, &sides.right, pair.right)?;
    Ok(ClosurePair { left, right })
}

/// Puts an equation that waits in front of those that are left.
fn put_moved<'a>(
    alloc: Global,
    work: &mut Work<'a>,
    sides: &Sides,
    waiting: Option<PlainPair<'a>>,
) -> Result<(), Memory>
    ensures equations { OnOk result (equations_left work.new
        ≡ waiting_equations (moved_equation sides.now) waiting.entry ++ equations_left work.old) }
    ensures below { OnOk result ((n : ℕ) →
        IsWaitingBelow (moved_equation sides.now) n waiting.entry →
        ArePairsBelow n work.old.equations.items → ArePairsBelow n work.new.equations.items) }
    ensures problems { work.new.problems.items ≡ work.old.problems.items }
    ensures taken { work.new.taken.items ≡ work.old.taken.items }
{
    match waiting {
        None => Ok(()),
        Some(pair) => {
            let e = pair_of(alloc, sides, pair)?;
            put_equation(work, e)
        }
    }
}

/// The rule for two parts on which swappings wait, by closures. It answers false where that is no solution.
fn by_moved_closures<'a>(
    alloc: Global,
    store: &mut Store<'a>,
    work: &mut Work<'a>,
    sides: &Sides,
    pair: PlainPair<'a>,
) -> Result<bool, Memory>
    requires below { AreBelowBoth (moved_equation sides.now) (present store.old).next pair }
    ensures stage { IfOk result (λ goes_on. progress_if goes_on (work_stage
        (bindings_of store.new) work.new)
        ≡ step (stage_with (moved_equation sides.now) (bindings_of store.old) pair.entry
        work.old)) }
    ensures goes_on { OnOk result (GoOn (present store.old) work.old (present store.new) work.new) }
    ensures past { IsPrefixOf (versions store.old) (versions store.new) }
    ensures kinds { kinds store.new ≡ kinds store.old }
{
    let e = pair_of(alloc, sides, pair)?;
    by_rule(alloc, store, work, e)
}

/// The step for two parts that is left to another way, where nothing waits in front: the swappings change for the
/// bodies of abstractions, and all others go by closures.
fn other_moved<'a>(
    alloc: Global,
    store: &mut Store<'a>,
    work: &mut Work<'a>,
    sides: &mut Sides,
    front: &mut Front<'a>,
) -> Result<Way, Memory>
    requires pair { AreBelowBoth (moved_equation sides.old) (present store.old).next
        front.old.ahead.next }
    requires marks { AreMarksTrue (bindings_of store.old) front.old.ahead.next }
    requires none { front.old.waiting ≡ None }
    ensures stage { IfOk result (λ way. LeadsTo (stage_with (moved_equation sides.old)
        (bindings_of store.old) front.old.ahead.next work.old)
        (progress_to (moved_equation sides.new) way (bindings_of store.new) front.new work.new)) }
    ensures below { IfOk result (λ way.
        IsWayBelow (moved_equation sides.new) (present store.old).next way front.new) }
    ensures marks { IfOk result (λ way. AreWayMarksTrue (bindings_of store.new) way front.new) }
    ensures goes_on { OnOk result (GoOn (present store.old) work.old (present store.new) work.new) }
    ensures past { IsPrefixOf (versions store.old) (versions store.new) }
    ensures kinds { kinds store.new ≡ kinds store.old }
{
    let pair = front.ahead.next;
    match (pair.left.term, pair.right.term) {
        (Term::Abs(sort, num, t), Term::Abs(other_sort, other_num, u)) => {
            let a = Name {
                sort: *sort,
                num: *num,
            };
            let b = Name {
                sort: *other_sort,
                num: *other_num,
            };
            let a = name_within(&sides.left, pair.left, a);
            let b = name_within(&sides.right, pair.right, b);
            next_binders(alloc, work, sides, front, a, b, terms_of(pair, t, u))
        }
        _ => {
            let solved = by_moved_closures(alloc, store, work, sides, pair)?;
            Ok(Way::End(solved))
        }
    }
}

/// Whether both parts are abstractions. It takes no memory.
fn are_abstractions(pair: PlainPair<'_>) -> bool {
    match (pair.left.term, pair.right.term) {
        (Term::Abs(_, _, _), Term::Abs(_, _, _)) => true,
        _ => false,
    }
}

/// One step for the equation in front, by which the swappings may change. It is replaced in the place. Two abstractions
/// behind which nothing waits go another way at once, so that their binders are looked up once.
fn next_moved<'a>(
    alloc: Global,
    store: &mut Store<'a>,
    work: &mut Work<'a>,
    sides: &mut Sides,
    front: &mut Front<'a>,
) -> Result<Way, Memory>
    requires pair { AreBelowBoth (moved_equation sides.old) (present store.old).next
        front.old.ahead.next }
    requires waiting { IsWaitingBelow (moved_equation sides.old) (present store.old).next
        front.old.waiting }
    requires marks { AreMarksTrue (bindings_of store.old) front.old.ahead.next }
    requires waiting_marks { AreWaitingMarksTrue (bindings_of store.old) front.old.waiting }
    ensures stage { IfOk result (λ way. LeadsTo (stage_of (moved_equation sides.old)
        (bindings_of store.old) front.old.ahead.next front.old.waiting work.old)
        (progress_to (moved_equation sides.new) way (bindings_of store.new) front.new work.new)) }
    ensures below { IfOk result (λ way.
        IsWayBelow (moved_equation sides.new) (present store.old).next way front.new) }
    ensures marks { IfOk result (λ way. AreWayMarksTrue (bindings_of store.new) way front.new) }
    ensures goes_on { OnOk result (GoOn (present store.old) work.old (present store.new) work.new) }
    ensures past { IsPrefixOf (versions store.old) (versions store.new) }
    ensures kinds { kinds store.new ≡ kinds store.old }
{
    if let None = front.waiting {
        if are_abstractions(front.ahead.next) {
            return other_moved(alloc, store, work, sides, front);
        }
    }
    match step_moved(alloc, store, work, sides, &mut front.ahead)? {
        Turn::Clash => Ok(Way::End(false)),
        Turn::Done => Ok(after_done(front)),
        Turn::On => Ok(Way::On),
        Turn::Both => {
            put_moved(alloc, work, sides, front.waiting)?;
            front.waiting = Some(front.ahead.later);
            Ok(Way::On)
        }
        Turn::Other => {
            put_moved(alloc, work, sides, front.waiting)?;
            front.waiting = None;
            other_moved(alloc, store, work, sides, front)
        }
    }
}

/// How many equations are behind the one in front.
fn behind(work: &Work<'_>, front: &Front<'_>) -> usize
    ensures { (q : PairReading) → result
        ≡ min (length (waiting_equations q front.now.waiting ++ equations_left work.now))
        (2 ^ 64 - 1) }
{
    match front.waiting {
        None => work.equations.len(),
        Some(_) => work.equations.len().saturating_add(1),
    }
}

/// One step for the equation in front, or past it where it is known to be solved.
fn way_unless_solved<'a>(
    alloc: Global,
    store: &mut Store<'a>,
    work: &mut Work<'a>,
    solved: &mut Solved,
    sides: &mut Sides,
    front: &mut Front<'a>,
) -> Result<Way, Memory>
    requires pair { AreBelowBoth (moved_equation sides.old) (present store.old).next
        front.old.ahead.next }
    requires waiting { IsWaitingBelow (moved_equation sides.old) (present store.old).next
        front.old.waiting }
    requires marks { AreMarksTrue (bindings_of store.old) front.old.ahead.next }
    requires waiting_marks { AreWaitingMarksTrue (bindings_of store.old) front.old.waiting }
    requires solved { AreSolved (stage_of (moved_equation sides.old) (bindings_of store.old)
        front.old.ahead.next front.old.waiting work.old) solved.old }
    ensures stage { IfOk result (λ way. LeadsTo (stage_of (moved_equation sides.old)
        (bindings_of store.old) front.old.ahead.next front.old.waiting work.old)
        (progress_to (moved_equation sides.new) way (bindings_of store.new) front.new work.new)) }
    ensures solved { IfOk result (λ way. AreSolvedAfter (progress_to (moved_equation sides.new) way
        (bindings_of store.new) front.new work.new) solved.new) }
    ensures below { IfOk result (λ way.
        IsWayBelow (moved_equation sides.new) (present store.old).next way front.new) }
    ensures marks { IfOk result (λ way. AreWayMarksTrue (bindings_of store.new) way front.new) }
    ensures goes_on { OnOk result (GoOn (present store.old) work.old (present store.new) work.new) }
    ensures past { IsPrefixOf (versions store.old) (versions store.new) }
    ensures kinds { kinds store.new ≡ kinds store.old }
{
    let others = behind(work, front);
    let known = is_solved(alloc, solved, sides, front.ahead.next, others)?;
    if known {
        return Ok(after_done(front));
    }
    next_moved(alloc, store, work, sides, front)
}

/// Rewrites an equation of two parts on which swappings wait, in front of those that are left, as long as this makes
/// another one of two parts. It answers false where there is no solution.
fn along_moved<'a>(
    alloc: Global,
    store: &mut Store<'a>,
    work: &mut Work<'a>,
    solved: &mut Solved,
    mut sides: Sides,
    first: PlainPair<'a>,
) -> Result<bool, Memory>
    requires below { AreBelowBoth (moved_equation sides) (present store.old).next first }
    requires marks { AreMarksTrue (bindings_of store.old) first }
    requires solved { AreSolved (stage_with (moved_equation sides) (bindings_of store.old) first
        work.old) solved.old }
    ensures stage { IfOk result (λ goes_on. LeadsTo (stage_with (moved_equation sides)
        (bindings_of store.old) first.entry work.old)
        (progress_if goes_on (work_stage (bindings_of store.new) work.new))) }
    ensures solved { IfOk result (λ goes_on. AreSolvedAfter
        (progress_if goes_on (work_stage (bindings_of store.new) work.new)) solved.new) }
    ensures goes_on { OnOk result (GoOn (present store.old) work.old (present store.new) work.new) }
    ensures past { IsPrefixOf (versions store.old) (versions store.new) }
    ensures kinds { kinds store.new ≡ kinds store.old }
{
    let ahead = Ahead {
        next: first,
        later: first,
    };
    let mut front = Front {
        ahead,
        waiting: None,
    };
    'going: loop {
        match way_unless_solved(alloc, store, work, solved, &mut sides, &mut front)? {
            Way::End(goes_on) => return Ok(goes_on),
            Way::On => {}
        }
    }
}

/// One or several steps for an equation of closures in front of those that are left, with the swappings that
/// wait on either side kept for all its parts. It answers false where there is no solution.
pub fn along_closures<'a>(
    alloc: Global,
    store: &mut Store<'a>,
    work: &mut Work<'a>,
    solved: &mut Solved,
    first: ClosurePair<'a>,
) -> Result<bool, Memory>
    requires below { IsPairBelow (present store.old).next first }
    requires solved { AreSolved (stage_under (bindings_of store.old)
        (pair_equation first ∷ equations_left work.old) (problems_met work.old)) solved.old }
    ensures stage { IfOk result (λ goes_on. LeadsTo (stage_under (bindings_of store.old)
        (pair_equation first.entry ∷ equations_left work.old) (problems_met work.old))
        (progress_if goes_on (work_stage (bindings_of store.new) work.new))) }
    ensures solved { IfOk result (λ goes_on. AreSolvedAfter
        (progress_if goes_on (work_stage (bindings_of store.new) work.new)) solved.new) }
    ensures goes_on { OnOk result (GoOn (present store.old) work.old (present store.new) work.new) }
    ensures past { IsPrefixOf (versions store.old) (versions store.new) }
    ensures kinds { kinds store.new ≡ kinds store.old }
{
    let ClosurePair { left, right } = first;
    let (left_side, left) = apart(alloc, left);
    let (right_side, right) = apart(alloc, right);
    let sides = Sides {
        left: left_side,
        right: right_side,
    };
    along_moved(alloc, store, work, solved, sides, PlainPair { left, right })
}
