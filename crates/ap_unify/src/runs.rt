//! A run of unification, from the first equation to the last.

ghost use Rattle.std.specs.Prelude.{◌≡◌, ◌<◌, ◌+◌, ◌∷◌, [], false, true, IfOk, OnOk, drop, length, vec_len};
ghost use Rattle.ap_defs.specs.Renaming.{AreBelow};
ghost use Rattle.ap_store.specs.Triples.{IsPrefixOf};
ghost use Rattle.ap_store.specs.Views.{bindings_of, kinds, present, versions};
ghost use Rattle.ap_unify.specs.Finishing.{EndsAs};
ghost use Rattle.ap_unify.specs.Lists.{renamed_terms_in};
ghost use Rattle.ap_unify.specs.Parts.{AreBelowBoth, AreMarksTrue, LeadsTo, Reaches, parts_equation, stage_with};
ghost use Rattle.ap_unify.specs.Settled.{AreSettled};
ghost use Rattle.ap_unify.specs.Solved.{AreSolved, AreSolvedAfter};
ghost use Rattle.ap_equations.specs.Plain.{plain_term};
ghost use Rattle.ap_rules.specs.Runs.{paired, stage_under};
ghost use Rattle.ap_rules.specs.Work.{ArePairsBelow, GoOn, IsPairBelow, ending_if, equations_left, pair_equation, problems_met, progress_if, work_stage};

use crate::fronts::{Front, Way};
use crate::moved_runs::along_closures;
use crate::parts::Ahead;
use crate::settled::Settled;
use crate::solved::{Solved, take_solved};
use crate::terms::Terms;
use crate::ways::{next_way, way_unless_settled};
use ap_defs::memory::Memory;
use ap_equations::plain::{Plain, PlainPair};
use ap_rules::pairs::{ClosurePair, Work};
use ap_store::store::Store;
use std::alloc::Global;

/// Rewrites an equation of two parts in front of those that are left, as long as this makes another
/// one of two parts. It answers false where there is no solution.
fn along<'a>(
    alloc: Global,
    store: &mut Store<'a>,
    work: &mut Work<'a>,
    first: PlainPair<'a>,
) -> Result<bool, Memory>
    requires below { AreBelowBoth parts_equation (present store.old).next first }
    requires marks { AreMarksTrue (bindings_of store.old) first }
    ensures stage { IfOk result (λ goes_on. LeadsTo
        (stage_with parts_equation (bindings_of store.old) first.entry work.old) (progress_if goes_on (work_stage (bindings_of store.new) work.new))) }
    ensures goes_on { OnOk result (GoOn (present store.old) work.old (present store.new) work.new) }
    ensures past { IsPrefixOf (versions store.old) (versions store.new) }
    ensures kinds { kinds store.new ≡ kinds store.old }
{
    let ahead = Ahead {
        next: first,
        later: first,
    };
    let mut front = Front {
        ahead,
        waiting: None,
    };
    'going: loop {
        match next_way(alloc, store, work, &mut front)? {
            Way::End(goes_on) => return Ok(goes_on),
            Way::On => {}
        }
    }
}

/// Likewise, and without equations whose sides are known to stand for one term.
fn along_unless_settled<'a>(
    alloc: Global,
    store: &mut Store<'a>,
    work: &mut Work<'a>,
    settled: &mut Settled,
    first: PlainPair<'a>,
) -> Result<bool, Memory>
    requires below { AreBelowBoth parts_equation (present store.old).next first }
    requires marks { AreMarksTrue (bindings_of store.old) first }
    requires settled { AreSettled (bindings_of store.old) settled.old }
    ensures stage { IfOk result (λ goes_on. LeadsTo
        (stage_with parts_equation (bindings_of store.old) first.entry work.old) (progress_if goes_on (work_stage (bindings_of store.new) work.new))) }
    ensures settled { OnOk result (AreSettled (bindings_of store.new) settled.new) }
    ensures goes_on { OnOk result (GoOn (present store.old) work.old (present store.new) work.new) }
    ensures past { IsPrefixOf (versions store.old) (versions store.new) }
    ensures kinds { kinds store.new ≡ kinds store.old }
{
    let ahead = Ahead {
        next: first,
        later: first,
    };
    let mut front = Front {
        ahead,
        waiting: None,
    };
    'going: loop {
        match way_unless_settled(alloc, store, work, settled, &mut front)? {
            Way::End(goes_on) => return Ok(goes_on),
            Way::On => {}
        }
    }
}

/// One or several steps for an equation in front of those that are left. It answers false where there
/// is no solution.
fn advance_by<'a>(
    alloc: Global,
    store: &mut Store<'a>,
    work: &mut Work<'a>,
    settled: &mut Settled,
    solved: &mut Solved,
    first: ClosurePair<'a>,
) -> Result<bool, Memory>
    requires below { IsPairBelow (present store.old).next first }
    requires settled { AreSettled (bindings_of store.old) settled.old }
    requires solved { AreSolved (stage_under (bindings_of store.old)
        (pair_equation first ∷ equations_left work.old) (problems_met work.old)) solved.old }
    ensures stage { IfOk result (λ goes_on. LeadsTo (stage_under (bindings_of store.old)
        (pair_equation first.entry ∷ equations_left work.old) (problems_met work.old))
        (progress_if goes_on (work_stage (bindings_of store.new) work.new))) }
    ensures settled { OnOk result (AreSettled (bindings_of store.new) settled.new) }
    ensures solved { IfOk result (λ goes_on. AreSolvedAfter
        (progress_if goes_on (work_stage (bindings_of store.new) work.new)) solved.new) }
    ensures goes_on { OnOk result (GoOn (present store.old) work.old (present store.new) work.new) }
    ensures past { IsPrefixOf (versions store.old) (versions store.new) }
    ensures kinds { kinds store.new ≡ kinds store.old }
{
    let left = Plain::of(&first.left);
    let right = Plain::of(&first.right);
    match (left, right) {
        (Some(left), Some(right)) => {
            along_unless_settled(alloc, store, work, settled, PlainPair { left, right })
        },
        _ => along_closures(alloc, store, work, solved, first),
    }
}

/// One or several steps: false where there is no solution.
fn advance<'a>(
    alloc: Global,
    store: &mut Store<'a>,
    work: &mut Work<'a>,
    settled: &mut Settled,
    solved: &mut Solved,
) -> Result<bool, Memory>
    requires some { 0 < vec_len work.old.equations }
    requires below { ArePairsBelow (present store.old).next work.old.equations.items }
    requires settled { AreSettled (bindings_of store.old) settled.old }
    requires solved { AreSolved (work_stage (bindings_of store.old) work.old) solved.old }
    ensures stage { IfOk result (λ goes_on. LeadsTo (work_stage (bindings_of store.old) work.old)
        (progress_if goes_on (work_stage (bindings_of store.new) work.new))) }
    ensures settled { OnOk result (AreSettled (bindings_of store.new) settled.new) }
    ensures solved { IfOk result (λ goes_on. AreSolvedAfter
        (progress_if goes_on (work_stage (bindings_of store.new) work.new)) solved.new) }
    ensures goes_on { OnOk result (GoOn (present store.old) work.old (present store.new) work.new) }
    ensures past { IsPrefixOf (versions store.old) (versions store.new) }
    ensures kinds { kinds store.new ≡ kinds store.old }
{
    take_solved(solved, work.equations.len())?;
    let Some(first) = work.equations.pop() else {
        return Ok(true);
    };
    advance_by(alloc, store, work, settled, solved, first)
}

/// Rewrites equations from the first, until none is left or there is no solution.
fn run<'a>(alloc: Global, store: &mut Store<'a>, work: &mut Work<'a>) -> Result<bool, Memory>
    requires { ArePairsBelow (present store.old).next work.old.equations.items }
    ensures reached { IfOk result (λ solved. Reaches (work_stage (bindings_of store.old) work.old)
        (progress_if solved (work_stage (bindings_of store.new) work.new))) }
    ensures left { IfOk result (λ solved. solved ≡ true → work.new.equations.items ≡ []) }
    ensures goes_on { OnOk result (GoOn (present store.old) work.old (present store.new) work.new) }
    ensures past { IsPrefixOf (versions store.old) (versions store.new) }
    ensures kinds { kinds store.new ≡ kinds store.old }
{
    if work.equations.is_empty() {
        return Ok(true);
    }
    let mut settled = Settled::new(alloc);
    let mut solved = Solved::new(alloc);
    'rewriting: while !work.equations.is_empty() {
        if !advance(alloc, store, work, &mut settled, &mut solved)? {
            return Ok(false);
        }
    }
    Ok(true)
}

/// Rewrites an equation of two parts and what is left, until none is left or there is no solution.
fn solve<'a>(
    alloc: Global,
    store: &mut Store<'a>,
    work: &mut Work<'a>,
    pair: PlainPair<'a>,
) -> Result<bool, Memory>
    requires below { AreBelowBoth parts_equation (present store.old).next pair }
    requires marks { AreMarksTrue (bindings_of store.old) pair }
    requires pairs { ArePairsBelow (present store.old).next work.old.equations.items }
    ensures stage { IfOk result (λ solved. LeadsTo
        (stage_with parts_equation (bindings_of store.old) pair.entry work.old) (progress_if solved (work_stage (bindings_of store.new) work.new))) }
    ensures left { IfOk result (λ solved. solved ≡ true → work.new.equations.items ≡ []) }
    ensures goes_on { OnOk result (GoOn (present store.old) work.old (present store.new) work.new) }
    ensures past { IsPrefixOf (versions store.old) (versions store.new) }
    ensures kinds { kinds store.new ≡ kinds store.old }
{
    if !along(alloc, store, work, pair)? {
        return Ok(false);
    }
    run(alloc, store, work)
}

/// The term at a place of a list, which is not known to be ground.
fn term_at<'a>(terms: Terms<'a>, i: usize) -> Plain<'a>
    requires place { i < length terms.terms.now }
    requires below { AreBelow terms.end (renamed_terms_in terms) }
    ensures term { drop i (renamed_terms_in terms.entry)
        ≡ plain_term result ∷ drop (i + 1) (renamed_terms_in terms.entry) }
    ensures mark { result.is_ground ≡ false }
{
    Plain {
        base: terms.base,
        end: terms.end,
        term: &terms.terms[i],
        is_ground: false,
    }
}

/// Rewrites the equations of the terms at each place of two lists, until none is left or there is no
/// solution.
pub fn run_places<'a>(
    alloc: Global,
    store: &mut Store<'a>,
    work: &mut Work<'a>,
    left: Terms<'a>,
    right: Terms<'a>,
) -> Result<bool, Memory>
    requires lengths { length left.terms.now ≡ length right.terms.now }
    requires left { AreBelow left.end (renamed_terms_in left) }
    requires right { AreBelow right.end (renamed_terms_in right) }
    requires left_made { AreBelow (present store.old).next (renamed_terms_in left) }
    requires right_made { AreBelow (present store.old).next (renamed_terms_in right) }
    requires none { work.old.equations.items ≡ [] }
    ensures ending { IfOk result (λ solved. EndsAs (stage_under (bindings_of store.old) (paired
        (renamed_terms_in left.entry) (renamed_terms_in right.entry)) (problems_met work.old))
        (ending_if solved (work_stage (bindings_of store.new) work.new))) }
    ensures left { IfOk result (λ solved. solved ≡ true → work.new.equations.items ≡ []) }
    ensures goes_on { OnOk result (GoOn (present store.old) work.old (present store.new) work.new) }
    ensures past { IsPrefixOf (versions store.old) (versions store.new) }
    ensures kinds { kinds store.new ≡ kinds store.old }
{
    'places: for i in 0..left.terms.len() {
        let here = term_at(left, i);
        let there = term_at(right, i);
        let pair = PlainPair {
            left: here,
            right: there,
        };
        if !solve(alloc, store, work, pair)? {
            return Ok(false);
        }
    }
    Ok(true)
}
