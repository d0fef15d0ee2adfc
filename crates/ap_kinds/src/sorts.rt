//! An item whose names get the sorts of their kinds, in place.
//!
//! A term or a goal can be as deep to the right as its text is long. So the way down to what is last in
//! it is turned round as it is gone: each part on it has what is above it in place of what is below, and
//! the way back puts that in its place again.

ghost use Rattle.std.specs.Prelude.{◌≡◌, ◌<◌, ℕ, map, true, false, IfOk, OnOk, MatchOption, Some, None};
ghost use Rattle.ap_defs.specs.RawTerms.{raw_of};
ghost use Rattle.ap_defs.specs.Types.{kind_of};
ghost use Rattle.ap_defs.specs.Answers.{kind_at};
ghost use Rattle.ap_defs.specs.Goals.{goal_over};
ghost use Rattle.ap_spines.specs.Turned.{turned_back, goal_turned_back, part_count, goal_count};
ghost use Rattle.ap_kinds.specs.Sorts.{sort_in, KeepSorts, name_with_sort, id_with_sort, with_sorts, terms_with_sorts, goal_with_sorts};

use ap_defs::goals::{Goal, Kind};
use ap_defs::lists::List;
use ap_defs::memory::Memory;
use ap_defs::terms::{Id, Name, Raw, Under};
use ap_spines::go_up;
use std::alloc::Global;
use std::mem;

/// The kind with a number.
#[tactic(auto, using(crate::proofs::Lookups::kind_found, crate::proofs::Lookups::kind_past))]
fn kind_at(kinds: &[Kind], number: u64) -> Option<&Kind>
    ensures { MatchOption result (kind_at (map kind_of kinds.now) number ≡ None) (λ k. kind_at
        (map kind_of kinds.now) number ≡ Some (kind_of k.now)) }
{
    let place = number as usize;
    if place >= kinds.len() {
        return None;
    }
    Some(&kinds[place])
}

/// Whether it is the kind of a name.
fn is_of_name(kind: &Kind) -> bool
    ensures { result ≡ false → (sort : ℕ) → sort_in (Some (kind_of kind.now)) sort ≡ sort }
{
    match kind {
        Kind::Name(_) => true,
        Kind::Var(_) => false,
    }
}

/// Whether one of the kinds is that of a name. Where none is, nothing gets another sort.
fn has_names(kinds: &[Kind]) -> bool
    ensures { result ≡ false → KeepSorts (map kind_of kinds.now) }
{
    for kind in kinds {
        if is_of_name(kind) {
            return true;
        }
    }
    false
}

/// A name with the sort of its kind, if its number is that of a name.
fn name_with_sort(kinds: &[Kind], a: Name) -> Name
    ensures { result ≡ name_with_sort (map kind_of kinds.now) a }
{
    match kind_at(kinds, a.num) {
        Some(Kind::Name(sort)) => Name {
            sort: *sort,
            num: a.num,
        },
        _ => a,
    }
}

/// An identifier with the sort of its kind.
fn id_with_sort(kinds: &[Kind], ident: Id) -> Id
    ensures { result ≡ id_with_sort (map kind_of kinds.now) ident }
{
    match ident {
        Id::Name(a) => Id::Name(name_with_sort(kinds, a)),
        Id::Var(x) => Id::Var(x),
    }
}

/// Goes down to the last part of a term, and answers whether it has one; all of the term's other names get
/// their sorts.
#[cycle(sorts)]
fn go_down(kinds: &[Kind], above: &mut Raw, t: &mut Raw) -> bool
    ensures down { result ≡ true →
        turned_back (raw_of above.new) (with_sorts (map kind_of kinds.now) (raw_of t.new))
        ≡ turned_back (raw_of above.old) (with_sorts (map kind_of kinds.now) (raw_of t.old)) }
    ensures smaller { result ≡ true → part_count (raw_of t.new) < part_count (raw_of t.old) }
    ensures last { result ≡ false → turned_back (raw_of above.new) (raw_of t.new)
        ≡ turned_back (raw_of above.old) (with_sorts (map kind_of kinds.now) (raw_of t.old)) }
{
    match &mut *t {
        Raw::Unit | Raw::Var(_) => return false,
        Raw::Name(a) => {
            *a = name_with_sort(kinds, *a);
            return false;
        }
        Raw::Pair(left, right) => {
            sort_term(kinds, left);
            mem::swap(&mut **right, above);
        }
        Raw::App(_, argument) => mem::swap(&mut **argument, above),
        Raw::Under(under) => match &mut **under {
            Under::Abs(i, body) => {
                *i = id_with_sort(kinds, *i);
                mem::swap(body, above);
            }
            Under::Swapped(places, body) => {
                places.left = id_with_sort(kinds, places.left);
                places.right = id_with_sort(kinds, places.right);
                mem::swap(body, above);
            }
        }
    }
    mem::swap(t, above);
    true
}

/// Gives the names of a term their sorts.
///
/// It goes along the right part of a pair, the argument of a constructor, the body of an abstraction and
/// what is swapped, and comes to itself on left parts of pairs alone.
#[cycle(sorts)]
fn sort_term(kinds: &[Kind], t: &mut Raw)
    ensures { raw_of t.new ≡ with_sorts (map kind_of kinds.now) (raw_of t.old) }
{
    let mut above = Raw::Unit;
    'down: while go_down(kinds, &mut above, t) {}
    'up: while go_up(&mut above, t) {}
}

/// A term whose names have the sorts of their kinds.
fn with_sorts(kinds: &[Kind], t: Raw) -> Raw
    ensures { raw_of result ≡ with_sorts (map kind_of kinds.now) (raw_of t) }
{
    let mut sorted = t;
    sort_term(kinds, &mut sorted);
    sorted
}

/// Terms whose names have the sorts of their kinds.
pub fn terms_with_sorts(
    alloc: Global,
    kinds: &[Kind],
    terms: List<Raw>,
) -> Result<List<Raw>, Memory>
    ensures { IfOk result (λ ts. map raw_of ts
        ≡ terms_with_sorts (map kind_of kinds.now) (map raw_of terms)) }
{
    if !has_names(kinds) {
        return Ok(terms);
    }
    each_with_sorts(alloc, kinds, terms)
}

/// Terms whose names have the sorts of their kinds, each gone through.
fn each_with_sorts(alloc: Global, kinds: &[Kind], terms: List<Raw>) -> Result<List<Raw>, Memory>
    ensures { IfOk result (λ ts. map raw_of ts
        ≡ terms_with_sorts (map kind_of kinds.now) (map raw_of terms)) }
{
    let terms = terms.into_vec();
    let mut sorted = Vec::with_capacity(alloc, terms.len())?;
    for t in terms {
        sorted.push(with_sorts(kinds, t))?;
    }
    Ok(List::of(sorted))
}

/// Gives the names of terms their sorts.
fn sort_terms(alloc: Global, kinds: &[Kind], terms: &mut List<Raw>) -> Result<(), Memory>
    ensures { OnOk result (map raw_of terms.new
        ≡ terms_with_sorts (map kind_of kinds.now) (map raw_of terms.old)) }
{
    let found = mem::replace(terms, List::of(Vec::new(alloc)));
    *terms = each_with_sorts(alloc, kinds, found)?;
    Ok(())
}

/// Goes down to the last part of a goal, and answers whether it has one; all names of the goal but those
/// of that part get their sorts.
#[cycle(goal_sorts)]
fn go_down_goal(
    alloc: Global,
    kinds: &[Kind],
    above: &mut Goal<Raw>,
    goal: &mut Goal<Raw>,
) -> Result<bool, Memory>
    ensures down { IfOk result (λ b. b ≡ true → goal_turned_back (goal_over raw_of above.new)
        (goal_with_sorts (map kind_of kinds.now) (goal_over raw_of goal.new))
        ≡ goal_turned_back (goal_over raw_of above.old)
        (goal_with_sorts (map kind_of kinds.now) (goal_over raw_of goal.old))) }
    ensures smaller { IfOk result (λ b. b ≡ true →
        goal_count (goal_over raw_of goal.new) < goal_count (goal_over raw_of goal.old)) }
    ensures last { IfOk result (λ b. b ≡ false →
        goal_turned_back (goal_over raw_of above.new) (goal_over raw_of goal.new)
        ≡ goal_turned_back (goal_over raw_of above.old)
        (goal_with_sorts (map kind_of kinds.now) (goal_over raw_of goal.old))) }
{
    match &mut *goal {
        Goal::True => return Ok(false),
        Goal::Atom(_, terms) => {
            sort_terms(alloc, kinds, terms)?;
            return Ok(false);
        }
        Goal::Equal(t, u) => {
            sort_term(kinds, t);
            sort_term(kinds, u);
            return Ok(false);
        }
        Goal::Fresh(t, u) => {
            sort_term(kinds, t);
            sort_term(kinds, u);
            return Ok(false);
        }
        Goal::Both(left, right) => {
            sort_goal(alloc, kinds, left)?;
            mem::swap(&mut **right, above);
        }
        Goal::Either(left, right) => {
            sort_goal(alloc, kinds, left)?;
            mem::swap(&mut **right, above);
        }
        Goal::Exists(_, inner) => mem::swap(&mut **inner, above),
        Goal::New(a, inner) => {
            *a = name_with_sort(kinds, *a);
            mem::swap(&mut **inner, above);
        }
    }
    mem::swap(goal, above);
    Ok(true)
}

/// Goes back up from the last part of a goal, and answers whether there was something above it.
fn go_up_goal(above: &mut Goal<Raw>, goal: &mut Goal<Raw>) -> bool
    ensures up { result ≡ true →
        goal_turned_back (goal_over raw_of above.new) (goal_over raw_of goal.new)
        ≡ goal_turned_back (goal_over raw_of above.old) (goal_over raw_of goal.old) }
    ensures smaller { result ≡ true →
        goal_count (goal_over raw_of above.new) < goal_count (goal_over raw_of above.old) }
    ensures top { result ≡ false → goal_over raw_of goal.new
        ≡ goal_turned_back (goal_over raw_of above.old) (goal_over raw_of goal.old) }
{
    match &mut *above {
        Goal::True | Goal::Atom(_, _) | Goal::Equal(_, _) | Goal::Fresh(_, _) => return false,
        Goal::Both(_, last) => mem::swap(&mut **last, goal),
        Goal::Either(_, last) => mem::swap(&mut **last, goal),
        Goal::Exists(_, last) => mem::swap(&mut **last, goal),
        Goal::New(_, last) => mem::swap(&mut **last, goal),
    }
    mem::swap(goal, above);
    true
}

/// Gives the names of a goal their sorts.
///
/// It goes along what is right of `,` and `;` and inside `exists` and `new`, and comes to itself on what is
/// left of them alone.
#[cycle(goal_sorts)]
fn sort_goal(alloc: Global, kinds: &[Kind], goal: &mut Goal<Raw>) -> Result<(), Memory>
    ensures { OnOk result (goal_over raw_of goal.new
        ≡ goal_with_sorts (map kind_of kinds.now) (goal_over raw_of goal.old)) }
{
    let mut above = Goal::True;
    'down: while go_down_goal(alloc, kinds, &mut above, goal)? {}
    'up: while go_up_goal(&mut above, goal) {}
    Ok(())
}

/// A goal whose names have the sorts of their kinds.
///
/// Each name whose number is that of a name among the kinds has its sort, and all else stays. `Err` is
/// want of memory.
#[tactic(auto, using(crate::proofs::SortLemmas::goal_keeps))]
pub fn goal_with_sorts(alloc: Global, kinds: &[Kind], goal: Goal<Raw>) -> Result<Goal<Raw>, Memory>
    ensures { IfOk result (λ g. goal_over raw_of g
        ≡ goal_with_sorts (map kind_of kinds.now) (goal_over raw_of goal)) }
{
    if !has_names(kinds) {
        return Ok(goal);
    }
    let mut sorted = goal;
    sort_goal(alloc, kinds, &mut sorted)?;
    Ok(sorted)
}
