//! Equality of nominal terms under conditions, after Urban, Pitts and Gabbay.
//!
//! The binders that were passed are kept in pairs beside the terms, so no copy of a body is made: a name means
//! what another does where both are bound by one pair, or neither is bound and they are one. What is left to
//! compare stands on a stack, so no term is too deep, and of a closure no copy is made either.

ghost use Rattle.std.specs.List.{All};
ghost use Rattle.std.specs.Prelude.{◌≡◌, ◌++◌, [], ◌∷◌, List as list, length, reverse, IfOk, OnOk};
ghost use Rattle.ap_defs.specs.Freshness.{Conds, alpha_under};
ghost use Rattle.ap_defs.specs.declared.terms.Swap.{Swap};
ghost use Rattle.ap_defs.specs.Terms.{abs, app, name, pair, susp, unit};
ghost use Rattle.ap_judge.specs.declared.equality.Compared.{Compared};
ghost use Rattle.ap_judge.specs.Binders.{AreBinders, within_left, within_right};
ghost use Rattle.ap_judge.specs.Comparisons.{are_alike, mark_of, compared_size};
ghost use Rattle.ap_judge.specs.Closures.{head_term, scoped_term};
ghost use Rattle.ap_judge.specs.Stacks.{AreWithin, IsTestedThere, all_waiting};
ghost use Rattle.ap_judge.specs.Tables.{IsClosureIn, IsComparedIn, IsHeadIn};
ghost use Rattle.ap_shared.specs.declared.arena.SharedTerms.{SharedTerms as table};
ghost use Rattle.ap_shared.specs.Shared.{shared_at};
ghost use Rattle.ap_shared.specs.SharedViews.{shared_terms};

use crate::binders::Binders;
use crate::cited::Cited;
use crate::closures::{Closure, Head, head_at, is_same_line, settled};
use crate::index::IndexedAnswer;
use crate::suspensions::are_all_settled;
use ap_defs::memory::Memory;
use ap_defs::terms::{Name, Swap, Var};
use ap_shared::arena::SharedTerms;
use ap_shared::places::Shared;
use std::alloc::Global;

/// Two terms that are yet to be compared, and how many of the pairs of binders stand round them.
#[derive(Drop)]
pub(crate) struct Compared<'a> {
    pub left: Closure<'a>,
    pub right: Closure<'a>,
    pub mark: usize,
}

/// The pairs of binders, and the terms that are left to compare, the next ones last.
#[derive(Drop)]
pub(crate) struct Comparison<'a> {
    pub binders: Binders,
    pub pending: Vec<Compared<'a>>,
}

impl<'a> Comparison<'a> {
    /// The two terms come next, within all binders.
    fn put(&mut self, left: Closure<'a>, right: Closure<'a>) -> Result<(), Memory>
        ensures binders { self.new.binders ≡ self.old.binders }
        ensures pending { OnOk result (self.new.pending.items ≡ self.old.pending.items
            ++ (record {
              left = left.entry;
              right = right.entry;
              mark = length self.old.binders.pairs.items;
            }) ∷ []) }
        ensures of { OnOk result ((ts : table) → IsClosureIn ts left.entry →
            IsClosureIn ts right.entry → All (IsComparedIn ts) self.old.pending.items →
            All (IsComparedIn ts) self.new.pending.items) }
    {
        let mark = self.binders.pairs.len();
        self.pending.push(Compared { left, right, mark })?;
        Ok(())
    }
}

/// Compares the heads of two abstractions: their bodies come next, within one more pair of binders where the
/// two binders don't mean the same already.
fn compare_bodies<'a>(
    walk: &mut Comparison<'a>,
    binders: (Name, Name),
    left: Closure<'a>,
    right: Closure<'a>,
) -> Result<bool, Memory>
    requires within { AreWithin mark_of (length walk.old.binders.pairs.items)
        (reverse walk.old.pending.items) }
    requires found { AreBinders walk.old.binders }
    ensures tested { IfOk result (λ yes. (ds : Conds) (c : Compared) →
        scoped_term c.left ≡ abs binders.0 (scoped_term left.entry) →
        scoped_term c.right ≡ abs binders.1 (scoped_term right.entry) →
        IsTestedThere mark_of (are_alike ds) compared_size c
        walk.old.binders.pairs.items walk.old.pending.items
        walk.new.binders.pairs.items walk.new.pending.items yes) }
    ensures found { OnOk result (AreBinders walk.new.binders) }
    ensures of { OnOk result ((ts : table) → IsClosureIn ts left.entry →
        IsClosureIn ts right.entry → All (IsComparedIn ts) walk.old.pending.items →
        All (IsComparedIn ts) walk.new.pending.items) }
{
    let (a, b) = binders;
    if a.sort != b.sort {
        return Ok(false);
    }
    if walk.binders.mean_same(a, b) {
        walk.put(left, right)?;
        return Ok(true);
    }
    walk.binders.push(Swap {
        sort: a.sort,
        left: a.num,
        right: b.num,
    })?;
    walk.put(left, right)?;
    Ok(true)
}

/// Compares two suspensions within binders.
fn are_suspended_alike(
    alloc: Global,
    answer: &IndexedAnswer<'_>,
    binders: &Binders,
    p: &[Swap],
    x: Var,
    q: &[Swap],
    y: Var,
) -> Result<bool, Memory>
    requires { AreBinders binders.now }
    ensures { IfOk result (λ yes. yes ≡
        alpha_under answer.now.conds (within_left binders.now.pairs.items (susp p.now x))
        (within_right binders.now.pairs.items (susp q.now y))) }
{
    if x.num != y.num {
        return Ok(false);
    }
    are_all_settled(alloc, answer, binders, p, q, x)
}

/// Whether a head is unit, as what is compared with it is.
fn is_unit(right: Head<'_>) -> bool
    ensures { (ds : Conds) (ss : list Swap) → result
        ≡ alpha_under ds (within_left ss unit) (within_right ss (head_term right.entry)) }
{
    let Head::Unit = right else {
        return false;
    };
    true
}

/// Whether a head is a name that means within binders what another does that is compared with it.
fn is_name_alike(binders: &Binders, a: Name, right: Head<'_>) -> bool
    requires { AreBinders binders.now }
    ensures { (ds : Conds) → result ≡ alpha_under ds
        (within_left binders.now.pairs.items (name a))
        (within_right binders.now.pairs.items (head_term right.entry)) }
{
    let Head::Name(b) = right else {
        return false;
    };
    binders.mean_same(a, b)
}

/// Compares a suspension with a head within binders.
fn is_suspension_alike(
    alloc: Global,
    answer: &IndexedAnswer<'_>,
    binders: &Binders,
    p: &[Swap],
    x: Var,
    right: Head<'_>,
) -> Result<bool, Memory>
    requires { AreBinders binders.now }
    ensures { IfOk result (λ yes. yes ≡ alpha_under answer.now.conds
        (within_left binders.now.pairs.items (susp p.now x))
        (within_right binders.now.pairs.items (head_term right.entry))) }
{
    let Head::Susp(q, y) = right else {
        return Ok(false);
    };
    are_suspended_alike(alloc, answer, binders, p, x, &q, y)
}

/// Compares a pair with a head: the parts of both come next.
fn compare_pairs<'a>(
    walk: &mut Comparison<'a>,
    t: Closure<'a>,
    u: Closure<'a>,
    right: Head<'a>,
) -> Result<bool, Memory>
    requires within { AreWithin mark_of (length walk.old.binders.pairs.items)
        (reverse walk.old.pending.items) }
    requires found { AreBinders walk.old.binders }
    ensures tested { IfOk result (λ yes. (ds : Conds) (c : Compared) →
        scoped_term c.left ≡ pair (scoped_term t.entry) (scoped_term u.entry) →
        scoped_term c.right ≡ head_term right.entry →
        IsTestedThere mark_of (are_alike ds) compared_size c
        walk.old.binders.pairs.items walk.old.pending.items
        walk.new.binders.pairs.items walk.new.pending.items yes) }
    ensures found { OnOk result (AreBinders walk.new.binders) }
    ensures of { OnOk result ((ts : table) → IsClosureIn ts t.entry → IsClosureIn ts u.entry →
        IsHeadIn ts right.entry → All (IsComparedIn ts) walk.old.pending.items →
        All (IsComparedIn ts) walk.new.pending.items) }
{
    let Head::Pair(v, w) = right else {
        return Ok(false);
    };
    walk.put(u, w)?;
    walk.put(t, v)?;
    Ok(true)
}

/// Compares an application with a head: the arguments of both come next.
fn compare_apps<'a>(
    walk: &mut Comparison<'a>,
    f: u32,
    t: Closure<'a>,
    right: Head<'a>,
) -> Result<bool, Memory>
    requires within { AreWithin mark_of (length walk.old.binders.pairs.items)
        (reverse walk.old.pending.items) }
    requires found { AreBinders walk.old.binders }
    ensures tested { IfOk result (λ yes. (ds : Conds) (c : Compared) →
        scoped_term c.left ≡ app f (scoped_term t.entry) →
        scoped_term c.right ≡ head_term right.entry →
        IsTestedThere mark_of (are_alike ds) compared_size c
        walk.old.binders.pairs.items walk.old.pending.items
        walk.new.binders.pairs.items walk.new.pending.items yes) }
    ensures found { OnOk result (AreBinders walk.new.binders) }
    ensures of { OnOk result ((ts : table) → IsClosureIn ts t.entry →
        IsHeadIn ts right.entry → All (IsComparedIn ts) walk.old.pending.items →
        All (IsComparedIn ts) walk.new.pending.items) }
{
    let Head::App(g, u) = right else {
        return Ok(false);
    };
    if f != g {
        return Ok(false);
    }
    walk.put(t, u)?;
    Ok(true)
}

/// Compares an abstraction with a head: the bodies of both come next.
fn compare_abstractions<'a>(
    walk: &mut Comparison<'a>,
    a: Name,
    t: Closure<'a>,
    right: Head<'a>,
) -> Result<bool, Memory>
    requires within { AreWithin mark_of (length walk.old.binders.pairs.items)
        (reverse walk.old.pending.items) }
    requires found { AreBinders walk.old.binders }
    ensures tested { IfOk result (λ yes. (ds : Conds) (c : Compared) →
        scoped_term c.left ≡ abs a (scoped_term t.entry) →
        scoped_term c.right ≡ head_term right.entry →
        IsTestedThere mark_of (are_alike ds) compared_size c
        walk.old.binders.pairs.items walk.old.pending.items
        walk.new.binders.pairs.items walk.new.pending.items yes) }
    ensures found { OnOk result (AreBinders walk.new.binders) }
    ensures of { OnOk result ((ts : table) → IsClosureIn ts t.entry →
        IsHeadIn ts right.entry → All (IsComparedIn ts) walk.old.pending.items →
        All (IsComparedIn ts) walk.new.pending.items) }
{
    match right {
        Head::Abs(b, u) => compare_bodies(walk, (a, b), t, u),
        _ => Ok(false),
    }
}

/// Compares the heads of two terms within binders: their parts come next.
fn compare_heads<'a>(
    alloc: Global,
    answer: &IndexedAnswer<'_>,
    walk: &mut Comparison<'a>,
    at: &Compared<'a>,
) -> Result<bool, Memory>
    requires within { AreWithin mark_of (length walk.old.binders.pairs.items)
        (reverse walk.old.pending.items) }
    requires found { AreBinders walk.old.binders }
    ensures tested { IfOk result (λ yes.
        IsTestedThere mark_of (are_alike answer.now.conds) compared_size at.now
        walk.old.binders.pairs.items walk.old.pending.items
        walk.new.binders.pairs.items walk.new.pending.items yes) }
    ensures found { OnOk result (AreBinders walk.new.binders) }
    ensures of { OnOk result ((ts : table) → IsComparedIn ts at.now →
        All (IsComparedIn ts) walk.old.pending.items →
        All (IsComparedIn ts) walk.new.pending.items) }
{
    let left = head_at(alloc, &at.left)?;
    let right = head_at(alloc, &at.right)?;
    match left {
        Head::Unit => Ok(is_unit(right)),
        Head::Name(a) => Ok(is_name_alike(&walk.binders, a, right)),
        Head::Susp(p, x) => is_suspension_alike(alloc, answer, &walk.binders, &p, x, right),
        Head::Pair(t, u) => compare_pairs(walk, t, u, right),
        Head::App(f, t) => compare_apps(walk, f, t, right),
        Head::Abs(a, t) => compare_abstractions(walk, a, t, right),
    }
}

/// Compares two terms of a table within binders. Where none stands round them, the term of one line equals
/// itself; else their heads are compared.
fn compare<'a>(
    alloc: Global,
    answer: &IndexedAnswer<'_>,
    terms: &SharedTerms,
    walk: &mut Comparison<'a>,
    at: Compared<'a>,
) -> Result<bool, Memory>
    requires within { AreWithin mark_of (length walk.old.binders.pairs.items)
        (reverse walk.old.pending.items) }
    requires found { AreBinders walk.old.binders }
    requires of { IsComparedIn terms.now at }
    requires others { All (IsComparedIn terms.now) walk.old.pending.items }
    ensures tested { IfOk result (λ yes.
        IsTestedThere mark_of (are_alike answer.now.conds) compared_size at.entry
        walk.old.binders.pairs.items walk.old.pending.items
        walk.new.binders.pairs.items walk.new.pending.items yes) }
    ensures found { OnOk result (AreBinders walk.new.binders) }
    ensures of { OnOk result (All (IsComparedIn terms.now) walk.new.pending.items) }
{
    let Compared { left, right, mark } = at;
    let left = settled(alloc, left)?;
    let right = settled(alloc, right)?;
    if walk.binders.pairs.is_empty() && is_same_line(&left, &right) {
        return Ok(true);
    }
    compare_heads(alloc, answer, walk, &Compared { left, right, mark })
}

/// Whether all terms that are left to compare are equal, each two within their binders.
fn are_all_equal(
    alloc: Global,
    answer: &IndexedAnswer<'_>,
    terms: &SharedTerms,
    walk: &mut Comparison<'_>,
) -> Result<bool, Memory>
    requires within { AreWithin mark_of (length walk.old.binders.pairs.items)
        (reverse walk.old.pending.items) }
    requires found { AreBinders walk.old.binders }
    requires of { All (IsComparedIn terms.now) walk.old.pending.items }
    ensures { IfOk result (λ yes. yes ≡ all_waiting mark_of (are_alike answer.now.conds)
        walk.old.binders.pairs.items (reverse walk.old.pending.items)) }
{
    'terms: while let Some(next) = walk.pending.pop() {
        walk.binders.truncate(next.mark)?;
        if !compare(alloc, answer, terms, walk, next)? {
            return Ok(false);
        }
    }
    Ok(true)
}

/// Whether the terms of two closures are equal under the answer's conditions. Lines that they cite are of
/// this table.
pub fn are_equal_at(
    alloc: Global,
    answer: &IndexedAnswer<'_>,
    terms: &SharedTerms,
    t: Closure<'_>,
    u: Closure<'_>,
) -> Result<bool, Memory>
    requires left { IsClosureIn terms.now t }
    requires right { IsClosureIn terms.now u }
    ensures { IfOk result (λ yes. yes
        ≡ alpha_under answer.now.conds (scoped_term t.entry) (scoped_term u.entry)) }
{
    let mut walk = Comparison {
        binders: Binders::new(alloc),
        pending: Vec::new(alloc),
    };
    walk.put(t, u)?;
    are_all_equal(alloc, answer, terms, &mut walk)
}

/// Whether the terms of two lines of a table are equal under the answer's conditions. `Err` is want of memory.
pub fn are_equal_under(
    alloc: Global,
    answer: &IndexedAnswer<'_>,
    terms: &SharedTerms,
    t: usize,
    u: usize,
) -> Result<bool, Memory>
    ensures { IfOk result (λ yes. yes ≡ alpha_under answer.now.conds
        (shared_at (shared_terms terms.now) t) (shared_at (shared_terms terms.now) u)) }
{
    let t = Closure::Whole(Cited::Line(Shared { terms, line: t }));
    let u = Closure::Whole(Cited::Line(Shared { terms, line: u }));
    are_equal_at(alloc, answer, terms, t, u)
}
