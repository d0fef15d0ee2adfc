//! Terms in the scope of a node of a derivation, as closures that are looked at head by head.
//!
//! What stands for an identifier is as large as whoever made the derivation wants, and stands in a goal as
//! often as the program names it. So it isn't copied: a term with it put in is the term of the program with
//! what stands there beside it, and each part of it is one again.

ghost use Rattle.std.specs.Prelude.{◌≡◌, true, IfOk};
ghost use Rattle.ap_defs.specs.Terms.{act_term, pair, susp, term_of};
ghost use Rattle.ap_checks.specs.OpenEnvironments.{put_in};
ghost use Rattle.ap_judge.specs.Cited.{cited_term};
ghost use Rattle.ap_judge.specs.Closures.{head_term, scoped_term};
ghost use Rattle.ap_judge.specs.Scopes.{environment_of};
ghost use Rattle.ap_judge.specs.Tables.{AreStandingIn, IsCitedIn, IsClosureIn, IsHeadIn};
ghost use Rattle.ap_shared.specs.declared.arena.SharedTerms.{SharedTerms as table};

use crate::cited::{Cited, Layer, layer_of};
use crate::scope::{Standing, name_in, put_swaps, term_in};
use crate::swappings::image;
use ap_defs::memory::Memory;
use ap_defs::terms::{Name, Swap, Term, Var};
use std::alloc::Global;
use std::rc::Rc;

/// What stands for identifiers at a node.
#[derive(Clone, Copy)]
pub struct Scope<'a> {
    pub standing: &'a [Standing<'a>],
}

/// A closure: a term, and what is still to be put into it.
#[derive(Drop)]
pub enum Closure<'a> {
    /// The term itself.
    Whole(Cited<'a>),
    /// The term of an item, with what stands there for its identifiers put in.
    Within(Scope<'a>, &'a Term),
    /// The term, on which swappings act.
    Moved(Rc<Vec<Swap>>, Cited<'a>),
}

/// Terms of an item, with what stands there for its identifiers put in.
#[derive(Clone, Copy)]
pub struct ScopedTerms<'a> {
    pub scope: Scope<'a>,
    pub terms: &'a [Term],
}

/// The head of a closure, with the parts below it.
#[derive(Drop)]
pub enum Head<'a> {
    Unit,
    Name(Name),
    Pair(Closure<'a>, Closure<'a>),
    App(u32, Closure<'a>),
    Abs(Name, Closure<'a>),
    Susp(Vec<Swap>, Var),
}

/// The head of a term itself.
fn head_of<'a>(alloc: Global, t: Cited<'a>) -> Result<Head<'a>, Memory>
    ensures term { IfOk result (λ h. head_term h ≡ cited_term t.entry) }
    ensures of { IfOk result (λ h. (ts : table) → IsCitedIn ts t.entry → IsHeadIn ts h) }
{
    match layer_of(t) {
        Layer::Unit => Ok(Head::Unit),
        Layer::Name(a) => Ok(Head::Name(a)),
        Layer::Susp(swaps, x) => Ok(Head::Susp(swaps.to_vec(alloc)?, x)),
        Layer::Pair(left, right) => Ok(Head::Pair(Closure::Whole(left), Closure::Whole(right))),
        Layer::App(f, argument) => Ok(Head::App(f, Closure::Whole(argument))),
        Layer::Abs(a, body) => Ok(Head::Abs(a, Closure::Whole(body))),
    }
}

/// A suspension on which swappings act: they wait in front of its own.
fn moved_suspension<'a>(
    alloc: Global,
    swaps: &[Swap],
    more: &[Swap],
    x: Var,
) -> Result<Head<'a>, Memory>
    ensures term { IfOk result (λ h. head_term h ≡ act_term swaps.now (susp more.now x)) }
    ensures of { IfOk result (λ h. (ts : table) → IsHeadIn ts h) }
{
    let mut all = swaps.to_vec(alloc)?;
    all.extend_from_slice(more)?;
    Ok(Head::Susp(all, x))
}

/// A term on which swappings act, which are shared.
fn moved<'a>(swaps: &Rc<Vec<Swap>>, t: Cited<'a>) -> Result<Closure<'a>, Memory>
    ensures term { IfOk result (λ u.
        scoped_term u ≡ act_term swaps.now.value.items (cited_term t.entry)) }
    ensures of { IfOk result (λ u. (ts : table) → IsCitedIn ts t.entry → IsClosureIn ts u) }
{
    Ok(Closure::Moved(swaps.clone()?, t))
}

/// The head of a pair on which swappings act.
fn moved_pair<'a>(
    swaps: &Rc<Vec<Swap>>,
    left: Cited<'a>,
    right: Cited<'a>,
) -> Result<Head<'a>, Memory>
    ensures term { IfOk result (λ h. head_term h
        ≡ act_term swaps.now.value.items
        (pair (cited_term left.entry) (cited_term right.entry))) }
    ensures of { IfOk result (λ h. (ts : table) → IsCitedIn ts left.entry →
        IsCitedIn ts right.entry → IsHeadIn ts h) }
{
    let left = moved(swaps, left)?;
    let right = moved(swaps, right)?;
    Ok(Head::Pair(left, right))
}

/// The head of a term on which swappings act.
fn moved_head<'a>(alloc: Global, swaps: &Rc<Vec<Swap>>, t: Cited<'a>) -> Result<Head<'a>, Memory>
    ensures term { IfOk result (λ h.
        head_term h ≡ act_term swaps.now.value.items (cited_term t.entry)) }
    ensures of { IfOk result (λ h. (ts : table) → IsCitedIn ts t.entry → IsHeadIn ts h) }
{
    match layer_of(t) {
        Layer::Unit => Ok(Head::Unit),
        Layer::Name(a) => Ok(Head::Name(image(swaps, a))),
        Layer::Susp(more, x) => moved_suspension(alloc, swaps, more, x),
        Layer::Pair(left, right) => moved_pair(swaps, left, right),
        Layer::App(f, argument) => Ok(Head::App(f, moved(swaps, argument)?)),
        Layer::Abs(a, body) => Ok(Head::Abs(image(swaps, a), moved(swaps, body)?)),
    }
}

/// The head of a term on which swappings act, if there are any.
#[tactic(auto, using(crate::proofs::HeadLemmas::unmoved))]
fn head_moved_by<'a>(alloc: Global, swaps: Vec<Swap>, t: Cited<'a>) -> Result<Head<'a>, Memory>
    ensures term { IfOk result (λ h. head_term h ≡ act_term swaps.items (cited_term t.entry)) }
    ensures of { IfOk result (λ h. (ts : table) → IsCitedIn ts t.entry → IsHeadIn ts h) }
{
    if swaps.is_empty() {
        return head_of(alloc, t);
    }
    let swaps = Rc::new(alloc, swaps)?;
    moved_head(alloc, &swaps, t)
}

/// The head of what stands for a suspended variable.
fn suspended_head<'a>(
    alloc: Global,
    scope: Scope<'a>,
    swaps: &[Swap],
    x: Var,
) -> Result<Head<'a>, Memory>
    ensures term { IfOk result (λ h. head_term h
        ≡ put_in (environment_of scope.entry.standing.now) (susp swaps.now x)) }
    ensures of { IfOk result (λ h. (ts : table) →
        AreStandingIn ts scope.entry.standing.now → IsHeadIn ts h) }
{
    let Some(t) = term_in(scope.standing, x) else {
        return Ok(Head::Unit);
    };
    let swaps = put_swaps(alloc, scope.standing, swaps)?;
    head_moved_by(alloc, swaps, t)
}

/// The head of a term of an item, with what stands there for its identifiers put in.
fn head_within<'a>(alloc: Global, scope: Scope<'a>, t: &'a Term) -> Result<Head<'a>, Memory>
    ensures term { IfOk result (λ h. head_term h
        ≡ put_in (environment_of scope.entry.standing.now) (term_of t.now)) }
    ensures of { IfOk result (λ h. (ts : table) →
        AreStandingIn ts scope.entry.standing.now → IsHeadIn ts h) }
{
    match t {
        Term::Unit => Ok(Head::Unit),
        Term::Name(a) => Ok(Head::Name(name_in(scope.standing, *a))),
        Term::Susp(swaps, x) => suspended_head(alloc, scope, swaps.items(), *x),
        Term::Pair(left, right) => {
            let left = Closure::Within(scope, left);
            Ok(Head::Pair(left, Closure::Within(scope, right)))
        }
        Term::App(f, argument) => Ok(Head::App(*f, Closure::Within(scope, argument))),
        Term::Abs(sort, num, body) => {
            let a = Name {
                sort: *sort,
                num: *num,
            };
            let a = name_in(scope.standing, a);
            Ok(Head::Abs(a, Closure::Within(scope, body)))
        }
    }
}

/// The head of a closure.
pub fn head_at<'a>(alloc: Global, t: &Closure<'a>) -> Result<Head<'a>, Memory>
    ensures term { IfOk result (λ h. head_term h ≡ scoped_term t.now) }
    ensures of { IfOk result (λ h. (ts : table) → IsClosureIn ts t.now → IsHeadIn ts h) }
{
    match t {
        Closure::Whole(t) => head_of(alloc, *t),
        Closure::Within(scope, t) => head_within(alloc, *scope, t),
        Closure::Moved(swaps, t) => moved_head(alloc, swaps, *t),
    }
}

/// A term on which swappings act, if there are any.
#[tactic(auto, using(crate::proofs::HeadLemmas::unmoved))]
fn moved_by<'a>(alloc: Global, swaps: Vec<Swap>, t: Cited<'a>) -> Result<Closure<'a>, Memory>
    ensures term { IfOk result (λ u. scoped_term u ≡ act_term swaps.items (cited_term t.entry)) }
    ensures of { IfOk result (λ u. (ts : table) → IsCitedIn ts t.entry → IsClosureIn ts u) }
{
    if swaps.is_empty() {
        return Ok(Closure::Whole(t));
    }
    Ok(Closure::Moved(Rc::new(alloc, swaps)?, t))
}

/// A term of an item, where it is a variable with what stands for that put there.
fn settled_within<'a>(alloc: Global, scope: Scope<'a>, t: &'a Term) -> Result<Closure<'a>, Memory>
    ensures term { IfOk result (λ u. scoped_term u
        ≡ put_in (environment_of scope.entry.standing.now) (term_of t.now)) }
    ensures of { IfOk result (λ u. (ts : table) →
        AreStandingIn ts scope.entry.standing.now → IsClosureIn ts u) }
{
    let Term::Susp(swaps, x) = t else {
        return Ok(Closure::Within(scope, t));
    };
    let Some(found) = term_in(scope.standing, *x) else {
        return Ok(Closure::Within(scope, t));
    };
    let swaps = put_swaps(alloc, scope.standing, swaps.items())?;
    moved_by(alloc, swaps, found)
}

/// The closure, where it is a variable with what stands for that put there.
pub(crate) fn settled<'a>(alloc: Global, t: Closure<'a>) -> Result<Closure<'a>, Memory>
    ensures term { IfOk result (λ u. scoped_term u ≡ scoped_term t.entry) }
    ensures of { IfOk result (λ u. (ts : table) → IsClosureIn ts t.entry → IsClosureIn ts u) }
{
    match t {
        Closure::Within(scope, t) => settled_within(alloc, scope, t),
        Closure::Whole(t) => Ok(Closure::Whole(t)),
        Closure::Moved(swaps, t) => Ok(Closure::Moved(swaps, t)),
    }
}

/// Whether both are the term of one line.
pub(crate) fn is_same_line(t: &Closure<'_>, u: &Closure<'_>) -> bool
    ensures { result ≡ true → (ts : table) → IsClosureIn ts t.now → IsClosureIn ts u.now →
        scoped_term t.now ≡ scoped_term u.now }
{
    match (t, u) {
        (Closure::Whole(Cited::Line(t)), Closure::Whole(Cited::Line(u))) => t.line == u.line,
        _ => false,
    }
}
