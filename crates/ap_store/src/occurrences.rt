//! Occurrences of variables.

ghost use Rattle.std.specs.Prelude.{◌≡◌, ◌==◌, ◌↔◌, ◌⊎◌, ℕ, List, [], true, Some, if◌then◌else◌, IfOk, IsTrue};
ghost use Rattle.ap_defs.specs.Substitution.{Binding, occurs, under};
ghost use Rattle.ap_defs.specs.Terms.{NominalTerm, susp, term_of, unit};
ghost use Rattle.ap_defs.specs.declared.terms.Var.{Var as variable};
ghost use Rattle.ap_store.specs.Founds.{IsOnce, IsSight, IsPartStep, bare_term, does_occur, occurs_in};
ghost use Rattle.ap_store.specs.Likes.{HaveSameVars, IsAlike};
ghost use Rattle.ap_store.specs.Marks.{HasNoVars, IsConstant};
ghost use Rattle.ap_store.specs.Slots.{var_at};
ghost use Rattle.ap_store.specs.Views.{bindings_of, meaning_in};

use crate::bare::Bare;
use crate::beside::occurs_open;
use crate::likes::Like;
use crate::narrow::{Narrowed, narrow_down};
use crate::passed::{Passed, is_passed, pass};
use crate::slots::Found;
use crate::store::Store;
use ap_defs::memory::Memory;
use ap_defs::terms::{Term, Var};
use ap_perm::closures::Closure;
use std::alloc::Global;

/// Whether a variable occurs in a term: it does; it doesn't; no variable stands there at all; it doesn't, and those
/// that stand there are those of one variable; or it doesn't, which took a long look.
#[derive(Clone, Copy)]
pub enum Occurrence {
    Occurs,
    Apart,
    Ground,
    Like(Var),
    Far,
}

impl Occurrence {
    /// Whether the variable occurs.
    pub fn occurs(self) -> bool
        ensures { result ≡ does_occur self }
    {
        matches!(self, Occurrence::Occurs)
    }

    /// Whether no variable stands there.
    pub fn is_ground(self) -> bool
        ensures { IsTrue result ↔ (self ≡ Occurrence.Ground) }
    {
        matches!(self, Occurrence::Ground)
    }

    /// Whether the look was long.
    pub(crate) fn is_far(self) -> bool {
        matches!(self, Occurrence::Far)
    }

    /// Whether nothing is to be kept of the look.
    pub(crate) fn is_plain(self) -> bool {
        matches!(
            self,
            Occurrence::Occurs | Occurrence::Apart | Occurrence::Ground
        )
    }

    /// What is kept beside a variable that is bound to such a term.
    pub(crate) fn like(self) -> Like
        ensures { (bs : List Binding) (t : NominalTerm) →
            ((w : variable) → self ≡ Occurrence.Like w →
            HaveSameVars (under bs t) (under bs (susp [] w))) → IsAlike result bs t }
    {
        match self {
            Occurrence::Like(w) => like_by_vars(w),
            _ => Like::Nothing,
        }
    }
}

/// What is kept beside a variable that is bound to a term with the variables of another one.
fn like_by_vars(w: Var) -> Like
    ensures { (bs : List Binding) (t : NominalTerm) →
        HaveSameVars (under bs t) (under bs (susp [] w)) → IsAlike result bs t }
{
    match num_of(w) {
        None => Like::Nothing,
        Some(num) => Like::Vars(num),
    }
}

/// The number of a variable, if it is so small as each is.
pub(crate) fn num_of(x: Var) -> Option<u32>
    ensures { (n : ℕ) → result ≡ Some n → x ≡ var_at n }
{
    if x.num <= u32::MAX as u64 {
        Some(x.num as u32)
    } else {
        None
    }
}

/// What the occurs check sees of a variable: it is unbound, it stands for a term without variables, or the term of
/// what it is bound to.
#[derive(Clone, Copy)]
pub enum Sight<'a> {
    Unbound,
    Ground,
    Below(Bare<'a>),
}

/// What is seen of a variable. It takes no memory.
pub(crate) fn seen<'a>(store: &Store<'a>, x: Var) -> Sight<'a>
    ensures { IsSight store.now x result }
{
    match store.found(x) {
        Found::Nothing => Sight::Unbound,
        Found::Ground(_) => Sight::Ground,
        Found::Plain(b) => Sight::Below(b),
        Found::Moved(b) => Sight::Below(b),
    }
}

/// What a look that goes through each variable once sees of one: it is unbound; it stands for a term without
/// variables, or was gone through already; or the term of what it is bound to.
#[derive(Clone, Copy)]
pub enum Once<'a> {
    Unbound,
    Nothing,
    Below(Bare<'a>),
}

/// What is seen of a variable by a look that has gone through others. It takes no memory.
fn seen_once<'a>(store: &Store<'a>, passed: &Passed, x: Var) -> Once<'a>
    ensures { IsOnce store.now x passed.now result }
{
    match seen(store, x) {
        Sight::Unbound => Once::Unbound,
        Sight::Ground => Once::Nothing,
        Sight::Below(b) => {
            if is_passed(passed, x) {
                Once::Nothing
            } else {
                Once::Below(b)
            }
        }
    }
}

/// A look that goes through so many bound variables is long.
const FAR: usize = 512;

/// Whether a look was so long that mentions should be kept, and are not.
fn was_long(store: &Store<'_>, passed: &Passed) -> bool {
    passed.count >= FAR && !store.keeps_mentions()
}

/// A variable does not occur where all was looked through; unbound ones may have been seen, and the look may have
/// been long.
fn without(is_open: bool, is_far: bool) -> Occurrence
    ensures { result ≡ (if is_open then (if is_far then Occurrence.Far else Occurrence.Apart)
        else Occurrence.Ground) }
{
    if is_open {
        if is_far {
            Occurrence::Far
        } else {
            Occurrence::Apart
        }
    } else {
        Occurrence::Ground
    }
}

/// What a part begins with, for a look at its variables: it has none; all of it stands in another part; all of it
/// stands in two parts; or it is a suspension of a variable.
#[derive(Clone, Copy)]
pub enum Step<'a> {
    Leaf,
    Inner(Bare<'a>),
    Both(Bare<'a>, Bare<'a>),
    Variable(Var),
}

/// What a part begins with. It takes no memory.
pub(crate) fn step_of<'a>(b: Bare<'a>) -> Step<'a>
    ensures { IsPartStep (bare_term b.entry) result }
{
    let _end = b.end;
    match b.term {
        Term::Unit => Step::Leaf,
        Term::Name(_) => Step::Leaf,
        Term::Pair(left, right) => Step::Both(b.with_term(left), b.with_term(right)),
        Term::App(_, inner) => Step::Inner(b.with_term(inner)),
        Term::Abs(_, _, inner) => Step::Inner(b.with_term(inner)),
        Term::Susp(_, x) => {
            let x = Var {
                num: b.base + x.num,
            };
            Step::Variable(x)
        }
    }
}

/// Whether the variable occurs in what a part stands for. The right parts of pairs wait on a stack while the left
/// ones are looked through, so a term may be deep on either side. Once many variables were gone through they are
/// marked, so that a term which has them in many places takes no longer than one which has them once.
#[tactic(auto, using(crate::proofs::PassedLemmas::left_first))]
pub(crate) fn occurs_below<'a>(
    alloc: Global,
    store: &Store<'a>,
    x: Var,
    first: Bare<'a>,
) -> Result<Occurrence, Memory>
    ensures found { IfOk result (λ o. does_occur o ≡ occurs_in store.now x first.entry) }
    ensures no_vars { IfOk result (λ o. o ≡ Occurrence.Ground →
        HasNoVars (under (bindings_of store.now) (bare_term first.entry))) }
    ensures like { IfOk result (λ o. (w : variable) → (o ≡ Occurrence.Like w → ⊥)) }
{
    let mut is_open = false;
    let mut waiting = Vec::new(alloc);
    let mut passed = Passed::new(alloc);
    let mut here = first;
    'seeking: loop {
        match step_of(here) {
            Step::Leaf => {}
            Step::Inner(inner) => {
                here = inner;
                continue;
            }
            Step::Both(left, right) => {
                waiting.push(right)?;
                here = left;
                continue;
            }
            Step::Variable(y) => match seen_once(store, &passed, y) {
                Once::Below(b) => {
                    pass(alloc, &mut passed, store.next(), y)?;
                    here = b;
                    continue;
                }
                Once::Nothing => {}
                Once::Unbound => {
                    if x.num == y.num {
                        return Ok(Occurrence::Occurs);
                    }
                    is_open = true;
                }
            },
        }
        let Some(next) = waiting.pop() else {
            return Ok(without(is_open, was_long(store, &passed)));
        };
        here = next;
    }
}

/// Whether a variable is the unbound one whose variables are left, and it alone. Where it is another one, this is
/// told if it stands behind bound ones.
fn at_end(x: Var, w: Var, is_behind: bool) -> Occurrence
    ensures { result ≡ (if x.num == w.num then Occurrence.Occurs
        else (if is_behind then Occurrence.Like w else Occurrence.Apart)) }
{
    if x.num == w.num {
        Occurrence::Occurs
    } else if is_behind {
        Occurrence::Like(w)
    } else {
        Occurrence::Apart
    }
}

/// What was found of a variable in a term, whose variables are those of another one, if it is given.
fn told_of(found: Occurrence, like: Option<Var>) -> Occurrence
    ensures found { does_occur result ≡ does_occur found }
    ensures no_vars { result ≡ Occurrence.Ground → found ≡ Occurrence.Ground }
    ensures like { (w : variable) → result ≡ Occurrence.Like w →
        (found ≡ Occurrence.Like w) ⊎ (like ≡ Some w) }
{
    match (found, like) {
        (Occurrence::Apart, Some(w)) => Occurrence::Like(w),
        _ => found,
    }
}

/// Whether a variable occurs in what a part stands for: where it may be in the variables of a single one only, in
/// what that stands for.
#[inline(never)]
fn occurs_in_part<'a>(
    alloc: Global,
    store: &Store<'a>,
    x: Var,
    first: Bare<'a>,
) -> Result<Occurrence, Memory>
    ensures found { IfOk result (λ o. does_occur o ≡ occurs_in store.now x first.entry) }
    ensures no_vars { IfOk result (λ o. o ≡ Occurrence.Ground →
        HasNoVars (under (bindings_of store.now) (bare_term first.entry))) }
    ensures like { IfOk result (λ o. (w : variable) → o ≡ Occurrence.Like w →
        HaveSameVars (under (bindings_of store.now) (bare_term first.entry))
        (under (bindings_of store.now) (susp [] w))) }
{
    match narrow_down(store, first) {
        Narrowed::Ground => Ok(Occurrence::Ground),
        Narrowed::Ends(w, is_behind) => Ok(at_end(x, w, is_behind)),
        Narrowed::Goes(like, b) => {
            let found = occurs_open(alloc, store, x, first, b)?;
            Ok(told_of(found, like))
        }
    }
}

/// Whether a term is the one without parts.
fn is_unit(t: &Term) -> bool
    ensures { IsTrue result ↔ (term_of t.now ≡ unit) }
{
    matches!(t, Term::Unit)
}

/// Whether a term has no variables because it is a name, a constant, or the one without parts. It takes no memory.
fn is_constant(t: &Term) -> bool
    ensures { IsTrue result ↔ IsConstant (term_of t.now) }
{
    match t {
        Term::Unit => true,
        Term::Name(_) => true,
        Term::App(_, argument) => is_unit(argument),
        Term::Pair(_, _) | Term::Abs(_, _, _) | Term::Susp(_, _) => false,
    }
}

impl<'a> Store<'a> {
    /// Whether a variable occurs in what a closure stands for under the bindings. A constant has no variables, and a
    /// new variable stands nowhere: then it looks no further. It takes memory where a left part of a pair is looked
    /// through alone.
    #[inline(always)]
    pub fn occurs(&self, alloc: Global, x: Var, c: &Closure<'a>) -> Result<Occurrence, Memory>
        ensures found { IfOk result (λ o. does_occur o ≡ occurs x (meaning_in self.now c.now)) }
        ensures no_vars { IfOk result (λ o. o ≡ Occurrence.Ground →
            HasNoVars (meaning_in self.now c.now)) }
        ensures like { IfOk result (λ o. (w : variable) → o ≡ Occurrence.Like w →
            HaveSameVars (meaning_in self.now c.now) (under (bindings_of self.now) (susp [] w))) }
    {
        if is_constant(c.term) {
            return Ok(Occurrence::Ground);
        }
        if self.is_new(x, c) {
            return Ok(Occurrence::Apart);
        }
        let first = Bare {
            base: c.base,
            end: c.end,
            term: c.term,
        };
        let found = occurs_in_part(alloc, self, x, first)?;
        Ok(found)
    }
}
