//! Terms in which the variables of one variable are left alone, so that a look goes on there.

ghost use Rattle.std.specs.Prelude.{◌≡◌, List, [], MatchOption};
ghost use Rattle.ap_defs.specs.Substitution.{Binding, under};
ghost use Rattle.ap_defs.specs.Terms.{NominalTerm, pair, susp};
ghost use Rattle.ap_store.specs.Founds.{bare_term};
ghost use Rattle.ap_store.specs.Likes.{HaveSameVars};
ghost use Rattle.ap_store.specs.Marks.{HasNoVars};
ghost use Rattle.ap_store.specs.Narrow.{IsAlone, IsNarrowed, is_several};
ghost use Rattle.ap_store.specs.Views.{bindings_of};

use crate::bare::Bare;
use crate::occurrences::{Sight, seen};
use crate::slots::Found;
use crate::store::Store;
use ap_defs::terms::{Term, Var};

/// The variables that are left in a term: none, or those of one variable; where more are met, it is not known.
#[derive(Clone, Copy)]
pub enum Alone {
    Nothing,
    One(Var),
    Several,
}

impl Alone {
    /// Whether more than one variable was met.
    fn is_several(self) -> bool
        ensures { result ≡ is_several self }
    {
        matches!(self, Alone::Several)
    }
}

/// What is left to look at of a term: nothing where it has no variables; an unbound variable, behind a bound one or
/// not; or another term with the same variables, which are those of a variable, if one is given.
#[derive(Clone, Copy)]
pub enum Narrowed<'a> {
    Ground,
    Ends(Var, bool),
    Goes(Option<Var>, Bare<'a>),
}

/// A variable with the same variables as another one, as far as they are kept, or none where no variables are left.
/// It takes no memory.
fn last_like(store: &Store<'_>, x: Var) -> Option<Var>
    ensures { MatchOption result (HasNoVars (under (bindings_of store.now) (susp [] x)))
        (λ w. HaveSameVars (under (bindings_of store.now) (susp [] x))
        (under (bindings_of store.now) (susp [] w))) }
{
    let mut y = x;
    'following: for _ in 0..store.next() {
        match store.found(y) {
            Found::Nothing => return Some(y),
            Found::Ground(_) => return None,
            Found::Plain(_) | Found::Moved(_) => match store.like(y) {
                None => return Some(y),
                Some(further) => y = further,
            },
        }
    }
    Some(y)
}

/// The variables that are left in what a variable stands for. It takes no memory.
fn alone_of(store: &Store<'_>, x: Var) -> Alone
    ensures { IsAlone (bindings_of store.now) (susp [] x) result }
{
    match last_like(store, x) {
        None => Alone::Nothing,
        Some(w) => Alone::One(w),
    }
}

/// The variables that are left in a part without pairs; of others it is not known. It takes no memory.
fn alone_in_branch(store: &Store<'_>, b: Bare<'_>) -> Alone
    ensures { IsAlone (bindings_of store.now) (bare_term b.entry) result }
{
    let base = b.base;
    let _end = b.end;
    let mut rest = b.term;
    'descending: loop {
        match rest {
            Term::Unit | Term::Name(_) => return Alone::Nothing,
            Term::Pair(_, _) => return Alone::Several,
            Term::App(_, inner) | Term::Abs(_, _, inner) => rest = inner,
            Term::Susp(_, x) => {
                return alone_of(store, Var { num: base + x.num });
            }
        }
    }
}

/// The variables that are left in either of two terms.
fn both(left: Alone, right: Alone) -> Alone
    ensures { (bs : List Binding) (t u : NominalTerm) →
        IsAlone bs t left → IsAlone bs u right → IsAlone bs (pair t u) result }
{
    match (left, right) {
        (Alone::Nothing, _) => right,
        (_, Alone::Nothing) => left,
        (Alone::One(v), Alone::One(w)) => { if v.num == w.num { left } else { Alone::Several } }
        _ => Alone::Several,
    }
}

/// The variables that are left in a term, whose left parts have no pairs; of others it is not known. It takes no
/// memory.
fn alone_in(store: &Store<'_>, b: Bare<'_>) -> Alone
    ensures { IsAlone (bindings_of store.now) (bare_term b.entry) result }
{
    let Bare { base, end, .. } = b;
    let mut rest = b.term;
    let mut so_far = Alone::Nothing;
    'scanning: loop {
        match rest {
            Term::App(_, inner) | Term::Abs(_, _, inner) => rest = inner,
            Term::Pair(left, right) => {
                let here = Bare {
                    base,
                    end,
                    term: left,
                };
                let joined = both(so_far, alone_in_branch(store, here));
                if joined.is_several() {
                    return Alone::Several;
                }
                so_far = joined;
                rest = right;
            }
            _ => {
                let here = Bare {
                    base,
                    end,
                    term: rest,
                };
                return both(so_far, alone_in_branch(store, here));
            }
        }
    }
}

/// What is left to look at of a term, where no more than one variable is left in it and in what this is bound to. No
/// variable comes twice there, so the turns suffice. It takes no memory.
pub fn narrow_down<'a>(store: &Store<'a>, first: Bare<'a>) -> Narrowed<'a>
    ensures { IsNarrowed store.now (bare_term first.entry) result }
{
    let mut b = first;
    let mut like = None;
    'narrowing: for _ in 0..store.next() {
        match alone_in(store, b) {
            Alone::Nothing => return Narrowed::Ground,
            Alone::Several => return Narrowed::Goes(like, b),
            Alone::One(w) => match seen(store, w) {
                Sight::Ground => return Narrowed::Ground,
                Sight::Unbound => return Narrowed::Ends(w, like.is_some()),
                Sight::Below(further) => {
                    b = further;
                    like = Some(w);
                }
            },
        }
    }
    Narrowed::Goes(like, b)
}
