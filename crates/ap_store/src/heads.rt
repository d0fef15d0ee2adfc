//! What terms begin with.

ghost use Rattle.std.specs.Prelude.{◌≡◌, List, [], Some};
ghost use Rattle.ap_defs.specs.HeadKeys.{head_key};
ghost use Rattle.ap_defs.specs.Substitution.{Binding, under};
ghost use Rattle.ap_defs.specs.Terms.{NominalTerm, susp, term_of};
ghost use Rattle.ap_defs.specs.declared.terms.Var.{Var as variable};
ghost use Rattle.ap_perm.specs.Closures.{closure_term};
ghost use Rattle.ap_store.specs.Founds.{bare_term};
ghost use Rattle.ap_store.specs.Heads.{IsAtHead, IsHeadLook, IsHeadVar, IsLookIn};
ghost use Rattle.ap_store.specs.Likes.{AreAlike, IsAlike};
ghost use Rattle.ap_store.specs.Views.{bindings_of, meaning_in};

use crate::bare::Bare;
use crate::likes::Like;
use crate::occurrences::num_of;
use crate::store::Store;
use ap_defs::terms::{Term, Var};
use ap_perm::closures::Closure;

/// The key of what a term begins with: 0 for a suspension, which may stand for any term, 1 for `()`,
/// 2 for a name, 3 for a pair, 4 for an abstraction, and `5 + f` for the constructor `f`.
pub fn head_key(t: &Term) -> u64
    ensures { result ≡ head_key (term_of t.now) }
{
    match t {
        Term::Susp(_, _) => 0,
        Term::Unit => 1,
        Term::Name(_) => 2,
        Term::Pair(_, _) => 3,
        Term::Abs(_, _, _) => 4,
        Term::App(f, _) => 5 + *f as u64,
    }
}

/// What stands at the head of a term: an unbound variable, or a term that is no suspension.
#[derive(Clone, Copy)]
pub enum Head<'a> {
    Open(Var),
    Form(&'a Term),
}

/// What a look at a variable finds: what stands at the head of what it stands for, or the variable to which it is
/// bound, whatever waits on that.
#[derive(Clone, Copy)]
pub enum HeadLook<'a> {
    Ends(Head<'a>),
    Further(Var),
}

/// What a variable is bound to, looked at. It takes no memory.
fn look_in<'a>(b: Bare<'a>) -> HeadLook<'a>
    ensures { IsLookIn (bare_term b.entry) result }
{
    let _end = b.end;
    match b.term {
        Term::Susp(_, x) => {
            let x = Var {
                num: b.base + x.num,
            };
            HeadLook::Further(x)
        }
        _ => HeadLook::Ends(Head::Form(b.term)),
    }
}

/// A look at a variable. It takes no memory.
fn look_at<'a>(store: &Store<'a>, x: Var) -> HeadLook<'a>
    ensures { IsHeadLook store.now x result }
{
    match store.bare(x) {
        None => HeadLook::Ends(Head::Open(x)),
        Some(b) => look_in(b),
    }
}

/// A variable behind a bound one that stands for a term like its own, if one is kept or it is bound to one. It takes
/// no memory.
fn next_alike(store: &Store<'_>, x: Var) -> Option<Var>
    ensures { (w : variable) → result ≡ Some w →
        AreAlike (under (bindings_of store.now) (susp [] x))
        (under (bindings_of store.now) (susp [] w)) }
{
    match look_at(store, x) {
        HeadLook::Ends(_) => None,
        HeadLook::Further(y) => match store.alike(x) {
            None => Some(y),
            Some(w) => Some(w),
        },
    }
}

/// The last variable behind one that is known to stand for a term like its own. It takes no memory.
fn last_alike(store: &Store<'_>, x: Var) -> Var
    ensures { AreAlike (under (bindings_of store.now) (susp [] x))
        (under (bindings_of store.now) (susp [] result)) }
{
    let mut y = x;
    'following: for _ in 0..store.next() {
        match next_alike(store, y) {
            None => return y,
            Some(further) => y = further,
        }
    }
    y
}

/// What stands at the head of what a variable stands for, which may stand behind many others. It takes no memory.
#[inline(never)]
fn head_behind<'a>(store: &Store<'a>, x: Var) -> Head<'a>
    ensures { IsAtHead (bindings_of store.now) (under (bindings_of store.now) (susp [] x)) result }
{
    let mut y = last_alike(store, x);
    'following: loop {
        match look_at(store, y) {
            HeadLook::Ends(head) => return head,
            HeadLook::Further(further) => y = further,
        }
    }
}

/// What stands at the head of what a variable stands for. It takes no memory.
#[inline(always)]
fn head_at<'a>(store: &Store<'a>, x: Var) -> Head<'a>
    ensures { IsAtHead (bindings_of store.now) (under (bindings_of store.now) (susp [] x)) result }
{
    match look_at(store, x) {
        HeadLook::Ends(head) => head,
        HeadLook::Further(y) => head_behind(store, y),
    }
}

/// What stands at the head of what a closure stands for under the bindings. It takes no memory.
#[inline(always)]
fn head_of<'a>(store: &Store<'a>, c: &Closure<'a>) -> Head<'a>
    ensures { IsAtHead (bindings_of store.now) (meaning_in store.now c.now) result }
{
    let _end = c.end;
    match c.term {
        Term::Susp(_, x) => {
            let x = Var {
                num: c.base + x.num,
            };
            head_at(store, x)
        }
        _ => Head::Form(c.term),
    }
}

/// What is kept beside a variable that is bound to a term like that for which another one stands.
fn like_by_head(w: Var) -> Like
    ensures { (bs : List Binding) (t : NominalTerm) →
        AreAlike (under bs t) (under bs (susp [] w)) → IsAlike result bs t }
{
    match num_of(w) {
        None => Like::Nothing,
        Some(num) => Like::Head(num),
    }
}

/// What is kept beside a variable that is bound to a closure: where a bound variable stands at its head, the last one
/// behind that which is known to stand for a term like its own. So a chain of variables is gone through at once,
/// however many swappings wait along it. It takes no memory.
pub(crate) fn kept_behind(store: &Store<'_>, c: &Closure<'_>) -> Like
    ensures { IsAlike result (bindings_of store.now) (closure_term c.now) }
{
    let _end = c.end;
    match c.term {
        Term::Susp(_, x) => {
            let x = Var {
                num: c.base + x.num,
            };
            let w = last_alike(store, x);
            if w.num == x.num {
                Like::Nothing
            } else {
                like_by_head(w)
            }
        }
        _ => Like::Nothing,
    }
}

impl<'a> Store<'a> {
    /// The key of what a closure stands for under the bindings: 0 where that is a suspension. It takes no
    /// memory.
    #[inline(always)]
    pub fn head_key(&self, c: &Closure<'a>) -> u64
        ensures { result ≡ head_key (meaning_in self.now c.now) }
    {
        match head_of(self, c) {
            Head::Open(_) => 0,
            Head::Form(t) => head_key(t),
        }
    }

    /// The unbound variable at the head of what a closure stands for under the bindings, or none where that is no
    /// suspension. It takes no memory.
    pub fn head_var(&self, c: &Closure<'a>) -> Option<Var>
        ensures { IsHeadVar (bindings_of self.now) (meaning_in self.now c.now) result }
    {
        match head_of(self, c) {
            Head::Open(x) => Some(x),
            Head::Form(_) => None,
        }
    }
}
