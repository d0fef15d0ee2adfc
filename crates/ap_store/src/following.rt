//! Closures whose head is no bound variable.

ghost use Rattle.std.specs.Prelude.{◌≡◌, ◌++◌, ◌^◌, IfNone, IfOk, map};
ghost use Rattle.ap_defs.specs.Renaming.{AreSwapsBelow, IsBelow, rename_swap, rename_term};
ghost use Rattle.ap_defs.specs.Terms.{act_term, term_of};
ghost use Rattle.ap_perm.specs.Closures.{closure_term};
ghost use Rattle.ap_store.specs.Heads.{IsHeadUnbound, IsHeadStep};
ghost use Rattle.ap_store.specs.Views.{bindings_of, meaning_in, present, rank};

use crate::store::Store;
use ap_defs::memory::Memory;
use ap_defs::terms::{Swap, Term, Var};
use ap_perm::closures::{Closure, Lent};
use ap_perm::joining::with_numbered;

/// As many swappings wait on a closure that is kept as waited on the one for which it stands, or this many.
const FEW: usize = 64;

/// A closure that is followed: no bound variable stands at its head, or what is bound to the variable there
/// stands for it.
#[derive(Drop)]
pub enum Followed<'a> {
    Ended(Closure<'a>),
    Further(Closure<'a>),
}

/// The closure to which the variable of a suspension is bound, with the swappings of the suspension outside its
/// own ones.
fn gone_on<'a>(c: Closure<'a>, q: &[Swap], bound: Lent<'_, 'a>) -> Result<Closure<'a>, Memory>
    requires { AreSwapsBelow (2 ^ 64) (map (rename_swap c.base) q.now) }
    ensures { IfOk result (λ d. closure_term d ≡ act_term
        ((c.entry.swaps.items ++ map (rename_swap c.entry.base) q.now) ++ bound.entry.swaps.now)
        (rename_term bound.entry.base (term_of bound.entry.term.now))) }
{
    let Closure { swaps, base, .. } = c;
    let mut waiting = with_numbered(swaps, base, q)?;
    waiting.extend_from_slice(bound.swaps)?;
    Ok(Closure {
        swaps: waiting,
        base: bound.base,
        end: bound.end,
        term: bound.term,
    })
}

/// Follows a bound variable at the head of a closure, if one stands there.
fn step<'a>(store: &Store<'a>, c: Closure<'a>) -> Result<Followed<'a>, Memory>
    ensures { IfOk result (λ s. IsHeadStep (present store.now) (rank store.now)
        (closure_term c.entry) s) }
{
    let _end = c.end;
    match c.term {
        Term::Unit => Ok(Followed::Ended(c)),
        Term::Name(_) => Ok(Followed::Ended(c)),
        Term::Pair(_, _) => Ok(Followed::Ended(c)),
        Term::App(_, _) => Ok(Followed::Ended(c)),
        Term::Abs(_, _, _) => Ok(Followed::Ended(c)),
        Term::Susp(q, x) => {
            let x = Var {
                num: c.base + x.num,
            };
            match store.binding(x) {
                None => Ok(Followed::Ended(c)),
                Some(bound) => Ok(Followed::Further(gone_on(c, q.items(), bound)?)),
            }
        }
    }
}

/// How many swappings wait on what is bound to the variable at the head of a closure, or none where no bound
/// variable stands there.
fn waiting_at_head(store: &Store<'_>, c: &Closure<'_>) -> Option<usize>
    ensures { IfNone result (IsHeadUnbound (bindings_of store.now) (closure_term c.now)) }
{
    let _end = c.end;
    match c.term {
        Term::Unit => None,
        Term::Name(_) => None,
        Term::Pair(_, _) => None,
        Term::App(_, _) => None,
        Term::Abs(_, _, _) => None,
        Term::Susp(_, x) => {
            let x = Var {
                num: c.base + x.num,
            };
            match store.binding(x) {
                None => None,
                Some(bound) => Some(bound.swaps.len()),
            }
        }
    }
}

impl<'a> Store<'a> {
    /// A closure that stands for the same term under the bindings, and whose head is no bound
    /// variable.
    pub fn follow(&self, c: Closure<'a>) -> Result<Closure<'a>, Memory>
        ensures term { IfOk result (λ d. meaning_in self.now d
            ≡ meaning_in self.now c.entry) }
        ensures head { IfOk result (λ d. IsHeadUnbound (bindings_of self.now)
            (closure_term d)) }
        ensures below { IfOk result (λ d. IsBelow (present self.now).next (closure_term c.entry) →
            IsBelow (present self.now).next (closure_term d)) }
    {
        let mut closure = c;
        'following: loop {
            match step(self, closure)? {
                Followed::Ended(head) => return Ok(head),
                Followed::Further(further) => closure = further,
            }
        }
    }

    /// A closure that stands for the same term under the bindings: those at its head are followed as long as few
    /// swappings wait. So what is bound to it takes little memory, however long a chain of bindings may be.
    pub fn shortened(&self, c: Closure<'a>) -> Result<Closure<'a>, Memory>
        ensures term { IfOk result (λ d. meaning_in self.now d
            ≡ meaning_in self.now c.entry) }
        ensures below { IfOk result (λ d. IsBelow (present self.now).next (closure_term c.entry) →
            IsBelow (present self.now).next (closure_term d)) }
    {
        let most = c.swaps.len().max(FEW);
        let mut closure = c;
        'following: while let Some(waiting) = waiting_at_head(self, &closure) {
            if waiting > most.saturating_sub(closure.swaps.len()) {
                return Ok(closure);
            }
            match step(self, closure)? {
                Followed::Ended(head) => return Ok(head),
                Followed::Further(further) => closure = further,
            }
        }
        Ok(closure)
    }
}
