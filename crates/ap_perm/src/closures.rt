//! Closures: terms of a program or a query that are shared instead of copied (Boyer and Moore, "The
//! sharing of structure in theorem-proving programs").

ghost use Rattle.std.specs.Prelude.{◌≡◌, ◌+◌, ◌<◌, ◌^◌, IfSome};
ghost use Rattle.ap_defs.specs.Permutations.{act_name};
ghost use Rattle.ap_defs.specs.Renaming.{IsBelow, rename_name, rename_term};
ghost use Rattle.ap_defs.specs.Terms.{term_of};
ghost use Rattle.ap_perm.specs.BelowProps.{below_prop};

use crate::joining::{copied, joined, numbered, with_numbered};
use crate::swappings::image;
use ap_defs::memory::Memory;
use ap_defs::terms::{Name, Swap, Term, Var};
use std::alloc::Global;

/// A term whose identifiers are numbered from `base` on, below `end`, and a list of swappings that
/// waits to act on it, the first outermost. Contracts see it as the nominal term that this makes.
#[derive(Drop)]
pub struct Closure<'a> {
    pub swaps: Vec<Swap>,
    pub base: u64,
    pub end: u64,
    pub term: &'a Term,
    pub ghost below: { IsBelow end (rename_term base (term_of term.now)) } by { below_prop end (rename_term base (term_of term.now)) },
}

/// A closure whose swappings are lent, so that it is copied where it is moved. Contracts see it as the
/// nominal term that this makes.
#[derive(Clone, Copy)]
pub struct Lent<'s, 'a> {
    pub swaps: &'s [Swap],
    pub base: u64,
    pub end: u64,
    pub term: &'a Term,
    pub ghost below: { IsBelow end (rename_term base (term_of term.now)) } by { below_prop end (rename_term base (term_of term.now)) },
}

/// The head of a closure, and the closures of its parts. A suspension has all its swappings joined.
#[derive(Drop)]
pub enum Opened<'a> {
    Unit,
    Name(Name),
    Pair(Closure<'a>, Closure<'a>),
    App(u32, Closure<'a>),
    Abs(Name, Closure<'a>),
    Susp(Vec<Swap>, Var),
}

/// From where a name has to be numbered to be what swappings make of it, or none where its number is less
/// than that, or no number is greater.
#[tactic(auto, using(crate::proofs::ClosureLemmas::settled_name))]
fn settled_base(swaps: &[Swap], base: u64, a: Name) -> Option<u64>
    requires { base + a.num < 2 ^ 64 }
    ensures name { IfSome result (λ b. rename_name b a
        ≡ act_name swaps.now (rename_name base a)) }
    ensures fits { IfSome result (λ b. b + a.num + 1 < 2 ^ 64) }
{
    let moved = image(swaps, numbered(base, a));
    if a.num <= moved.num && moved.num < u64::MAX {
        Some(moved.num - a.num)
    } else {
        None
    }
}

impl<'a> Closure<'a> {
    ghost use Rattle.std.specs.Prelude.{◌≡◌, IfOk};
    ghost use Rattle.ap_defs.specs.Renaming.{IsBelow, rename_term};
    ghost use Rattle.ap_defs.specs.Terms.{act_term, pair, term_of};
    ghost use Rattle.ap_perm.specs.Closures.{closure_term, lent_term, opened_term};

    /// The term with its identifiers numbered from `base` on, all of them below `end`. It takes no
    /// memory.
    pub fn of(alloc: Global, base: u64, end: u64, term: &'a Term) -> Closure<'a>
        requires { IsBelow end (rename_term base (term_of term.now)) }
        ensures { closure_term result ≡ rename_term base (term_of term.now) }
    {
        Closure {
            swaps: Vec::new(alloc),
            base,
            end,
            term,
        }
    }

    /// The closure, with its swappings lent. It takes no memory.
    pub fn lent(&self) -> Lent<'_, 'a>
        ensures { lent_term result ≡ closure_term self.now }
    {
        Lent {
            swaps: &self.swaps,
            base: self.base,
            end: self.end,
            term: self.term,
        }
    }

    /// A copy, which shares the term.
    pub fn copy(&self, alloc: Global) -> Result<Closure<'a>, Memory>
        ensures { IfOk result (λ c. closure_term c ≡ closure_term self.now) }
    {
        let swaps = copied(alloc, &self.swaps)?;
        Ok(Closure {
            swaps,
            base: self.base,
            end: self.end,
            term: self.term,
        })
    }

    /// A copy on which more swappings act, after its own ones. It shares the term.
    pub fn copy_moved_by(&self, alloc: Global, p: &[Swap]) -> Result<Closure<'a>, Memory>
        ensures { IfOk result (λ d. closure_term d ≡ act_term p.now (closure_term self.now)) }
    {
        let swaps = joined(alloc, p, &self.swaps)?;
        Ok(Closure {
            swaps,
            base: self.base,
            end: self.end,
            term: self.term,
        })
    }

    /// The closure on which more swappings act, after its own ones.
    pub fn moved_by(self, alloc: Global, p: &[Swap]) -> Result<Closure<'a>, Memory>
        ensures { IfOk result (λ c. closure_term c ≡ act_term p.now (closure_term self.entry)) }
    {
        if p.is_empty() {
            return Ok(self);
        }
        let Closure {
            swaps,
            base,
            end,
            term,
        } = self;
        let joined = joined(alloc, p, &swaps)?;
        Ok(Closure {
            swaps: joined,
            base,
            end,
            term,
        })
    }

    /// Its term, numbered from another number on, without swappings.
    fn without_swaps(self, base: u64, end: u64) -> Closure<'a>
        requires { IsBelow end (rename_term base (term_of self.term.now)) }
        ensures { closure_term result ≡ rename_term base (term_of self.entry.term.now) }
    {
        let Closure {
            mut swaps,
            term,
            ..
        } = self;
        swaps.clear();
        Closure {
            swaps,
            base,
            end,
            term,
        }
    }

    /// The closure; a name on which swappings wait is numbered from where it is what they make of it, so that
    /// none wait, unless its number falls by them. It takes no memory.
    pub fn settled(self) -> Closure<'a>
        ensures { closure_term result ≡ closure_term self.entry }
    {
        if self.swaps.is_empty() {
            return self;
        }
        let _end = self.end;
        match self.term {
            Term::Name(a) => match settled_base(&self.swaps, self.base, *a) {
                None => self,
                Some(base) => self.without_swaps(base, base + a.num + 1),
            },
            _ => self,
        }
    }

    /// The closure, taken apart.
    pub fn open(self, alloc: Global) -> Result<Opened<'a>, Memory>
        ensures { IfOk result (λ o. opened_term o ≡ closure_term self.entry) }
    {
        let Closure {
            swaps,
            base,
            end,
            term,
        } = self;
        match term {
            Term::Unit => Ok(Opened::Unit),
            Term::Name(a) => Ok(Opened::Name(image(&swaps, numbered(base, *a)))),
            Term::Pair(left, right) => Closure::open_pair(alloc, swaps, base, end, left, right),
            Term::App(f, argument) => Ok(Opened::App(
                *f,
                Closure {
                    swaps,
                    base,
                    end,
                    term: argument,
                },
            )),
            Term::Abs(sort, num, body) => {
                let a = Name {
                    sort: *sort,
                    num: *num,
                };
                let binder = image(&swaps, numbered(base, a));
                Ok(Opened::Abs(
                    binder,
                    Closure {
                        swaps,
                        base,
                        end,
                        term: body,
                    },
                ))
            }
            Term::Susp(q, x) => {
                let waiting = with_numbered(swaps, base, q.items())?;
                Ok(Opened::Susp(waiting, Var { num: base + x.num }))
            }
        }
    }

    /// The closures of the parts of a pair.
    fn open_pair(
        alloc: Global,
        swaps: Vec<Swap>,
        base: u64,
        end: u64,
        left: &'a Term,
        right: &'a Term,
    ) -> Result<Opened<'a>, Memory>
        requires left { IsBelow end (rename_term base (term_of left.now)) }
        requires right { IsBelow end (rename_term base (term_of right.now)) }
        ensures { IfOk result (λ o. opened_term o
            ≡ pair (act_term swaps.items (rename_term base (term_of left.now))) (act_term
            swaps.items (rename_term base (term_of right.now)))) }
    {
        let own = copied(alloc, &swaps)?;
        Ok(Opened::Pair(
            Closure {
                swaps: own,
                base,
                end,
                term: left,
            },
            Closure {
                swaps,
                base,
                end,
                term: right,
            },
        ))
    }
}
