//! Parts of terms on which no swappings wait, which are copied where a closure is moved.

ghost use Rattle.ap_defs.specs.Renaming.{IsBelow, rename_term};
ghost use Rattle.ap_defs.specs.Terms.{term_of};
ghost use Rattle.ap_perm.specs.BelowProps.{below_prop};

use ap_defs::terms::Term;
use ap_perm::closures::Closure;
use std::alloc::Global;

/// A term whose identifiers are numbered from `base` on, below `end`. Contracts see it as the nominal
/// term that this makes. It may be known to be ground: then it stands for a term without variables.
#[derive(Clone, Copy)]
pub struct Plain<'a> {
    pub base: u64,
    pub end: u64,
    pub term: &'a Term,
    pub is_ground: bool,
    pub ghost below: { IsBelow end (rename_term base (term_of term.now)) } by { below_prop end (rename_term base (term_of term.now)) },
}

impl<'a> Plain<'a> {
    ghost use Rattle.std.specs.Prelude.{◌≡◌, ◌<◌, false, IfSome, MatchOption, length};
    ghost use Rattle.ap_defs.specs.Renaming.{IsBelow, rename_term};
    ghost use Rattle.ap_defs.specs.Terms.{term_of};
    ghost use Rattle.ap_perm.specs.Closures.{closure_term};
    ghost use Rattle.ap_equations.specs.Plain.{plain_term};

    /// The part that a closure is, or none where swappings wait on it. It is not known to be ground.
    pub fn of(c: &Closure<'a>) -> Option<Plain<'a>>
        ensures term { MatchOption result (0 < length c.now.swaps.items) (λ p. plain_term p
            ≡ closure_term c.now) }
        ensures mark { IfSome result (λ p. p.is_ground ≡ false) }
    {
        if c.swaps.is_empty() {
            Some(Plain {
                base: c.base,
                end: c.end,
                term: c.term,
                is_ground: false,
            })
        } else {
            None
        }
    }

    /// The closure that the part is. It takes no memory.
    pub fn closure(self, alloc: Global) -> Closure<'a>
        ensures { closure_term result ≡ plain_term self.entry }
    {
        Closure::of(alloc, self.base, self.end, self.term)
    }

    /// A part of this one, which is numbered as it is, and known to be ground where it is.
    pub fn with_term(self, term: &'a Term) -> Plain<'a>
        requires { IsBelow self.end (rename_term self.base (term_of term.now)) }
        ensures term { plain_term result ≡ rename_term self.entry.base (term_of term.entry.now) }
        ensures mark { result.is_ground ≡ self.entry.is_ground }
    {
        Plain {
            base: self.base,
            end: self.end,
            term,
            is_ground: self.is_ground,
        }
    }
}

/// Two parts that are to be equal.
#[derive(Clone, Copy)]
pub struct PlainPair<'a> {
    pub left: Plain<'a>,
    pub right: Plain<'a>,
}
