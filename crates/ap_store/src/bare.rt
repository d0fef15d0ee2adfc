//! Terms of closures without their swappings.

ghost use Rattle.ap_defs.specs.Renaming.{IsBelow, rename_term};
ghost use Rattle.ap_defs.specs.Terms.{term_of};
ghost use Rattle.ap_perm.specs.BelowProps.{below_prop};

use ap_defs::terms::Term;

/// The term of a closure without the swappings that wait on it. Its identifiers are numbered from `base` on,
/// below `end`.
#[derive(Clone, Copy)]
pub struct Bare<'a> {
    pub base: u64,
    pub end: u64,
    pub term: &'a Term,
    pub ghost below: { IsBelow end (rename_term base (term_of term.now)) } by { below_prop end (rename_term base (term_of term.now)) },
}

impl<'a> Bare<'a> {
    ghost use Rattle.std.specs.Prelude.{◌≡◌};
    ghost use Rattle.ap_defs.specs.Renaming.{IsBelow, rename_term};
    ghost use Rattle.ap_defs.specs.Terms.{term_of};
    ghost use Rattle.ap_store.specs.Founds.{bare_term};

    /// A term that is numbered as this one.
    pub(crate) fn with_term(self, term: &'a Term) -> Bare<'a>
        requires { IsBelow self.end (rename_term self.base (term_of term.now)) }
        ensures { bare_term result ≡ rename_term self.entry.base (term_of term.entry.now) }
    {
        Bare {
            base: self.base,
            end: self.end,
            term,
        }
    }
}
