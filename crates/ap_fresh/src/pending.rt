//! Freshness problems that are left to be reduced.

ghost use Rattle.std.specs.Prelude.{◌≡◌, ◌<◌, IfNone, IfSome};
ghost use Rattle.ap_defs.specs.Renaming.{IsBelow, rename_term};
ghost use Rattle.ap_defs.specs.Terms.{term_of};
ghost use Rattle.ap_defs.specs.Unification.{size};
ghost use Rattle.ap_perm.specs.BelowProps.{below_prop};
ghost use Rattle.ap_perm.specs.Inner.{inner_part};

use ap_defs::terms::{Name, Term};
use ap_perm::closures::Lent;
use ap_perm::joining::numbered;
use ap_perm::swappings::{is_same, preimage};

/// The name is to be fresh for the term, whose identifiers are numbered from `base` on, below `end`.
#[derive(Drop)]
pub struct Pending<'a> {
    pub name: Name,
    pub base: u64,
    pub end: u64,
    pub term: &'a Term,
    pub ghost below: { IsBelow end (rename_term base (term_of term.now)) } by { below_prop end (rename_term base (term_of term.now)) },
}

/// The part of a term below the symbol or the binder of another name at its head, or none where neither
/// stands there.
fn part_below<'a>(name: Name, base: u64, end: u64, t: &'a Term) -> Option<&'a Term>
    requires { IsBelow end (rename_term base (term_of t.now)) }
    ensures ends { IfNone result (inner_part name (rename_term base (term_of t.now))
        ≡ rename_term base (term_of t.now)) }
    ensures part { IfSome result (λ u. inner_part name (rename_term base (term_of u.now))
        ≡ inner_part name (rename_term base (term_of t.now))) }
    ensures below { IfSome result (λ u. IsBelow end (rename_term base (term_of u.now))) }
    ensures smaller { IfSome result (λ u. size (rename_term base (term_of u.now))
        < size (rename_term base (term_of t.now))) }
{
    match t {
        Term::Unit => None,
        Term::Name(_) => None,
        Term::Pair(_, _) => None,
        Term::App(_, argument) => Some(argument),
        Term::Abs(sort, num, body) => {
            let b = Name {
                sort: *sort,
                num: *num,
            };
            if is_same(&name, &numbered(base, b)) {
                None
            } else {
                Some(body)
            }
        }
        Term::Susp(_, _) => None,
    }
}

impl<'a> Pending<'a> {
    ghost use Rattle.std.specs.Prelude.{◌≡◌};
    ghost use Rattle.ap_defs.specs.Permutations.{act_name, inverse};
    ghost use Rattle.ap_defs.specs.Renaming.{IsBelow, rename_term};
    ghost use Rattle.ap_defs.specs.Terms.{term_of};
    ghost use Rattle.ap_perm.specs.Inner.{inner_part};
    ghost use Rattle.ap_fresh.specs.Reduction.{pending_term};

    /// The name is to be fresh for a part of the term.
    pub fn within(&self, t: &'a Term) -> Pending<'a>
        requires { IsBelow self.now.end (rename_term self.now.base (term_of t.now)) }
        ensures name { result.name ≡ self.now.name }
        ensures term { pending_term result ≡ rename_term self.now.base (term_of t.now) }
    {
        Pending {
            name: self.name,
            base: self.base,
            end: self.end,
            term: t,
        }
    }

    /// The name is to be fresh for a part of the term, and so for what stands there below symbols and
    /// binders of other names.
    pub fn innermost(&self, t: &'a Term) -> Pending<'a>
        requires { IsBelow self.now.end (rename_term self.now.base (term_of t.now)) }
        ensures name { result.name ≡ self.now.name }
        ensures term { pending_term result ≡ inner_part self.now.name (rename_term self.now.base
            (term_of t.now)) }
    {
        let mut term = t;
        'going: while let Some(part) = part_below(self.name, self.base, self.end, term) {
            term = part;
        }
        self.within(term)
    }

    /// The name is to be fresh for what a closure stands for.
    pub fn bound(name: Name, c: Lent<'_, 'a>) -> Pending<'a>
        ensures name { result.name ≡ act_name (inverse c.entry.swaps.now) name }
        ensures term { pending_term result ≡ rename_term c.entry.base (term_of c.entry.term.now) }
    {
        let name = preimage(c.swaps, name);
        Pending {
            name,
            base: c.base,
            end: c.end,
            term: c.term,
        }
    }
}
