//! What stands for the identifiers of an item at a node of a derivation, and terms with it put in.

ghost use Rattle.std.specs.Prelude.{◌≡◌, map, IfOk, IfSome, MatchOption, None, Some};
ghost use Rattle.ap_defs.specs.Terms.{term_of, unit};
ghost use Rattle.ap_checks.specs.OpenEnvironments.{put_in, swap_in};
ghost use Rattle.ap_judge.specs.Cited.{cited_term};
ghost use Rattle.ap_judge.specs.Scopes.{environment_of, item_term, name_stood, term_brought};
ghost use Rattle.ap_judge.specs.Tables.{AreStandingIn, IsCitedIn, IsStandingIn};
ghost use Rattle.ap_shared.specs.declared.arena.SharedTerms.{SharedTerms as table};

use crate::cited::{Cited, CitedTerms};
use crate::closures::{Closure, Scope};
use crate::identifiers::Identifiers;
use crate::outside::copied;
use crate::swappings::is_same;
use ap_defs::memory::Memory;
use ap_defs::terms::{Name, Swap, Term, Var};
use std::alloc::Global;

/// What stands for the free identifiers of an item, or for one that its goal brought.
#[derive(Drop)]
pub enum Standing<'a> {
    /// The terms for the free variables of a query, in order; each free name stands for itself.
    Query(Identifiers<'a>, CitedTerms<'a>),
    /// The names for the free names of a clause and the terms for its free variables, in order.
    Clause(Identifiers<'a>, &'a [Name], CitedTerms<'a>),
    /// The name for a name that `new` brought.
    Name(Name, Name),
    /// The term for a variable that `exists` brought.
    Term(Var, Cited<'a>),
}

/// The name for a name, if this is what says it.
fn name_at(standing: &Standing<'_>, b: Name) -> Option<Name>
    ensures { result ≡ name_stood standing.now b }
{
    match standing {
        Standing::Query(_, _) => Some(b),
        Standing::Clause(own, names, _) => Some(own.name_for(names, b)),
        Standing::Name(a, c) if is_same(a, &b) => Some(*c),
        _ => None,
    }
}

/// The term that `exists` brought for a variable, if this is what says it.
fn term_at<'a>(standing: &Standing<'a>, x: Var) -> Option<Cited<'a>>
    ensures term { MatchOption result (term_brought standing.now x ≡ None) (λ t. term_brought
        standing.now x ≡ Some (cited_term t)) }
    ensures of { IfSome result (λ t. (ts : table) → IsStandingIn ts standing.now → IsCitedIn ts t) }
{
    match standing {
        Standing::Term(y, t) if y.num == x.num => Some(*t),
        _ => None,
    }
}

/// What an item has for a variable, if this is what stands for an item's identifiers.
fn item_term_at<'a>(standing: &Standing<'a>, x: Var) -> Option<Option<Cited<'a>>>
    ensures term { MatchOption result (item_term standing.now x ≡ None) (λ found. MatchOption found
        (item_term standing.now x ≡ Some unit) (λ t. item_term standing.now x
        ≡ Some (cited_term t))) }
    ensures of { IfSome result (λ found. IfSome found (λ t. (ts : table) →
        IsStandingIn ts standing.now → IsCitedIn ts t)) }
{
    match standing {
        Standing::Query(own, given) => Some(own.term_for(*given, x)),
        Standing::Clause(own, _, given) => Some(own.term_for(*given, x)),
        _ => None,
    }
}

/// The name for a name. The innermost stands last.
pub fn name_in(scope: &[Standing<'_>], b: Name) -> Name
    ensures { result ≡ (environment_of scope.now).names b }
{
    for i in (0..scope.len()).rev() {
        if let Some(c) = name_at(&scope[i], b) {
            return c;
        }
    }
    b
}

/// The term for a variable; where there is none, unit stands for it.
pub fn term_in<'a>(scope: &[Standing<'a>], x: Var) -> Option<Cited<'a>>
    ensures term { MatchOption result ((environment_of scope.now).terms x ≡ unit) (λ t.
        (environment_of scope.now).terms x ≡ cited_term t) }
    ensures of { IfSome result (λ t. (ts : table) → AreStandingIn ts scope.now → IsCitedIn ts t) }
{
    for i in (0..scope.len()).rev() {
        let innermost = &scope[i];
        if let Some(t) = term_at(innermost, x) {
            return Some(t);
        }
        if let Some(found) = item_term_at(innermost, x) {
            return found;
        }
    }
    None
}

/// The swapping with the names for its names.
fn put_swap(scope: &[Standing<'_>], s: &Swap) -> Swap
    ensures { result ≡ swap_in (environment_of scope.now) s.now }
{
    let sort = s.sort;
    let left = name_in(scope, Name { sort, num: s.left });
    let right = name_in(scope, Name { sort, num: s.right });
    Swap {
        sort,
        left: left.num,
        right: right.num,
    }
}

/// The swappings with the names for their names.
pub(crate) fn put_swaps(
    alloc: Global,
    scope: &[Standing<'_>],
    swaps: &[Swap],
) -> Result<Vec<Swap>, Memory>
    ensures { IfOk result (λ v. v.items ≡ map (swap_in (environment_of scope.now)) swaps.now) }
{
    let mut all = Vec::new(alloc);
    for s in swaps {
        all.push(put_swap(scope, s))?;
    }
    Ok(all)
}

/// The term with its names and variables replaced at once.
pub fn put(alloc: Global, scope: &[Standing<'_>], t: &Term) -> Result<Term, Memory>
    ensures { IfOk result (λ u. term_of u ≡ put_in (environment_of scope.now) (term_of t.now)) }
{
    let scope = Scope { standing: scope };
    copied(alloc, Closure::Within(scope, t))
}

/// The terms with their names and variables replaced at once.
pub fn put_each(alloc: Global, scope: &[Standing<'_>], terms: &[Term]) -> Result<Vec<Term>, Memory>
    ensures { IfOk result (λ v. map term_of v.items
        ≡ map (put_in (environment_of scope.now)) (map term_of terms.now)) }
{
    let mut all = Vec::new(alloc);
    for t in terms {
        all.push(put(alloc, scope, t)?)?;
    }
    Ok(all)
}
