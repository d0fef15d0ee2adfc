//! Whether the head of a clause equals an atom.

ghost use Rattle.std.specs.Prelude.{◌≡◌, map, IfOk};
ghost use Rattle.ap_defs.specs.Goals.{clause_of};
ghost use Rattle.ap_defs.specs.Terms.{term_of};
ghost use Rattle.ap_checks.specs.Checks.{equal_each};
ghost use Rattle.ap_checks.specs.OpenEnvironments.{open_environment, put_in};
ghost use Rattle.ap_judge.specs.Closures.{scoped_terms};
ghost use Rattle.ap_judge.specs.Scopes.{environment_of};
ghost use Rattle.ap_judge.specs.Tables.{AreStandingIn};
ghost use Rattle.ap_shared.specs.SharedPlaces.{given_terms};

use ap_defs::goals::Clause;
use ap_defs::memory::Memory;
use ap_defs::terms::{Name, Term};
use ap_judge::cited::CitedTerms;
use ap_judge::closures::{Closure, Scope, ScopedTerms};
use ap_judge::equality::are_equal_at;
use ap_judge::identifiers::Identifiers;
use ap_judge::index::IndexedAnswer;
use ap_judge::scope::Standing;
use ap_shared::arena::SharedTerms;
use ap_shared::derivations::SharedDerivation;
use ap_shared::places::Given;
use std::alloc::Global;

/// Whether the terms equal the others under the conditions, one by one. Lines that are cited are of this
/// table.
#[tactic(auto, using(crate::proofs::HeadLemmas::lengths_differ, crate::proofs::HeadLemmas::equal_not, crate::proofs::HeadLemmas::equal_later))]
fn all_equal(
    alloc: Global,
    answer: &IndexedAnswer<'_>,
    terms: &SharedTerms,
    left: ScopedTerms<'_>,
    right: ScopedTerms<'_>,
) -> Result<bool, Memory>
    requires left { AreStandingIn terms.now left.scope.standing.now }
    requires right { AreStandingIn terms.now right.scope.standing.now }
    ensures { IfOk result (λ yes. yes ≡
        equal_each answer.now.conds (scoped_terms left.entry) (scoped_terms right.entry)) }
{
    if left.terms.len() != right.terms.len() {
        return Ok(false);
    }
    for i in 0..left.terms.len() {
        let t = Closure::Within(left.scope, &left.terms[i]);
        let u = Closure::Within(right.scope, &right.terms[i]);
        if !are_equal_at(alloc, answer, terms, t, u)? {
            return Ok(false);
        }
    }
    Ok(true)
}

/// A clause as a node uses it: its number, the names and terms for its free identifiers, and the
/// derivation of its body.
#[derive(Clone, Copy)]
pub struct Use<'a> {
    pub number: u32,
    pub names: &'a [Name],
    pub given: Given<'a>,
    pub body: &'a SharedDerivation,
}

/// Whether an atom's arguments equal those of a clause's head, as a node uses the clause.
pub fn is_head_equal<'a>(
    alloc: Global,
    answer: &IndexedAnswer<'_>,
    standing: &[Standing<'_>],
    args: &[Term],
    used: &Use<'a>,
    clause: &'a Clause<Term>,
) -> Result<bool, Memory>
    requires { AreStandingIn used.now.given.terms.now standing.now }
    ensures { IfOk result (λ yes. yes ≡ equal_each answer.now.conds
        (map (put_in (environment_of standing.now)) (map term_of args.now))
        (map (put_in (open_environment (clause_of clause.now).locals used.now.names.now
        (given_terms used.now.given))) (clause_of clause.now).args)) }
{
    let own = Identifiers::of(alloc, clause.locals.items())?;
    let given = CitedTerms::Lines(used.given);
    let scope = [Standing::Clause(own, used.names, given)];
    let head = ScopedTerms {
        scope: Scope { standing: &scope },
        terms: clause.args.items(),
    };
    let args = ScopedTerms {
        scope: Scope { standing },
        terms: args,
    };
    all_equal(alloc, answer, used.given.terms, args, head)
}
