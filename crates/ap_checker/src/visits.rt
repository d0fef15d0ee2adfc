//! What is done at a node of a derivation: the rules are tried, and what is below the node comes next.

ghost use Rattle.std.specs.Prelude.{◌≡◌, ℕ, List as list, length, map, IfOk, OnOk, Option as option};
ghost use Rattle.ap_defs.specs.Derivations as derivations;
ghost use Rattle.ap_defs.specs.Goals as goals;
ghost use Rattle.ap_defs.specs.Goals.{NominalProgram, clause_of, goal_of, program_of};
ghost use Rattle.ap_defs.specs.Terms.{NominalTerm, term_of};
ghost use Rattle.ap_defs.specs.Types.{NominalKind};
ghost use Rattle.ap_checks.specs.Checks.{Refusal, first_refusal, tests_by_clause};
ghost use Rattle.ap_checks.specs.OpenEnvironments.{put_in};
ghost use Rattle.ap_checker.specs.Rules.{node_refused};
ghost use Rattle.ap_judge.specs.Scopes.{environment_of};
ghost use Rattle.ap_judge.specs.Tables.{AreStandingIn};
ghost use Rattle.ap_checker.specs.Tables.{IsWalkIn};
ghost use Rattle.ap_judge.specs.Typings.{AreTypesKnown};
ghost use Rattle.ap_checker.specs.Walks.{ArePendingMarked, IsVisited, derivation_at, goal_at, kinds_at, pending_of};
ghost use Rattle.ap_shared.specs.Shared.{shared_at};
ghost use Rattle.ap_shared.specs.SharedPlaces.{given_terms};
ghost use Rattle.ap_shared.specs.SharedViews.{shared_answer, shared_derivation, shared_terms};

use crate::fits::{counts_fit, names_fit, term_fits, terms_fit};
use crate::new_names::is_new;
use crate::nodes::{all_differ, is_name_fresh};
use crate::rules::Rule;
use crate::walk::{Obligation, Walk};
use ap_defs::goals::{Clause, Goal, Program};
use ap_defs::memory::Memory;
use ap_defs::terms::{Name, Term, Var};
use ap_judge::cited::{Cited, CitedTerms};
use ap_judge::closures::{Closure, Scope};
use ap_judge::equality::are_equal_at;
use ap_judge::identifiers::Identifiers;
use ap_judge::index::IndexedAnswer;
use ap_judge::lookups::clause_at;
use ap_judge::scope::Standing;
use ap_judge::typing::Typed;
use ap_shared::arena::SharedTerms;
use ap_shared::derivations::SharedDerivation;
use ap_shared::places::{Given, Shared};
use ap_sides::heads::{Use, is_head_equal};
use std::alloc::Global;

/// The least rule that refuses an atom's node by a clause, if one does.
fn rule_of_clause<'a>(
    alloc: Global,
    program: &'a Program<Term>,
    answer: &IndexedAnswer<'_>,
    typed: &mut Typed<'a>,
    standing: &[Standing<'_>],
    args: &[Term],
    used: &Use<'a>,
    clause: &'a Clause<Term>,
) -> Result<Option<Rule>, Memory>
    requires of { AreStandingIn used.now.given.terms.now standing.now }
    requires typed { AreTypesKnown used.now.given.terms.now program.now.signature.constructors
        answer.now.vars typed.old }
    ensures typed { OnOk result (AreTypesKnown used.now.given.terms.now
        program.now.signature.constructors answer.now.vars typed.new) }
    ensures rule { IfOk result (λ r. (lines : list NominalTerm) (n : ℕ) (rest : option Refusal) →
        tests_by_clause (program_of program.now) (shared_answer lines answer.now) n
        used.now.names.now (given_terms used.now.given) (map (put_in (environment_of standing.now))
        (map term_of args.now)) (clause_of clause.now) rest
        ≡ first_refusal (node_refused n r) rest) }
{
    let locals = clause.locals.items();
    if !counts_fit(locals, used.names, used.given) {
        return Ok(Some(Rule::Count));
    }
    if !all_differ(alloc, used.names)? {
        return Ok(Some(Rule::Distinct));
    }
    if !names_fit(locals, used.names) {
        return Ok(Some(Rule::Typing));
    }
    let constructors = program.signature.constructors.items();
    if !terms_fit(alloc, constructors, answer, typed, locals, used.given)? {
        return Ok(Some(Rule::Typing));
    }
    if !is_head_equal(alloc, answer, standing, args, used, clause)? {
        return Ok(Some(Rule::Head));
    }
    Ok(None)
}

/// An atom's node.
fn visit_atom<'a>(
    alloc: Global,
    program: &'a Program<Term>,
    answer: &IndexedAnswer<'_>,
    typed: &mut Typed<'a>,
    walk: &mut Walk<'a>,
    used: &Use<'a>,
    pred: u32,
    args: &[Term],
) -> Result<Option<Rule>, Memory>
    requires marked { ArePendingMarked (length walk.old.standing.items) (pending_of walk.old) }
    requires of { IsWalkIn used.now.given.terms.now walk.old }
    requires typed { AreTypesKnown used.now.given.terms.now program.now.signature.constructors
        answer.now.vars typed.old }
    ensures visited { IfOk result (λ r. (kinds : list NominalKind) (lines : list NominalTerm) →
        IsVisited (program_of program.now) (shared_answer lines answer.now) kinds (derivations.atom
        used.now.number used.now.names.now (given_terms used.now.given) (shared_derivation
        (shared_terms used.now.given.terms.now) used.now.body.now))
        (goals.atom pred (map term_of args.now)) walk.old walk.new r) }
    ensures of { OnOk result (IsWalkIn used.now.given.terms.now walk.new) }
    ensures typed { OnOk result (AreTypesKnown used.now.given.terms.now
        program.now.signature.constructors answer.now.vars typed.new) }
{
    let Some(clause) = clause_at(program, pred, used.number) else {
        return Ok(Some(Rule::Clause));
    };
    let standing = &walk.standing;
    let rule = rule_of_clause(alloc, program, answer, typed, standing, args, used, clause)?;
    if let Some(rule) = rule {
        return Ok(Some(rule));
    }
    let locals = clause.locals.items();
    let own = Identifiers::of(alloc, locals)?;
    let given = CitedTerms::Lines(used.given);
    walk.bring(Standing::Clause(own, used.names, given))?;
    walk.put(Obligation {
        terms: used.given.terms,
        derivation: used.body,
        goal: &clause.body,
        locals,
    })?;
    Ok(None)
}

/// An equation's node.
fn visit_equation(
    alloc: Global,
    answer: &IndexedAnswer<'_>,
    terms: &SharedTerms,
    walk: &Walk<'_>,
    left: &Term,
    right: &Term,
) -> Result<Option<Rule>, Memory>
    requires marked { ArePendingMarked (length walk.now.standing.items) (pending_of walk.now) }
    requires of { IsWalkIn terms.now walk.now }
    ensures { IfOk result (λ r. (p : NominalProgram) (kinds : list NominalKind)
        (lines : list NominalTerm) →
        IsVisited p (shared_answer lines answer.now) kinds derivations.equal
        (goals.equal (term_of left.now) (term_of right.now)) walk.now walk.now r) }
{
    let scope = walk.standing.as_slice();
    let scope = Scope { standing: scope };
    let left = Closure::Within(scope, left);
    let right = Closure::Within(scope, right);
    if !are_equal_at(alloc, answer, terms, left, right)? {
        return Ok(Some(Rule::Equal));
    }
    Ok(None)
}

/// The node of a freshness goal.
fn visit_freshness(
    alloc: Global,
    answer: &IndexedAnswer<'_>,
    walk: &Walk<'_>,
    left: &Term,
    right: &Term,
) -> Result<Option<Rule>, Memory>
    requires { ArePendingMarked (length walk.now.standing.items) (pending_of walk.now) }
    ensures { IfOk result (λ r. (p : NominalProgram) (kinds : list NominalKind)
        (lines : list NominalTerm) →
        IsVisited p (shared_answer lines answer.now) kinds derivations.fresh
        (goals.fresh (term_of left.now) (term_of right.now)) walk.now walk.now r) }
{
    let scope = walk.standing.as_slice();
    let scope = Scope { standing: scope };
    let left = Closure::Within(scope, left);
    let right = Closure::Within(scope, right);
    if !is_name_fresh(alloc, answer, left, right)? {
        return Ok(Some(Rule::Fresh));
    }
    Ok(None)
}

/// The node of an `exists`, which brings a term for its variable.
fn visit_exists<'a>(
    alloc: Global,
    program: &'a Program<Term>,
    answer: &IndexedAnswer<'_>,
    typed: &mut Typed<'a>,
    walk: &mut Walk<'a>,
    x: Var,
    line: usize,
    below: Obligation<'a>,
) -> Result<Option<Rule>, Memory>
    requires marked { ArePendingMarked (length walk.old.standing.items) (pending_of walk.old) }
    requires of { IsWalkIn below.terms.now walk.old }
    requires typed { AreTypesKnown below.terms.now program.now.signature.constructors
        answer.now.vars typed.old }
    ensures visited { IfOk result (λ r. (lines : list NominalTerm) →
        IsVisited (program_of program.now) (shared_answer lines answer.now) (kinds_at below.entry)
        (derivations.exists (shared_at (shared_terms below.entry.terms.now) line)
        (derivation_at below.entry))
        (goals.exists x (goal_at below.entry)) walk.old walk.new r) }
    ensures of { OnOk result (IsWalkIn below.entry.terms.now walk.new) }
    ensures typed { OnOk result (AreTypesKnown below.entry.terms.now
        program.now.signature.constructors answer.now.vars typed.new) }
{
    let terms = below.terms;
    let term = Shared { terms, line };
    let constructors = program.signature.constructors.items();
    if !term_fits(alloc, constructors, answer, typed, below.locals, x, term)? {
        return Ok(Some(Rule::Typing));
    }
    walk.bring(Standing::Term(x, Cited::Line(term)))?;
    walk.put(below)?;
    Ok(None)
}

/// The node of a `new` goal, which brings a name for its own.
fn visit_new<'a>(
    alloc: Global,
    answer: &IndexedAnswer<'_>,
    walk: &mut Walk<'a>,
    goal: &Goal<Term>,
    names: (Name, Name),
    below: Obligation<'a>,
) -> Result<Option<Rule>, Memory>
    requires marked { ArePendingMarked (length walk.old.standing.items) (pending_of walk.old) }
    requires goal { goal_of goal.now ≡ goals.new names.0 (goal_at below) }
    requires of { IsWalkIn below.terms.now walk.old }
    ensures visited { IfOk result (λ r. (p : NominalProgram) (lines : list NominalTerm) →
        IsVisited p (shared_answer lines answer.now)
        (kinds_at below.entry) (derivations.new names.1
        (derivation_at below.entry)) (goal_of goal.now) walk.old walk.new r) }
    ensures of { OnOk result (IsWalkIn below.entry.terms.now walk.new) }
{
    let (own, name) = names;
    if name.sort != own.sort {
        return Ok(Some(Rule::Typing));
    }
    if !is_new(alloc, answer, &walk.standing, name, goal)? {
        return Ok(Some(Rule::NewName));
    }
    walk.bring(Standing::Name(own, name))?;
    walk.put(below)?;
    Ok(None)
}

/// Looks at a node: the least rule that refuses it, or none, and then what is below it comes next.
pub(crate) fn visit<'a>(
    alloc: Global,
    program: &'a Program<Term>,
    answer: &IndexedAnswer<'_>,
    typed: &mut Typed<'a>,
    walk: &mut Walk<'a>,
    at: Obligation<'a>,
) -> Result<Option<Rule>, Memory>
    requires marked { ArePendingMarked (length walk.old.standing.items) (pending_of walk.old) }
    requires of { IsWalkIn at.terms.now walk.old }
    requires typed { AreTypesKnown at.terms.now program.now.signature.constructors
        answer.now.vars typed.old }
    ensures visited { IfOk result (λ r. (lines : list NominalTerm) →
        IsVisited (program_of program.now) (shared_answer lines answer.now) (kinds_at at.entry)
        (derivation_at at.entry) (goal_at at.entry) walk.old walk.new r) }
    ensures of { OnOk result (IsWalkIn at.entry.terms.now walk.new) }
    ensures typed { OnOk result (AreTypesKnown at.entry.terms.now
        program.now.signature.constructors answer.now.vars typed.new) }
{
    match (at.derivation, at.goal) {
        (SharedDerivation::Atom(used, body), Goal::Atom(pred, args)) => {
            let used = Use {
                number: used.clause,
                names: used.names.items(),
                given: Given {
                    terms: at.terms,
                    lines: used.terms.items(),
                },
                body,
            };
            visit_atom(
                alloc,
                program,
                answer,
                typed,
                walk,
                &used,
                *pred,
                args.items(),
            )
        }
        (SharedDerivation::Eq, Goal::Equal(left, right)) => {
            visit_equation(alloc, answer, at.terms, walk, left, right)
        }
        (SharedDerivation::Fresh, Goal::Fresh(left, right)) => {
            visit_freshness(alloc, answer, walk, left, right)
        }
        (SharedDerivation::True, Goal::True) => Ok(None),
        (SharedDerivation::Both(first, second), Goal::Both(left, right)) => {
            walk.put(at.below(second, right))?;
            walk.put(at.below(first, left))?;
            Ok(None)
        }
        (SharedDerivation::Left(below), Goal::Either(left, _)) => {
            walk.put(at.below(below, left))?;
            Ok(None)
        }
        (SharedDerivation::Right(below), Goal::Either(_, right)) => {
            walk.put(at.below(below, right))?;
            Ok(None)
        }
        (SharedDerivation::Exists(line, below), Goal::Exists(x, goal)) => {
            let below = at.below(below, goal);
            visit_exists(alloc, program, answer, typed, walk, *x, *line, below)
        }
        (SharedDerivation::New(name, below), Goal::New(own, goal)) => {
            let below = at.below(below, goal);
            visit_new(alloc, answer, walk, at.goal, (*own, **name), below)
        }
        _ => Ok(Some(Rule::Shape)),
    }
}
