//! The verdict on a derivation.

ghost use Rattle.std.specs.Prelude.{◌≡◌, IfOk};
ghost use Rattle.ap_defs.specs.Goals.{NominalProgram, program_of, query_of};
ghost use Rattle.ap_checks.specs.Checks.{verdict, verdict_of};
ghost use Rattle.ap_checker.specs.Rules.{verdict_said};
ghost use Rattle.ap_checker.specs.Tables.{IsWalkIn};
ghost use Rattle.ap_judge.specs.Typings.{AreTypesKnown};
ghost use Rattle.ap_checker.specs.Walks.{IsOnWay, refusal_on};
ghost use Rattle.ap_shared.specs.SharedViews.{shared_answer, shared_derivation, shared_terms};

use crate::answers::answer_fits;
use crate::rules::Rule;
use crate::visits::visit;
use crate::walk::{Obligation, Walk};
use ap_defs::goals::{Program, Query};
use ap_defs::memory::Memory;
use ap_defs::outcomes::Verdict;
use ap_defs::terms::Term;
use ap_judge::cited::CitedTerms;
use ap_judge::identifiers::Identifiers;
use ap_judge::index::IndexedAnswer;
use ap_judge::lookups::query_at;
use ap_judge::scope::Standing;
use ap_judge::typing::Typed;
use ap_program::restricted::Restricted;
use ap_shared::arena::SharedTerms;
use ap_shared::derivations::{SharedAnswer, SharedDerivation};
use ap_shared::places::Given;
use std::alloc::Global;

/// The walk over a derivation of a query's goal, at its beginning.
fn walk_from<'a>(
    alloc: Global,
    query: &'a Query<Term>,
    terms: &'a SharedTerms,
    answer: &'a SharedAnswer,
    derivation: &'a SharedDerivation,
) -> Result<Walk<'a>, Memory>
    ensures of { IfOk result (λ w. IsWalkIn terms.now w) }
    ensures way { (p : NominalProgram) → IfOk result (λ w. IsOnWay p
        (shared_answer (shared_terms terms.now) answer.now) (refusal_on p (query_of query.now)
        (shared_answer (shared_terms terms.now) answer.now)
        (shared_derivation (shared_terms terms.now) derivation.now)) 0 w) }
{
    let locals = query.locals.items();
    let mut walk = Walk {
        standing: Vec::new(alloc),
        pending: Vec::new(alloc),
    };
    let own = Identifiers::of(alloc, locals)?;
    let given = Given {
        terms,
        lines: answer.binds.items(),
    };
    walk.bring(Standing::Query(own, CitedTerms::Lines(given)))?;
    walk.put(Obligation {
        terms,
        derivation,
        goal: &query.goal,
        locals,
    })?;
    Ok(walk)
}

/// The verdict on a derivation of a query's goal, whose answer fits.
fn verdict_on_nodes<'a>(
    alloc: Global,
    program: &'a Program<Term>,
    query: &'a Query<Term>,
    terms: &'a SharedTerms,
    mut typed: Typed<'a>,
    indexed: &'a IndexedAnswer<'_>,
    derivation: &'a SharedDerivation,
) -> Result<Verdict, Memory>
    requires { AreTypesKnown terms.now program.now.signature.constructors indexed.now.vars typed }
    ensures { IfOk result (λ v. verdict_said v
        ≡ verdict (refusal_on (program_of program.now) (query_of query.now)
        (shared_answer (shared_terms terms.now) indexed.now)
        (shared_derivation (shared_terms terms.now) derivation.now))) }
{
    let mut walk = walk_from(alloc, query, terms, indexed.answer(), derivation)?;
    let mut node: u64 = 0;
    'nodes: while let Some(next) = walk.pending.pop() {
        node = node.saturating_add(1);
        walk.standing.truncate(next.mark);
        if let Some(rule) = visit(
            alloc,
            program,
            indexed,
            &mut typed,
            &mut walk,
            next.obligation,
        )? {
            let rule = rule.number();
            return Ok(Verdict::No { node, rule });
        }
    }
    Ok(Verdict::Yes)
}

/// The verdict on a derivation of an answer to the query with this number, from 1: `Yes` where it
/// checks, or else the first node that is refused, in preorder from 1, and its least rule. Node 0 is the
/// answer. A number that doesn't fit in 64 bits is given as the greatest that does. `Err` is want of memory.
pub fn verify(
    alloc: Global,
    program: &Restricted,
    query: u32,
    terms: &SharedTerms,
    answer: &SharedAnswer,
    derivation: &SharedDerivation,
) -> Result<Verdict, Memory>
    ensures { IfOk result (λ v. verdict_said v ≡ verdict_of (program_of program.now) query
        (shared_answer (shared_terms terms.now) answer.now)
        (shared_derivation (shared_terms terms.now) derivation.now)) }
{
    let program = program.program();
    let rule = Rule::Answer.number();
    let Some(query) = query_at(program, query) else {
        return Ok(Verdict::No { node: 0, rule });
    };
    let Some(indexed) = IndexedAnswer::of(alloc, answer)? else {
        return Ok(Verdict::No { node: 0, rule });
    };
    let mut typed = Typed::new(alloc);
    if !answer_fits(alloc, program, query, terms, &mut typed, &indexed)? {
        return Ok(Verdict::No { node: 0, rule });
    }
    verdict_on_nodes(alloc, program, query, terms, typed, &indexed, derivation)
}
