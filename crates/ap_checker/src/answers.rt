//! Whether an answer fits its query.

ghost use Rattle.std.specs.Prelude.{◌≡◌, true, map, IfOk, OnOk};
ghost use Rattle.std.specs.List.{list_all};
ghost use Rattle.ap_defs.specs.Answers.{typed_var_of};
ghost use Rattle.ap_defs.specs.Goals.{program_of, query_of};
ghost use Rattle.ap_defs.specs.Unification.{has_var};
ghost use Rattle.ap_checks.specs.Checks.{each_once, is_answer};
ghost use Rattle.ap_judge.specs.Typings.{AreTypesKnown};
ghost use Rattle.ap_shared.specs.SharedViews.{shared_answer, shared_terms};

use crate::fits::terms_fit;
use ap_defs::goals::{Program, Query};
use ap_defs::memory::Memory;
use ap_defs::terms::{Cond, Term};
use ap_judge::index::IndexedAnswer;
use ap_judge::typing::Typed;
use ap_shared::arena::SharedTerms;
use ap_shared::places::Given;
use std::alloc::Global;

/// Whether each condition is on a variable that has a type.
#[tactic(auto, using(crate::proofs::AnswerLemmas::conds_not, crate::proofs::AnswerLemmas::conds_later))]
fn are_on_typed(answer: &IndexedAnswer<'_>, conds: &[Cond]) -> bool
    ensures { result
        ≡ list_all (λ c. has_var c.var (map (λ v. v.0) (map typed_var_of answer.now.vars)))
        conds.now }
{
    for c in conds {
        if !answer.is_typed(c.var) {
            return false;
        }
    }
    true
}

/// Whether the bindings are those of the query's free variables, of their types, and each condition is on
/// a variable that has a type. That no variable has two is known.
pub(crate) fn answer_fits<'a>(
    alloc: Global,
    program: &'a Program<Term>,
    query: &'a Query<Term>,
    terms: &SharedTerms,
    typed: &mut Typed<'a>,
    indexed: &IndexedAnswer<'_>,
) -> Result<bool, Memory>
    requires once { each_once (map typed_var_of indexed.now.vars) ≡ true }
    requires typed { AreTypesKnown terms.now program.now.signature.constructors indexed.now.vars
        typed.old }
    ensures typed { OnOk result (AreTypesKnown terms.now program.now.signature.constructors
        indexed.now.vars typed.new) }
    ensures fits { IfOk result (λ yes. yes ≡
        is_answer (program_of program.now) (query_of query.now)
        (shared_answer (shared_terms terms.now) indexed.now)) }
{
    let constructors = program.signature.constructors.items();
    let locals = query.locals.items();
    let answer = indexed.answer();
    let given = Given {
        terms,
        lines: answer.binds.items(),
    };
    let fit = terms_fit(alloc, constructors, indexed, typed, locals, given)?;
    Ok(fit && are_on_typed(indexed, answer.conds.items()))
}
