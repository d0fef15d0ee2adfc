//! Copies of answers.

ghost use Rattle.std.specs.Prelude.{◌≡◌, IfOk, map};
ghost use Rattle.ap_defs.specs.Answers.{answer_of, typed_var_of};
ghost use Rattle.ap_defs.specs.Terms.{term_of};

use ap_defs::copies::{copy_term, copy_type};
use ap_defs::lists::List;
use ap_defs::memory::Memory;
use ap_defs::outcomes::Answer;
use ap_defs::terms::{Term, Ty, Var};
use std::alloc::Global;

/// Copies of terms.
fn copy_terms(alloc: Global, terms: &[Term]) -> Result<Vec<Term>, Memory>
    ensures { IfOk result (λ v. map term_of v.items ≡ map term_of terms.now) }
{
    let mut copied = Vec::new(alloc);
    'copying: for t in terms {
        copied.push(copy_term(alloc, t)?)?;
    }
    Ok(copied)
}

/// Copies of variables with their types.
fn copy_vars(alloc: Global, vars: &[(Var, Ty)]) -> Result<Vec<(Var, Ty)>, Memory>
    ensures { IfOk result (λ v. map typed_var_of v.items ≡ map typed_var_of vars.now) }
{
    let mut copied = Vec::new(alloc);
    'copying: for (x, t) in vars {
        copied.push((*x, copy_type(t)?))?;
    }
    Ok(copied)
}

/// A copy of an answer.
pub fn copy_answer(alloc: Global, answer: &Answer) -> Result<Answer, Memory>
    ensures { IfOk result (λ a. answer_of a ≡ answer_of answer.now) }
{
    let binds = copy_terms(alloc, answer.binds.items())?;
    let conds = answer.conds.items().to_vec(alloc)?;
    let vars = copy_vars(alloc, answer.vars.items())?;
    Ok(Answer {
        binds: List::of(binds),
        conds: List::of(conds),
        vars: List::of(vars),
    })
}
