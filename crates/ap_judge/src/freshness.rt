//! Freshness of names for nominal terms under conditions, after Urban, Pitts and Gabbay.

ghost use Rattle.std.specs.Prelude.{◌≡◌, IfOk};
ghost use Rattle.ap_defs.specs.Freshness.{fresh_under, has_cond};
ghost use Rattle.ap_defs.specs.Permutations.{act_name, inverse};
ghost use Rattle.ap_judge.specs.Comparisons.{is_fresh_for, size_at};
ghost use Rattle.ap_judge.specs.Cited.{cited_term};
ghost use Rattle.ap_judge.specs.Closures.{scoped_term};
ghost use Rattle.ap_judge.specs.Stacks.{IsTested};

use crate::cited::Cited;
use crate::closures::{Closure, Head, head_at};
use crate::index::IndexedAnswer;
use crate::swappings::{is_same, preimage};
use ap_defs::memory::Memory;
use ap_defs::terms::{Cond, Name, Swap, Var};
use std::alloc::Global;

/// Whether the name is fresh for the variable under the swappings.
fn is_fresh_for_var(answer: &IndexedAnswer<'_>, a: Name, swaps: &[Swap], var: Var) -> bool
    ensures { result ≡
        has_cond (record { name = act_name (inverse swaps.now) a; var = var }) answer.now.conds }
{
    let name = preimage(swaps, a);
    answer.has(&Cond { name, var })
}

/// Looks at the head of a term for which the name is to be fresh: its parts wait to be looked at.
#[tactic(auto, using(crate::proofs::StackLemmas::replaced_none, crate::proofs::StackLemmas::replaced_one, crate::proofs::StackLemmas::replaced_two))]
fn look<'a>(
    alloc: Global,
    answer: &IndexedAnswer<'_>,
    a: Name,
    pending: &mut Vec<Closure<'a>>,
    t: &Closure<'a>,
) -> Result<bool, Memory>
    ensures { IfOk result (λ yes. IsTested (is_fresh_for answer.now.conds a) size_at t.now
        pending.old.items pending.new.items yes) }
{
    match head_at(alloc, t)? {
        Head::Unit => Ok(true),
        Head::Name(b) => Ok(!is_same(&a, &b)),
        Head::Susp(swaps, x) => Ok(is_fresh_for_var(answer, a, &swaps, x)),
        Head::Pair(left, right) => {
            pending.push(right)?;
            pending.push(left)?;
            Ok(true)
        }
        Head::App(_, argument) => {
            pending.push(argument)?;
            Ok(true)
        }
        Head::Abs(b, body) => {
            if is_same(&a, &b) {
                return Ok(true);
            }
            pending.push(body)?;
            Ok(true)
        }
    }
}

/// Whether the name is fresh for the closure's term under the answer's conditions. The parts of the term
/// that are left stand on a stack, so none is too deep.
pub fn is_fresh_at(
    alloc: Global,
    answer: &IndexedAnswer<'_>,
    a: Name,
    t: Closure<'_>,
) -> Result<bool, Memory>
    ensures { IfOk result (λ yes. yes ≡ fresh_under answer.now.conds a (scoped_term t.entry)) }
{
    let mut pending = Vec::new(alloc);
    pending.push(t)?;
    while let Some(next) = pending.pop() {
        if !look(alloc, answer, a, &mut pending, &next)? {
            return Ok(false);
        }
    }
    Ok(true)
}

/// Whether the name is fresh for the term under the answer's conditions. `Err` is want of memory.
pub fn is_fresh_under(
    alloc: Global,
    answer: &IndexedAnswer<'_>,
    a: Name,
    t: Cited<'_>,
) -> Result<bool, Memory>
    ensures { IfOk result (λ yes. yes ≡ fresh_under answer.now.conds a (cited_term t.entry)) }
{
    is_fresh_at(alloc, answer, a, Closure::Whole(t))
}
