// Terms that are entered in a table, each behind its parts. What is still to be entered stands on a stack.
ghost use Rattle.std.specs.Prelude.{◌≡◌, ◌<◌, ◌++◌, length, reverse, IfOk, IfSome, OnOk};
ghost use Rattle.std.specs.Option.{option_map};
ghost use Rattle.ap_defs.specs.Terms.{term_of};
ghost use Rattle.ap_bundle.specs.Forms.{first};
ghost use Rattle.ap_bundle.specs.Tables.{with_parts};
ghost use Rattle.ap_shared.specs.Entering.{pair_by, steps_through, steps_waiting, taken_by};
ghost use Rattle.ap_shared.specs.Shared.{AreLinesBelow, IsBehind, entry_term, shared_at};
ghost use Rattle.ap_shared.specs.SharedViews.{shared_terms};

use crate::arena::SharedTerms;
use crate::lines::Entry;
use ap_defs::lists::Swaps;
use ap_defs::memory::Memory;
use ap_defs::terms::Term;
use std::alloc::Global;

/// A step of a walk through a term: to it, or behind its parts.
#[derive(Clone, Copy)]
enum Step<'a> {
    Enter(&'a Term),
    Leave(&'a Term),
}

/// Puts the steps of a term before those that are left.
fn push_steps<'a>(steps: &mut Vec<Step<'a>>, term: &'a Term) -> Result<(), Memory>
    ensures { OnOk result (steps_waiting steps.new.items
        ≡ steps_through (term_of term.now) ++ steps_waiting steps.old.items) }
{
    steps.push(Step::Leave(term))?;
    match term {
        Term::Unit | Term::Name(_) | Term::Susp(_, _) => {}
        Term::Pair(left, right) => {
            steps.push(Step::Enter(right))?;
            steps.push(Step::Enter(left))?;
        }
        Term::App(_, part) | Term::Abs(_, _, part) => steps.push(Step::Enter(part))?,
    }
    Ok(())
}

/// The line that comes first, taken off.
#[tactic(auto, using(crate::proofs::EnteringLemmas::first_within, crate::proofs::EnteringLemmas::others_below))]
fn first_line(terms: &SharedTerms, lines: &mut Vec<usize>) -> Option<usize>
    requires { AreLinesBelow (length (shared_terms terms.now)) (reverse lines.old.items) }
    ensures value { option_map (λ i. (i, reverse lines.new.items)) result
        ≡ first (reverse lines.old.items) }
    ensures within { IfSome result (λ i. i < length (shared_terms terms.now)) }
    ensures below { IfSome result (λ i.
        AreLinesBelow (length (shared_terms terms.now)) (reverse lines.new.items)) }
{
    lines.pop()
}

/// What the line of a pair says, by the lines of its parts, which are taken off.
fn pair_entry(terms: &SharedTerms, lines: &mut Vec<usize>) -> Option<Entry>
    requires { AreLinesBelow (length (shared_terms terms.now)) (reverse lines.old.items) }
    ensures value { option_map
        (λ e. (entry_term (shared_terms terms.now) e, reverse lines.new.items)) result
        ≡ pair_by (shared_terms terms.now) (reverse lines.old.items) }
    ensures behind { IfSome result (IsBehind (length (shared_terms terms.now))) }
    ensures below { IfSome result (λ e.
        AreLinesBelow (length (shared_terms terms.now)) (reverse lines.new.items)) }
{
    let right = first_line(terms, lines)?;
    let left = first_line(terms, lines)?;
    Some(Entry::Pair(left, right))
}

/// What the line of a term says, by the lines of its parts, which are taken off.
fn entry_of(
    alloc: Global,
    terms: &SharedTerms,
    term: &Term,
    lines: &mut Vec<usize>,
) -> Result<Option<Entry>, Memory>
    requires { AreLinesBelow (length (shared_terms terms.now)) (reverse lines.old.items) }
    ensures value { IfOk result (λ r.
        option_map (λ e. (entry_term (shared_terms terms.now) e, reverse lines.new.items)) r
        ≡ taken_by (shared_terms terms.now) (term_of term.now) (reverse lines.old.items)) }
    ensures behind { IfOk result (λ r. IfSome r (IsBehind (length (shared_terms terms.now)))) }
    ensures below { IfOk result (λ r. IfSome r (λ e.
        AreLinesBelow (length (shared_terms terms.now)) (reverse lines.new.items))) }
{
    match term {
        Term::Unit => Ok(Some(Entry::Unit)),
        Term::Name(name) => Ok(Some(Entry::Name(*name))),
        Term::Pair(_, _) => Ok(pair_entry(terms, lines)),
        Term::App(constructor, _) => {
            let Some(part) = first_line(terms, lines) else {
                return Ok(None);
            };
            Ok(Some(Entry::App(*constructor, part)))
        }
        Term::Abs(sort, num, _) => {
            let Some(part) = first_line(terms, lines) else {
                return Ok(None);
            };
            Ok(Some(Entry::Abs(*sort, *num, part)))
        }
        Term::Susp(swaps, var) => {
            let swaps = Swaps::of(alloc, swaps.items().to_vec(alloc)?)?;
            Ok(Some(Entry::Susp(swaps, *var)))
        }
    }
}

/// A term with its parts more, none of them looked for. It answers its line.
pub fn enter(alloc: Global, terms: &mut SharedTerms, term: &Term) -> Result<usize, Memory>
    ensures terms { OnOk result (shared_terms terms.new
        ≡ shared_terms terms.old ++ with_parts (term_of term.now)) }
    ensures within { IfOk result (λ i. i < length (shared_terms terms.new)) }
    ensures line { IfOk result (λ i. shared_at (shared_terms terms.new) i ≡ term_of term.now) }
{
    let mut lines = Vec::new(alloc);
    let mut steps = Vec::new(alloc);
    steps.push(Step::Enter(term))?;
    while let Some(step) = steps.pop() {
        match step {
            Step::Enter(next) => push_steps(&mut steps, next)?,
            Step::Leave(next) => {
                let Some(entry) = entry_of(alloc, terms, next, &mut lines)? else {
                    unreachable!();
                };
                let line = terms.add(entry)?;
                lines.push(line)?;
            }
        }
    }
    let Some(line) = lines.pop() else {
        unreachable!();
    };
    Ok(line)
}
