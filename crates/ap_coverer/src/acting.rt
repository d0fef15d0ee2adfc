//! Terms on which swappings act.

ghost use Rattle.std.specs.Prelude.{◌≡◌, IfOk};
ghost use Rattle.ap_defs.specs.Terms.{act_term, term_of};

use ap_defs::lists::Swaps;
use ap_defs::memory::Memory;
use ap_defs::spines::{TermLayer, close_term};
use ap_defs::terms::{Name, Swap, Term};
use ap_perm::joining::joined;
use ap_perm::swappings::image;
use std::alloc::Global;

/// A copy of a term on which swappings act. It calls itself on left parts of pairs alone.
#[tactic(auto, using(ap_defs::proofs::SpineLemmas::term_within_last))]
pub(crate) fn moved(alloc: Global, swaps: &[Swap], term: &Term) -> Result<Term, Memory>
    ensures { IfOk result (λ t. term_of t ≡ act_term swaps.now (term_of term.now)) }
{
    let mut layers = Vec::new(alloc);
    let mut rest = term;
    loop {
        match rest {
            Term::Unit => return close_term(alloc, layers, Term::Unit),
            Term::Name(a) => return close_term(alloc, layers, Term::Name(image(swaps, *a))),
            Term::Susp(more, x) => {
                let all = joined(alloc, swaps, more.items())?;
                let waiting = Swaps::of(alloc, all)?;
                return close_term(alloc, layers, Term::Susp(waiting, *x));
            }
            Term::Pair(left, right) => {
                layers.push(TermLayer::Left(moved(alloc, swaps, left)?))?;
                rest = right;
            }
            Term::App(f, argument) => {
                layers.push(TermLayer::App(*f))?;
                rest = argument;
            }
            Term::Abs(sort, num, body) => {
                let a = Name {
                    sort: *sort,
                    num: *num,
                };
                layers.push(TermLayer::Abs(image(swaps, a)))?;
                rest = body;
            }
        }
    }
}
