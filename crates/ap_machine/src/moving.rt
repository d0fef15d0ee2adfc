//! Terms that swappings move, with canonical lists.

ghost use Rattle.std.specs.Prelude.{◌≡◌, [], ◌<◌, ◌+◌, ◌*◌, IfOk};
ghost use Rattle.ap_defs.specs.Terms.{term_of};
ghost use Rattle.ap_defs.specs.Unification.{size};
ghost use Rattle.ap_defs.specs.Walks.{term_in_frames, term_made, term_work, term_frames_work};
ghost use Rattle.ap_machine.specs.Closed.{canonically_moved};

use crate::closing::{canonical_of, waiting_of};
use ap_defs::lists::Swaps;
use ap_defs::memory::Memory;
use ap_defs::spines::TermLayer;
use ap_defs::terms::{Name, Swap, Term};
use ap_defs::walks::{TermFrame, TermPart, leave_term};
use ap_perm::joining::joined;
use ap_perm::swappings::image;
use std::alloc::Global;

/// Reads a part of a term that is moved: what stands round the next one is kept, unless this one has no parts.
fn move_part<'a>(
    alloc: Global,
    none: &Swaps,
    swaps: &[Swap],
    frames: &mut Vec<TermFrame<'a>>,
    t: &'a Term,
) -> Result<TermPart<'a>, Memory>
    requires { none.now ≡ [] }
    ensures same { IfOk result (λ p.
        term_in_frames (canonically_moved swaps.now) frames.new.items
        (term_made (canonically_moved swaps.now) p)
        ≡ term_in_frames (canonically_moved swaps.now) frames.old.items
        (canonically_moved swaps.now (term_of t.now))) }
    ensures less { IfOk result (λ p. term_frames_work frames.new.items + term_work p
        < term_frames_work frames.old.items + 3 * size (term_of t.now)) }
{
    match t {
        Term::Unit => Ok(TermPart::Made(Term::Unit)),
        Term::Name(a) => Ok(TermPart::Made(Term::Name(image(swaps, *a)))),
        Term::Susp(own, x) => {
            let all = joined(alloc, swaps, own.items())?;
            let waiting = canonical_of(alloc, all)?;
            Ok(TermPart::Made(Term::Susp(waiting_of(alloc, none, waiting)?, *x)))
        }
        Term::Pair(left, right) => {
            frames.push(TermFrame::Before(right))?;
            Ok(TermPart::Left(left))
        }
        Term::App(f, argument) => {
            frames.push(TermFrame::In(TermLayer::App(*f)))?;
            Ok(TermPart::Left(argument))
        }
        Term::Abs(sort, num, body) => {
            let a = Name {
                sort: *sort,
                num: *num,
            };
            let binder = image(swaps, a);
            frames.push(TermFrame::In(TermLayer::Abs(binder)))?;
            Ok(TermPart::Left(body))
        }
    }
}

/// What swappings make of a term, with canonical lists. Suspensions on which then none wait share the given ones,
/// which are none.
#[tactic(auto, using(ap_defs::proofs::WalkLemmas::term_frames_last, ap_defs::proofs::WalkLemmas::term_work_last))]
pub(crate) fn moved_term(
    alloc: Global,
    none: &Swaps,
    swaps: &[Swap],
    t: &Term,
) -> Result<Term, Memory>
    requires { none.now ≡ [] }
    ensures { IfOk result (λ u. term_of u ≡ canonically_moved swaps.now (term_of t.now)) }
{
    let mut frames = Vec::new(alloc);
    let mut part = TermPart::Left(t);
    'moving: loop {
        match part {
            TermPart::Left(t) => part = move_part(alloc, none, swaps, &mut frames, t)?,
            TermPart::Made(t) => match frames.pop() {
                None => return Ok(t),
                Some(frame) => part = leave_term(alloc, &mut frames, frame, t)?,
            },
        }
    }
}
