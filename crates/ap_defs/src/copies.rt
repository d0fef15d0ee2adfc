//! Copies of terms and types.

ghost use Rattle.std.specs.Prelude.{◌≡◌, ◌<◌, ◌+◌, ◌*◌, IfOk};
ghost use Rattle.ap_defs.specs.Terms.{term_of};
ghost use Rattle.ap_defs.specs.Types.{type_of, kind_of};
ghost use Rattle.ap_defs.specs.Unification.{size};
ghost use Rattle.ap_defs.specs.Walks.{term_in_frames, term_made, term_work, term_frames_work};

use crate::goals::Kind;
use crate::lists::Swaps;
use crate::memory::Memory;
use crate::spines::TermLayer;
use crate::terms::{Name, Term, Ty};
use crate::walks::{TermFrame, TermPart, leave_term};
use std::alloc::Global;
use std::sync::Arc;

/// Reads a part of a term: what stands round the next one is kept, unless this one has no parts.
fn copy_part<'a>(
    alloc: Global,
    frames: &mut Vec<TermFrame<'a>>,
    t: &'a Term,
) -> Result<TermPart<'a>, Memory>
    ensures same { IfOk result (λ p. term_in_frames (λ u. u) frames.new.items (term_made (λ u. u) p)
        ≡ term_in_frames (λ u. u) frames.old.items (term_of t.now)) }
    ensures less { IfOk result (λ p. term_frames_work frames.new.items + term_work p
        < term_frames_work frames.old.items + 3 * size (term_of t.now)) }
{
    match t {
        Term::Unit => Ok(TermPart::Made(Term::Unit)),
        Term::Name(a) => Ok(TermPart::Made(Term::Name(*a))),
        Term::Susp(swaps, x) => {
            let swaps = swaps.items().to_vec(alloc)?;
            Ok(TermPart::Made(Term::Susp(Swaps::of(alloc, swaps)?, *x)))
        }
        Term::Pair(left, right) => {
            frames.push(TermFrame::Before(right))?;
            Ok(TermPart::Left(left))
        }
        Term::App(f, argument) => {
            frames.push(TermFrame::In(TermLayer::App(*f)))?;
            Ok(TermPart::Left(argument))
        }
        Term::Abs(sort, num, body) => {
            let a = Name {
                sort: *sort,
                num: *num,
            };
            frames.push(TermFrame::In(TermLayer::Abs(a)))?;
            Ok(TermPart::Left(body))
        }
    }
}

/// A copy of a term.
#[tactic(auto, using(crate::proofs::WalkLemmas::term_frames_last, crate::proofs::WalkLemmas::term_work_last))]
pub fn copy_term(alloc: Global, t: &Term) -> Result<Term, Memory>
    ensures { IfOk result (λ u. term_of u ≡ term_of t.now) }
{
    let mut frames = Vec::new(alloc);
    let mut part = TermPart::Left(t);
    'copying: loop {
        match part {
            TermPart::Left(t) => part = copy_part(alloc, &mut frames, t)?,
            TermPart::Made(t) => match frames.pop() {
                None => return Ok(t),
                Some(frame) => part = leave_term(alloc, &mut frames, frame, t)?,
            },
        }
    }
}

/// A copy of a type, which shares its parts. `Err`: a part has as many owners as can be counted.
pub fn copy_type(t: &Ty) -> Result<Ty, Memory>
    ensures { IfOk result (λ u. type_of u ≡ type_of t.now) }
{
    match t {
        Ty::Unit => Ok(Ty::Unit),
        Ty::Names(sort) => Ok(Ty::Names(*sort)),
        Ty::Base(data) => Ok(Ty::Base(*data)),
        Ty::Pair(left, right) => Ok(Ty::Pair(Arc::try_clone(left)?, Arc::try_clone(right)?)),
        Ty::List(element) => Ok(Ty::List(Arc::try_clone(element)?)),
        Ty::Abs(sort, body) => Ok(Ty::Abs(*sort, Arc::try_clone(body)?)),
    }
}

/// A copy of a kind.
pub fn copy_kind(kind: &Kind) -> Result<Kind, Memory>
    ensures { IfOk result (λ copied. kind_of copied ≡ kind_of kind.now) }
{
    match kind {
        Kind::Name(sort) => Ok(Kind::Name(*sort)),
        Kind::Var(t) => Ok(Kind::Var(copy_type(t)?)),
    }
}
