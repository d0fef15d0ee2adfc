//! Terms that are made anew, part by part.
//!
//! What stands round the part in hand lies on a stack, so a part may be as deep as memory has room for, on
//! either side.

ghost use Rattle.std.specs.Prelude.{◌≡◌, ◌<◌, ◌+◌, ◌++◌, ◌∷◌, ℕ, IfOk, OnOk};
ghost use Rattle.ap_defs.specs.Terms.{NominalTerm, term_of};
ghost use Rattle.ap_defs.specs.Walks.{term_framed, term_in_frames, term_made, term_work, term_frame_work, term_frames_work, parts_of, waiting_parts};

use crate::memory::Memory;
use crate::spines::{TermLayer, term_in};
use crate::terms::Term;
use std::alloc::Global;

/// What stands round the part in hand: a layer that is made, or the right part of a pair, which waits.
#[derive(Drop)]
pub enum TermFrame<'a> {
    In(TermLayer),
    Before(&'a Term),
}

/// A part of a term that is still to be read, or what was made of one.
#[derive(Drop)]
pub enum TermPart<'a> {
    Left(&'a Term),
    Made(Term),
}

/// Goes out of a part that is made: to the right part of the pair, where that waits, and else to what stands
/// round both.
#[tactic(auto, using(crate::proofs::WalkLemmas::term_frames_last, crate::proofs::WalkLemmas::term_work_last))]
pub fn leave_term<'a>(
    alloc: Global,
    frames: &mut Vec<TermFrame<'a>>,
    frame: TermFrame<'a>,
    made: Term,
) -> Result<TermPart<'a>, Memory>
    ensures same { IfOk result (λ p. (f : NominalTerm → NominalTerm) →
        term_in_frames f frames.new.items (term_made f p)
        ≡ term_in_frames f frames.old.items (term_framed f frame.entry (term_of made))) }
    ensures less { IfOk result (λ p. term_frames_work frames.new.items + term_work p
        < term_frames_work frames.old.items + term_frame_work frame.entry) }
{
    match frame {
        TermFrame::In(layer) => Ok(TermPart::Made(term_in(alloc, layer, made)?)),
        TermFrame::Before(right) => {
            frames.push(TermFrame::In(TermLayer::Left(made)))?;
            Ok(TermPart::Left(right))
        }
    }
}

/// Lets the parts right below one wait, of which the left one comes next.
#[tactic(auto, using(crate::proofs::PartLemmas::waiting_last, crate::proofs::PartLemmas::two_wait))]
fn add_parts_of<'a>(waiting: &mut Vec<&'a Term>, t: &'a Term) -> Result<(), Memory>
    ensures { OnOk result (term_of t.now ∷ waiting_parts waiting.new.items
        ≡ parts_of (term_of t.now) ++ waiting_parts waiting.old.items) }
{
    match t {
        Term::Unit | Term::Name(_) | Term::Susp(_, _) => {}
        Term::Pair(left, right) => {
            waiting.push(right)?;
            waiting.push(left)?;
        }
        Term::App(_, argument) => waiting.push(argument)?,
        Term::Abs(_, _, body) => waiting.push(body)?,
    }
    Ok(())
}

/// The parts of a term that are still to be looked at: each comes before its own parts, and the left part of a
/// pair before the right one.
#[derive(Drop)]
pub struct Parts<'a> {
    waiting: Vec<&'a Term>,
}

impl<'a> Parts<'a> {
    ghost use Rattle.std.specs.Prelude.{[], MatchOption};
    ghost use Rattle.ap_defs.specs.Walks.{parts_left};

    /// All parts of a term, itself the first.
    pub fn of(alloc: Global, t: &'a Term) -> Result<Parts<'a>, Memory>
        ensures { IfOk result (λ p. parts_left p ≡ parts_of (term_of t.now)) }
    {
        let mut waiting = Vec::new(alloc);
        waiting.push(t)?;
        Ok(Parts { waiting })
    }

    /// The next part, or none where all were looked at.
    #[tactic(auto, using(crate::proofs::PartLemmas::last_waits))]
    pub fn next(&mut self) -> Result<Option<&'a Term>, Memory>
        ensures { IfOk result (λ next. MatchOption next (parts_left self.old ≡ [])
            (λ t. parts_left self.old ≡ term_of t.now ∷ parts_left self.new)) }
    {
        let Some(t) = self.waiting.pop() else {
            return Ok(None);
        };
        add_parts_of(&mut self.waiting, t)?;
        Ok(Some(t))
    }
}
