//! The stated instance of an answer.

ghost use Rattle.std.specs.Prelude.{◌≡◌, ◌<◌, ◌+◌, ◌*◌, IfOk, map};
ghost use Rattle.ap_defs.specs.Answers.{answer_of, typed_var_of};
ghost use Rattle.ap_defs.specs.Terms.{term_of};
ghost use Rattle.ap_defs.specs.Types.{constructor_of, locals_of};
ghost use Rattle.ap_defs.specs.Unification.{size};
ghost use Rattle.ap_defs.specs.Walks.{term_in_frames, term_made, term_work, term_frames_work};
ghost use Rattle.ap_ground.specs.TypedGroundings.{HaveInhabitants};
ghost use Rattle.ap_instance.specs.Tables.{settled_term};
ghost use Rattle.ap_instance.specs.Views.{IsStated};
ghost use Rattle.ap_picks.specs.Pickers.{IsPicker};
ghost use Rattle.ap_property.specs.Stated.{stated};

use crate::names::{Names, names_of_answer};
use crate::picks::{Picks, picks_of};
use ap_defs::goals::Local;
use ap_defs::memory::Memory;
use ap_defs::outcomes::Answer;
use ap_defs::spines::TermLayer;
use ap_defs::terms::{Name, Term};
use ap_defs::walks::{TermFrame, TermPart, leave_term};
use ap_picks::Picker;
use std::alloc::Global;

/// A ground term for each free variable of a query, and the sorts of their names that are none of the query's,
/// which are numbered on from its identifiers.
#[derive(Drop)]
pub struct Stated {
    pub terms: Vec<Term>,
    pub sorts: Vec<u32>,
}

/// Reads a part of a term of the answer, with its names settled and the picked terms for its variables: what
/// stands round the next part is kept, unless this one has no parts.
fn stated_part<'a>(
    alloc: Global,
    names: &Names,
    picks: &Picks,
    frames: &mut Vec<TermFrame<'a>>,
    term: &'a Term,
) -> Result<TermPart<'a>, Memory>
    ensures same { IfOk result (λ p. term_in_frames (settled_term names.now picks.now)
        frames.new.items (term_made (settled_term names.now picks.now) p)
        ≡ term_in_frames (settled_term names.now picks.now) frames.old.items
        (settled_term names.now picks.now (term_of term.now))) }
    ensures less { IfOk result (λ p. term_frames_work frames.new.items + term_work p
        < term_frames_work frames.old.items + 3 * size (term_of term.now)) }
{
    match term {
        Term::Unit => Ok(TermPart::Made(Term::Unit)),
        Term::Name(a) => Ok(TermPart::Made(Term::Name(names.settled(*a)?))),
        Term::Susp(_, x) => Ok(TermPart::Made(picks.of(alloc, *x)?)),
        Term::Pair(left, right) => {
            frames.push(TermFrame::Before(right))?;
            Ok(TermPart::Left(left))
        }
        Term::App(f, argument) => {
            frames.push(TermFrame::In(TermLayer::App(*f)))?;
            Ok(TermPart::Left(argument))
        }
        Term::Abs(sort, num, body) => {
            let a = Name {
                sort: *sort,
                num: *num,
            };
            let settled = names.settled(a)?;
            frames.push(TermFrame::In(TermLayer::Abs(settled)))?;
            Ok(TermPart::Left(body))
        }
    }
}

/// A term of the answer with its names settled and the picked terms for its variables.
#[tactic(auto, using(ap_defs::proofs::WalkLemmas::term_frames_last, ap_defs::proofs::WalkLemmas::term_work_last))]
fn stated_term(alloc: Global, names: &Names, picks: &Picks, term: &Term) -> Result<Term, Memory>
    ensures { IfOk result (λ t. term_of t ≡ settled_term names.now picks.now (term_of term.now)) }
{
    let mut frames = Vec::new(alloc);
    let mut part = TermPart::Left(term);
    'stating: loop {
        match part {
            TermPart::Left(t) => part = stated_part(alloc, names, picks, &mut frames, t)?,
            TermPart::Made(t) => match frames.pop() {
                None => return Ok(t),
                Some(frame) => part = leave_term(alloc, &mut frames, frame, t)?,
            },
        }
    }
}

/// The terms of an answer, in order.
fn stated_terms(
    alloc: Global,
    names: &Names,
    picks: &Picks,
    terms: &[Term],
) -> Result<Vec<Term>, Memory>
    ensures { IfOk result (λ v. map term_of v.items
        ≡ map (settled_term names.now picks.now) (map term_of terms.now)) }
{
    let mut stated = Vec::new(alloc);
    for term in terms {
        stated.push(stated_term(alloc, names, picks, term)?)?;
    }
    Ok(stated)
}

/// The stated instance of an answer to a query with these identifiers: its names are numbered on from these, and
/// each variable has the term that is picked for its type. `Err` is want of memory, or of numbers.
pub fn stated_of(
    alloc: Global,
    picker: &Picker<'_>,
    locals: &[Local],
    answer: &Answer,
) -> Result<Stated, Memory>
    requires picker { IsPicker picker.now }
    requires inhabited { HaveInhabitants (map constructor_of picker.now.constructors.now)
        (answer_of answer.now).vars }
    ensures { IfOk result (λ s. IsStated s (stated (map constructor_of picker.now.constructors.now)
        (locals_of locals.now) (answer_of answer.now))) }
{
    let names = names_of_answer(alloc, locals, answer)?;
    let mut sorts = names.sorts(alloc)?;
    let picks = picks_of(alloc, picker, names.first, answer.vars.items(), &mut sorts)?;
    let terms = stated_terms(alloc, &names, &picks, answer.binds.items())?;
    Ok(Stated { terms, sorts })
}
