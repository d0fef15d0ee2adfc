//! The pieces of a body: conditions at the side of its rule, and premises.

ghost use Rattle.std.specs.Prelude.{◌≡◌, ◌++◌, ◌∷◌, [], length, map, reverse, IfOk, OnOk};
ghost use Rattle.ap_defs.specs.Derivations.{derivation_of};
ghost use Rattle.ap_defs.specs.Goals.{goal_of};
ghost use Rattle.ap_defs.specs.Terms.{term_of};
ghost use Rattle.ap_judge.specs.Scopes.{environment_of};
ghost use Rattle.ap_steps.specs.Steps.{pieces};
ghost use Rattle.ap_steps.specs.Walks.{ArePartsMarked, WritesOn, parts_pending, part_at, premise_piece, side_piece};
ghost use Rattle.ap_steps.specs.Writers.{piece_of, writing_of};

use crate::judgements::{atom, relation};
use crate::steps::Phrase;
use crate::writers::Writer;
use ap_defs::goals::Goal;
use ap_defs::memory::Memory;
use ap_defs::outcomes::Derivation;
use ap_defs::terms::Term;
use ap_judge::cited::Cited;
use ap_judge::scope::Standing;

/// An atom of a body, with its derivation, and how many steps its own stands under.
#[derive(Drop)]
pub(crate) struct Premise<'a> {
    pub derivation: &'a Derivation,
    pub pred: u32,
    pub judgement: Phrase,
}

/// A condition at the side of a rule, or a premise.
#[derive(Drop)]
pub(crate) enum Piece<'a> {
    Side(Phrase),
    Premise(Premise<'a>),
}

/// A node of a body that is yet to be looked at, the goal that it is to prove, and how much of what stands
/// for identifiers stands there.
#[derive(Clone, Copy)]
pub(crate) struct Part<'a> {
    pub derivation: &'a Derivation,
    pub goal: &'a Goal<Term>,
    pub mark: usize,
}

/// A walk over a body: what stands for identifiers, the innermost last, the nodes that are left, the next
/// one last, and the pieces so far.
#[derive(Drop)]
pub(crate) struct Body<'a> {
    pub standing: Vec<Standing<'a>>,
    pub pending: Vec<Part<'a>>,
    pub pieces: Vec<Piece<'a>>,
}

impl<'a> Body<'a> {
    /// Something stands innermost.
    fn bring(&mut self, what: Standing<'a>) -> Result<(), Memory>
        ensures standing { OnOk result (self.new.standing.items
            ≡ self.old.standing.items ++ what.entry ∷ []) }
        ensures pending { self.new.pending.items ≡ self.old.pending.items }
        ensures pieces { self.new.pieces.items ≡ self.old.pieces.items }
    {
        self.standing.push(what)?;
        Ok(())
    }

    /// A node comes next, where all stands that stands now.
    fn put(&mut self, derivation: &'a Derivation, goal: &'a Goal<Term>) -> Result<(), Memory>
        ensures standing { self.new.standing.items ≡ self.old.standing.items }
        ensures pending { OnOk result (self.new.pending.items ≡ self.old.pending.items
            ++ part_at derivation.entry goal.entry (length self.old.standing.items) ∷ []) }
        ensures pieces { self.new.pieces.items ≡ self.old.pieces.items }
    {
        let mark = self.standing.len();
        self.pending.push(Part {
            derivation,
            goal,
            mark,
        })?;
        Ok(())
    }

    /// Keeps a piece.
    fn keep(&mut self, piece: Piece<'a>) -> Result<(), Memory>
        ensures standing { self.new.standing.items ≡ self.old.standing.items }
        ensures pending { self.new.pending.items ≡ self.old.pending.items }
        ensures pieces { OnOk result (self.new.pieces.items
            ≡ self.old.pieces.items ++ piece.entry ∷ []) }
    {
        self.pieces.push(piece)?;
        Ok(())
    }
}

/// The node of an atom, which is a premise.
fn visit_atom<'a>(
    writer: &Writer<'_>,
    body: &mut Body<'a>,
    derivation: &'a Derivation,
    pred: u32,
    args: &[Term],
) -> Result<(), Memory>
    ensures standing { OnOk result (body.new.standing.items ≡ body.old.standing.items) }
    ensures pending { OnOk result (body.new.pending.items ≡ body.old.pending.items) }
    ensures pieces { OnOk result (map piece_of body.new.pieces.items
        ≡ map piece_of body.old.pieces.items ++ premise_piece (writing_of writer.now)
        (derivation_of derivation.now) pred (map term_of args.now)
        (environment_of body.old.standing.items) ∷ []) }
{
    let judgement = atom(writer, body.standing.as_slice(), pred, args)?;
    body.keep(Piece::Premise(Premise {
        derivation,
        pred,
        judgement,
    }))
}

/// The node of an equation or a freshness goal, which is a condition at the side of the rule.
fn visit_relation(
    writer: &Writer<'_>,
    body: &mut Body<'_>,
    left: &Term,
    sign: &[u8],
    right: &Term,
) -> Result<(), Memory>
    ensures standing { OnOk result (body.new.standing.items ≡ body.old.standing.items) }
    ensures pending { OnOk result (body.new.pending.items ≡ body.old.pending.items) }
    ensures pieces { OnOk result (map piece_of body.new.pieces.items
        ≡ map piece_of body.old.pieces.items ++ side_piece (writing_of writer.now) sign.now
        (term_of left.now) (term_of right.now) (environment_of body.old.standing.items) ∷ []) }
{
    let side = relation(writer, body.standing.as_slice(), left, sign, right)?;
    body.keep(Piece::Side(side))
}

/// Looks at a node: what is below it comes next.
fn visit<'a>(
    writer: &Writer<'_>,
    body: &mut Body<'a>,
    derivation: &'a Derivation,
    goal: &'a Goal<Term>,
) -> Result<(), Memory>
    requires { ArePartsMarked (length body.old.standing.items) (parts_pending body.old) }
    ensures { OnOk result (WritesOn (writing_of writer.now) (derivation_of derivation.now)
        (goal_of goal.now) body.old body.new) }
{
    match (derivation, goal) {
        (Derivation::Atom(_, _), Goal::Atom(pred, args)) => {
            visit_atom(writer, body, derivation, *pred, args.items())?;
            Ok(())
        }
        (Derivation::Eq, Goal::Equal(left, right)) => {
            visit_relation(writer, body, left, b" = ", right)?;
            Ok(())
        }
        (Derivation::Fresh, Goal::Fresh(left, right)) => {
            visit_relation(writer, body, left, b" # ", right)?;
            Ok(())
        }
        (Derivation::Both(first, second), Goal::Both(left, right)) => {
            body.put(second, right)?;
            body.put(first, left)?;
            Ok(())
        }
        (Derivation::Left(below), Goal::Either(left, _)) => {
            body.put(below, left)?;
            Ok(())
        }
        (Derivation::Right(below), Goal::Either(_, right)) => {
            body.put(below, right)?;
            Ok(())
        }
        (Derivation::Exists(term, below), Goal::Exists(x, goal)) => {
            body.bring(Standing::Term(*x, Cited::Tree(term)))?;
            body.put(below, goal)?;
            Ok(())
        }
        (Derivation::New(name, below), Goal::New(own, goal)) => {
            body.bring(Standing::Name(*own, **name))?;
            body.put(below, goal)?;
            Ok(())
        }
        _ => Ok(()),
    }
}

/// The pieces of a body, whose item's free identifiers stand for what they are given.
pub(crate) fn pieces_of<'a>(
    writer: &Writer<'_>,
    given: Standing<'a>,
    derivation: &'a Derivation,
    goal: &'a Goal<Term>,
) -> Result<Vec<Piece<'a>>, Memory>
    ensures { IfOk result (λ v. map piece_of v.items ≡ pieces (writing_of writer.now)
        (derivation_of derivation.now) (goal_of goal.now) (environment_of (given.entry ∷ []))) }
{
    let mut body = Body {
        standing: Vec::new(writer.alloc),
        pending: Vec::new(writer.alloc),
        pieces: Vec::new(writer.alloc),
    };
    body.bring(given)?;
    body.put(derivation, goal)?;
    'nodes: while let Some(next) = body.pending.pop() {
        body.standing.truncate(next.mark);
        visit(writer, &mut body, next.derivation, next.goal)?;
    }
    let Body { pieces, .. } = body;
    Ok(pieces)
}
