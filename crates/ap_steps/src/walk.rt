//! The steps below a goal, in preorder.

ghost use Rattle.std.specs.Prelude.{◌≡◌, ◌<◌, ◌≤◌, ◌+◌, ◌++◌, ◌∷◌, [], ℕ, List as list, map, IfOk, MatchOption, OnOk};
ghost use Rattle.ap_defs.specs.Derivations as nodes;
ghost use Rattle.ap_defs.specs.Derivations.{derivation_of};
ghost use Rattle.ap_defs.specs.Goals.{clause_of};
ghost use Rattle.ap_defs.specs.Terms.{term_of};
ghost use Rattle.ap_checks.specs.Checks.{node_count};
ghost use Rattle.ap_steps.specs.Steps.{DerivationWriting, clause_rule, clause_steps, premises_in, sides_in};
ghost use Rattle.ap_steps.specs.Waits.{atom_steps, premise_nodes, premises_steps, steps_left, steps_of_waiting, waiting_nodes};
ghost use Rattle.ap_steps.specs.Writers.{bare, piece_of, written_step, writing_of};

use crate::bodies::{Piece, Premise, pieces_of};
use crate::steps::{Phrase, Step};
use crate::writers::Writer;
use ap_defs::goals::Clause;
use ap_defs::lists::List;
use ap_defs::memory::Memory;
use ap_defs::outcomes::Derivation;
use ap_defs::terms::{Name, Term};
use ap_judge::cited::CitedTerms;
use ap_judge::identifiers::Identifiers;
use ap_judge::lookups::clause_at;
use ap_judge::scope::Standing;
use std::alloc::Global;

/// A premise whose steps are yet to come, and how many steps its own stands under.
#[derive(Drop)]
pub(crate) struct Waiting<'a> {
    pub premise: Premise<'a>,
    pub depth: usize,
}

/// Keeps a condition at the side of a rule, or has a premise wait.
#[tactic(auto, using(crate::proofs::WaitLemmas::premise_waits, crate::proofs::WaitLemmas::premise_counts))]
fn place_piece<'a>(
    piece: Piece<'a>,
    depth: usize,
    sides: &mut Vec<Phrase>,
    waiting: &mut Vec<Waiting<'a>>,
) -> Result<(), Memory>
    ensures sides { OnOk result (map bare sides.new.items
        ≡ map bare sides.old.items ++ sides_in (piece_of piece.entry ∷ [])) }
    ensures steps { (w : DerivationWriting) → OnOk result (steps_left w waiting.new.items
        ≡ premises_steps w depth (premises_in (piece_of piece.entry ∷ []))
        ++ steps_left w waiting.old.items) }
    ensures nodes { OnOk result (waiting_nodes waiting.new.items
        ≡ premise_nodes (premises_in (piece_of piece.entry ∷ []))
        + waiting_nodes waiting.old.items) }
{
    match piece {
        Piece::Side(side) => sides.push(side)?,
        Piece::Premise(premise) => waiting.push(Waiting { premise, depth })?,
    }
    Ok(())
}

/// Has the premises among the pieces of a body wait, the first one next, and gives the conditions at the side
/// of its rule.
pub(crate) fn place_pieces<'a>(
    alloc: Global,
    mut pieces: Vec<Piece<'a>>,
    depth: usize,
    waiting: &mut Vec<Waiting<'a>>,
) -> Result<Vec<Phrase>, Memory>
    ensures sides { IfOk result (λ sides.
        map bare sides.items ≡ sides_in (map piece_of pieces.entry.items)) }
    ensures steps { (w : DerivationWriting) → OnOk result (steps_left w waiting.new.items
        ≡ premises_steps w depth (premises_in (map piece_of pieces.entry.items))
        ++ steps_left w waiting.old.items) }
    ensures nodes { OnOk result (waiting_nodes waiting.new.items
        ≡ premise_nodes (premises_in (map piece_of pieces.entry.items))
        + waiting_nodes waiting.old.items) }
{
    let mut sides = Vec::new(alloc);
    'pieces: while let Some(piece) = pieces.pop() {
        place_piece(piece, depth, &mut sides, waiting)?;
    }
    sides.reverse();
    Ok(sides)
}

/// The rule of the clause with a number, at a line.
fn rule_of_clause(alloc: Global, number: u32, line: u64) -> Result<List<u8>, Memory>
    ensures { IfOk result (λ text. text ≡ clause_rule number line) }
{
    let text = format!(in alloc; "clause {number}, line {line}")?;
    Ok(List::of(text.into_bytes()))
}

/// How an atom was solved: the number of the clause, the names and terms for its free identifiers, and the
/// derivation of its body.
#[derive(Clone, Copy)]
struct Use<'a> {
    number: u32,
    names: &'a [Name],
    terms: &'a [Term],
    body: &'a Derivation,
}

/// How an atom was solved, if this is a derivation of one.
fn use_of(derivation: &Derivation) -> Option<Use<'_>>
    ensures { MatchOption result
        ((w : DerivationWriting) (n q : ℕ) (judgement : list ℕ) →
        atom_steps w n q judgement (derivation_of derivation.now) ≡ [])
        (λ u. derivation_of derivation.now
        ≡ nodes.atom u.number u.names.now (map term_of u.terms.now) (derivation_of u.body.now)) }
{
    match derivation {
        Derivation::Atom(used, body) => Some(Use {
            number: used.clause,
            names: used.names.items(),
            terms: used.terms.items(),
            body,
        }),
        Derivation::Eq => None,
        Derivation::Fresh => None,
        Derivation::True => None,
        Derivation::Both(_, _) => None,
        Derivation::Left(_) => None,
        Derivation::Right(_) => None,
        Derivation::Exists(_, _) => None,
        Derivation::New(_, _) => None,
    }
}

/// Gives the step of an atom that was solved by a clause, and has those of the clause's body wait.
fn take_clause<'a>(
    writer: &Writer<'a>,
    depth: usize,
    judgement: Phrase,
    used: Use<'a>,
    clause: &'a Clause<Term>,
    steps: &mut Vec<Step>,
    waiting: &mut Vec<Waiting<'a>>,
) -> Result<(), Memory>
    ensures steps { OnOk result (map written_step steps.new.items
        ++ steps_left (writing_of writer.now) waiting.new.items ≡ map written_step steps.old.items
        ++ (clause_steps (writing_of writer.now) depth judgement.text used.entry.number
        used.entry.names.now (map term_of used.entry.terms.now)
        (derivation_of used.entry.body.now) (clause_of clause.now)
        ++ steps_left (writing_of writer.now) waiting.old.items)) }
    ensures nodes { OnOk result (waiting_nodes waiting.new.items
        ≤ node_count (derivation_of used.entry.body.now) + waiting_nodes waiting.old.items) }
{
    let own = Identifiers::of(writer.alloc, clause.locals.items())?;
    let given = Standing::Clause(own, used.names, CitedTerms::Trees(used.terms));
    let pieces = pieces_of(writer, given, used.body, &clause.body)?;
    let sides = place_pieces(writer.alloc, pieces, depth.saturating_add(1), waiting)?;
    let rule = rule_of_clause(writer.alloc, used.number, clause.line)?;
    steps.push(Step {
        depth,
        judgement,
        rule,
        sides: List::of(sides),
    })?;
    Ok(())
}

/// Gives the step of a premise, and has those of the body of its clause wait.
#[tactic(auto, using(crate::proofs::BodyLemmas::count_some))]
fn take_step<'a>(
    writer: &Writer<'a>,
    next: Waiting<'a>,
    steps: &mut Vec<Step>,
    waiting: &mut Vec<Waiting<'a>>,
) -> Result<(), Memory>
    ensures steps { OnOk result (map written_step steps.new.items
        ++ steps_left (writing_of writer.now) waiting.new.items ≡ map written_step steps.old.items
        ++ (steps_of_waiting (writing_of writer.now) next.entry
        ++ steps_left (writing_of writer.now) waiting.old.items)) }
    ensures nodes { OnOk result (waiting_nodes waiting.new.items
        < node_count (derivation_of next.entry.premise.derivation.now)
        + waiting_nodes waiting.old.items) }
{
    let Waiting { premise, depth } = next;
    let Premise {
        derivation,
        pred,
        judgement,
    } = premise;
    let Some(used) = use_of(derivation) else {
        return Ok(());
    };
    let Some(clause) = clause_at(writer.program, pred, used.number) else {
        return Ok(());
    };
    take_clause(writer, depth, judgement, used, clause, steps, waiting)
}

/// Adds the steps of all that wait.
pub(crate) fn add_steps<'a>(
    writer: &Writer<'a>,
    steps: &mut Vec<Step>,
    mut waiting: Vec<Waiting<'a>>,
) -> Result<(), Memory>
    ensures { OnOk result (map written_step steps.new.items ≡ map written_step steps.old.items
        ++ steps_left (writing_of writer.now) waiting.entry.items) }
{
    'steps: while let Some(next) = waiting.pop() {
        take_step(writer, next, steps, &mut waiting)?;
    }
    Ok(())
}
