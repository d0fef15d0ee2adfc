//! What the identifiers of the items of a derivation stand for.

ghost use Rattle.std.specs.Prelude.{◌≡◌, ◌<◌, ◌+◌, ◌++◌, ◌∷◌, [], map, slice_get, IfOk, OnOk};
ghost use Rattle.ap_program.specs.FreeLocals.{free_sort};
ghost use Rattle.ap_answers.specs.Locals.{lent_texts};
ghost use Rattle.ap_checks.specs.Checks.{node_count};
ghost use Rattle.ap_defs.specs.Derivations.{derivation_of};
ghost use Rattle.ap_defs.specs.Goals.{Clauses, clause_of, goal_of, program_of};
ghost use Rattle.ap_defs.specs.Lines.{name_texts};
ghost use Rattle.ap_defs.specs.Terms.{term_of};
ghost use Rattle.ap_defs.specs.Types.{local_of, locals_of};
ghost use Rattle.ap_spelling.specs.Spelt.{givens_of};
ghost use Rattle.ap_spelling.specs.Words.{name};
ghost use Rattle.ap_steps.specs.Givens.{by_local, clause_givens, givens, names_given, var_given, vars_given};
ghost use Rattle.ap_steps.specs.Obligations.{givens_at, givens_left, obligation_nodes};

use ap_answers::locals::variable_texts;
use ap_defs::goals::{Clause, Goal, Kind, Local, Program};
use ap_defs::lists::Text;
use ap_defs::memory::Memory;
use ap_defs::outcomes::Derivation;
use ap_defs::terms::{Name, Term};
use ap_judge::lookups::clause_at;
use ap_spelling::spelt::Given;
use std::alloc::Global;

/// A derivation, the goal that it is to prove, and the identifiers of the goal's item.
#[derive(Clone, Copy)]
pub(crate) struct Obligation<'a> {
    pub derivation: &'a Derivation,
    pub goal: &'a Goal<Term>,
    pub locals: &'a [Local],
}

/// The sort of an identifier that is a free name.
fn sort_of(local: &Local) -> Option<u32>
    ensures { result ≡ free_sort (local_of local.now) }
{
    match &local.kind {
        Kind::Name(sort) if !local.bound => Some(*sort),
        _ => None,
    }
}

/// The spellings of the free names, in order.
pub(crate) fn lent_name_texts(alloc: Global, locals: &[Local]) -> Result<Vec<&Text>, Memory>
    ensures { IfOk result (λ texts. lent_texts texts.items ≡ name_texts (locals_of locals.now)) }
{
    let mut texts = Vec::new(alloc);
    for local in locals {
        if sort_of(local).is_some() {
            texts.push(local.text.text())?;
        }
    }
    Ok(texts)
}

/// Adds a variable that a term is.
fn add_var_given<'a>(given: &mut Vec<Given<'a>>, term: &Term, word: &'a Text) -> Result<(), Memory>
    ensures { OnOk result (givens_of given.new.items
        ≡ givens_of given.old.items ++ var_given (term_of term.now) word.entry.now) }
{
    match term {
        Term::Susp(swaps, x) if swaps.items().is_empty() => {
            given.push(Given::Var(*x, word.as_str()))?;
            Ok(())
        }
        _ => Ok(()),
    }
}

/// Adds the names that stand for identifiers with these words.
pub(crate) fn add_names_given<'a>(
    given: &mut Vec<Given<'a>>,
    names: &[Name],
    words: &[&'a Text],
) -> Result<(), Memory>
    ensures { OnOk result (givens_of given.new.items
        ≡ givens_of given.old.items ++ names_given names.now (lent_texts words.now)) }
{
    let count = names.len().min(words.len());
    for i in 0..count {
        given.push(Given::Name(names[i], words[i].as_str()))?;
    }
    Ok(())
}

/// Adds the variables among the terms that stand for identifiers with these words.
fn add_vars_given<'a>(
    given: &mut Vec<Given<'a>>,
    terms: &[Term],
    words: &[&'a Text],
) -> Result<(), Memory>
    ensures { OnOk result (givens_of given.new.items
        ≡ givens_of given.old.items ++ vars_given (map term_of terms.now) (lent_texts words.now)) }
{
    let count = terms.len().min(words.len());
    for i in 0..count {
        add_var_given(given, &terms[i], words[i])?;
    }
    Ok(())
}

/// Has an obligation wait.
#[tactic(auto, using(crate::proofs::GivenLemmas::last_givens, crate::proofs::GivenLemmas::last_obligation))]
fn wait_at<'a>(
    waiting: &mut Vec<Obligation<'a>>,
    derivation: &'a Derivation,
    goal: &'a Goal<Term>,
    locals: &'a [Local],
) -> Result<(), Memory>
    ensures givens { (cs : Clauses) → OnOk result (givens_left cs waiting.new.items
        ≡ givens cs (locals_of locals.entry.now) (derivation_of derivation.entry.now)
        (goal_of goal.entry.now) ++ givens_left cs waiting.old.items) }
    ensures nodes { OnOk result (obligation_nodes waiting.new.items
        ≡ node_count (derivation_of derivation.entry.now) + obligation_nodes waiting.old.items) }
{
    waiting.push(Obligation {
        derivation,
        goal,
        locals,
    })?;
    Ok(())
}

/// What is given by a clause, by which an atom was solved. Its body waits.
fn take_clause<'a>(
    alloc: Global,
    given: &mut Vec<Given<'a>>,
    waiting: &mut Vec<Obligation<'a>>,
    clause: &'a Clause<Term>,
    names: &[Name],
    terms: &[Term],
    below: &'a Derivation,
) -> Result<(), Memory>
    ensures givens { (cs : Clauses) → OnOk result (givens_of given.new.items
        ++ givens_left cs waiting.new.items ≡ givens_of given.old.items
        ++ (clause_givens cs (clause_of clause.entry.now) names.now (map term_of terms.now)
        (derivation_of below.entry.now) ++ givens_left cs waiting.old.items)) }
    ensures nodes { OnOk result (obligation_nodes waiting.new.items
        ≡ node_count (derivation_of below.entry.now) + obligation_nodes waiting.old.items) }
{
    let locals = clause.locals.items();
    let words = lent_name_texts(alloc, locals)?;
    add_names_given(given, names, words.as_slice())?;
    let words = variable_texts(alloc, locals)?;
    add_vars_given(given, terms, words.as_slice())?;
    wait_at(waiting, below, &clause.body, locals)
}

/// Adds the variable that stands for the identifier of this number, if there is one.
#[tactic(auto, using(crate::proofs::GivenLemmas::local_past, crate::proofs::GivenLemmas::local_there))]
fn add_term_at<'a>(
    given: &mut Vec<Given<'a>>,
    locals: &'a [Local],
    number: u64,
    term: &Term,
) -> Result<(), Memory>
    ensures { OnOk result (givens_of given.new.items
        ≡ givens_of given.old.items
        ++ by_local (slice_get (locals_of locals.entry.now) number)
        (var_given (term_of term.now))) }
{
    let place = number as usize;
    if place >= locals.len() {
        return Ok(());
    }
    let local = &locals[place];
    add_var_given(given, term, local.text.text())
}

/// Adds the name that stands for the identifier of this number, if there is one.
#[tactic(auto, using(crate::proofs::GivenLemmas::local_past, crate::proofs::GivenLemmas::local_there))]
fn add_name_at<'a>(
    given: &mut Vec<Given<'a>>,
    locals: &'a [Local],
    number: u64,
    own: Name,
) -> Result<(), Memory>
    ensures { OnOk result (givens_of given.new.items ≡ givens_of given.old.items
        ++ by_local (slice_get (locals_of locals.entry.now) number) (λ w. name own w ∷ [])) }
{
    let place = number as usize;
    if place >= locals.len() {
        return Ok(());
    }
    let local = &locals[place];
    given.push(Given::Name(own, local.text.as_str()))?;
    Ok(())
}

/// Looks at an obligation: what is below it waits.
fn look_at<'a>(
    alloc: Global,
    program: &'a Program<Term>,
    given: &mut Vec<Given<'a>>,
    waiting: &mut Vec<Obligation<'a>>,
    obligation: Obligation<'a>,
) -> Result<(), Memory>
    ensures givens { OnOk result (givens_of given.new.items
        ++ givens_left (program_of program.entry.now).clauses waiting.new.items
        ≡ givens_of given.old.items
        ++ (givens_at (program_of program.entry.now).clauses obligation.entry
        ++ givens_left (program_of program.entry.now).clauses waiting.old.items)) }
    ensures nodes { OnOk result (obligation_nodes waiting.new.items
        < node_count (derivation_of obligation.entry.derivation.now) + obligation_nodes waiting.old.items) }
{
    let locals = obligation.locals;
    match (obligation.derivation, obligation.goal) {
        (Derivation::Atom(used, below), Goal::Atom(pred, _)) => {
            let Some(clause) = clause_at(program, *pred, used.clause) else {
                return Ok(());
            };
            let (names, terms) = (used.names.items(), used.terms.items());
            take_clause(alloc, given, waiting, clause, names, terms, below)
        }
        (Derivation::Both(first, second), Goal::Both(left, right)) => {
            wait_at(waiting, second, right, locals)?;
            wait_at(waiting, first, left, locals)
        }
        (Derivation::Left(below), Goal::Either(left, _)) => wait_at(waiting, below, left, locals),
        (Derivation::Right(below), Goal::Either(_, right)) => wait_at(
            waiting, below, right, locals,
        ),
        (Derivation::Exists(term, below), Goal::Exists(x, goal)) => {
            add_term_at(given, locals, x.num, term)?;
            wait_at(waiting, below, goal, locals)
        }
        (Derivation::New(name, below), Goal::New(own, goal)) => {
            add_name_at(given, locals, own.num, **name)?;
            wait_at(waiting, below, goal, locals)
        }
        _ => Ok(()),
    }
}

/// What is given in a derivation of a goal of an item with these identifiers, in preorder.
pub(crate) fn givens_in<'a>(
    alloc: Global,
    program: &'a Program<Term>,
    locals: &'a [Local],
    derivation: &'a Derivation,
    goal: &'a Goal<Term>,
) -> Result<Vec<Given<'a>>, Memory>
    ensures { IfOk result (λ given. givens_of given.items
        ≡ givens (program_of program.entry.now).clauses (locals_of locals.entry.now)
        (derivation_of derivation.entry.now) (goal_of goal.entry.now)) }
{
    let mut given = Vec::new(alloc);
    let mut waiting = Vec::new(alloc);
    wait_at(&mut waiting, derivation, goal, locals)?;
    'obligations: while let Some(next) = waiting.pop() {
        look_at(alloc, program, &mut given, &mut waiting, next)?;
    }
    Ok(given)
}
