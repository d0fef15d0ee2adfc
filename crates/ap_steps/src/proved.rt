//! The steps of a derivation of a bundle.

ghost use Rattle.std.specs.Prelude.{◌≡◌, ◌∷◌, [], ℕ, List as list, map, IfOk};
ghost use Rattle.ap_defs.specs.Answers.{answer_of};
ghost use Rattle.ap_defs.specs.Derivations.{derivation_of};
ghost use Rattle.ap_defs.specs.Goals.{program_of, query_of};
ghost use Rattle.ap_defs.specs.Lines.{shown_binds, shown_text, var_texts};
ghost use Rattle.ap_defs.specs.Printing.{has_word};
ghost use Rattle.ap_defs.specs.Terms.{term_of};
ghost use Rattle.ap_defs.specs.Types.{locals_of};
ghost use Rattle.ap_answers.specs.Words.{knows};
ghost use Rattle.ap_bundle.specs.Bundles.{proved_of};
ghost use Rattle.ap_steps.specs.Proofs.{query_rule, query_steps, root_step, shown_steps};
ghost use Rattle.ap_steps.specs.Writers.{bare, written_step, writing_of};

use crate::bodies::pieces_of;
use crate::phrases::phrase_of;
use crate::spellings::spelt_in;
use crate::steps::{Phrase, Step};
use crate::walk::{add_steps, place_pieces};
use crate::writers::Writer;
use ap_answers::answers::write_shown;
use ap_answers::bindings::shown_bindings;
use ap_answers::speller::{NameTexts, Speller, VarTexts};
use ap_answers::var_sets::VarSet;
use ap_defs::goals::{Local, Program, Query};
use ap_defs::lists::{List, Text};
use ap_defs::memory::Memory;
use ap_defs::outcomes::{Answer, Proved};
use ap_defs::terms::Term;
use ap_judge::cited::CitedTerms;
use ap_judge::identifiers::Identifiers;
use ap_judge::lookups::query_at;
use ap_judge::scope::Standing;
use ap_spelling::spelt::Spelt;
use std::alloc::Global;
use std::collections::HashSet;

/// The answer, as it is shown.
fn answer_phrase(writer: &Writer<'_>, locals: &[Local], answer: &Answer) -> Result<Phrase, Memory>
    ensures { IfOk result (λ phrase. phrase.text ≡ shown_text (writing_of writer.now).by
        (shown_binds (var_texts (locals_of locals.now)) (map term_of answer.now.binds))
        answer.now.conds) }
{
    let mut out = Vec::new(writer.alloc);
    let binds = shown_bindings(writer.alloc, locals, answer.binds.items())?;
    let (binds, conds) = (binds.as_slice(), answer.conds.items());
    write_shown(writer.alloc, &mut out, writer.by, binds, conds)?;
    phrase_of(writer.alloc, out)
}

/// The rule of the query with a number, at a line.
fn rule_of_query(alloc: Global, number: u32, line: u64) -> Result<List<u8>, Memory>
    ensures { IfOk result (λ text. text ≡ query_rule number line) }
{
    let text = format!(in alloc; "query {number}, line {line}")?;
    Ok(List::of(text.into_bytes()))
}

/// The step of a query with its answer, the first of all.
fn root_of(
    writer: &Writer<'_>,
    query: &Query<Term>,
    proved: &Proved,
    sides: Vec<Phrase>,
) -> Result<Vec<Step>, Memory>
    ensures { IfOk result (λ steps. map written_step steps.items ≡ root_step (writing_of writer.now)
        (query_of query.now) proved.now.query (answer_of proved.now.answer) (map bare sides.items)
        ∷ []) }
{
    let judgement = answer_phrase(writer, query.locals.items(), &proved.answer)?;
    let rule = rule_of_query(writer.alloc, proved.query, query.line)?;
    let mut steps = Vec::new(writer.alloc);
    steps.push(Step {
        depth: 0,
        judgement,
        rule,
        sides: List::of(sides),
    })?;
    Ok(steps)
}

/// The steps of a derivation of an answer to a query.
fn steps_of_query<'a>(
    writer: &Writer<'a>,
    query: &'a Query<Term>,
    proved: &'a Proved,
) -> Result<Vec<Step>, Memory>
    ensures { IfOk result (λ steps. map written_step steps.items ≡ query_steps (query_of query.now)
        proved.now.query (answer_of proved.now.answer) (derivation_of proved.now.derivation)
        (writing_of writer.now)) }
{
    let own = Identifiers::of(writer.alloc, query.locals.items())?;
    let binds = CitedTerms::Trees(proved.answer.binds.items());
    let given = Standing::Query(own, binds);
    let pieces = pieces_of(writer, given, &proved.derivation, &query.goal)?;
    let mut waiting = Vec::new(writer.alloc);
    let sides = place_pieces(writer.alloc, pieces, 1, &mut waiting)?;
    let mut steps = root_of(writer, query, proved, sides)?;
    add_steps(writer, &mut steps, waiting)?;
    Ok(steps)
}

/// The steps of a derivation of a bundle, in preorder: first its query with the answer, and below that a step
/// for each atom that was solved. None, where the program has no such query.
///
/// `words` are those of the predicates, by number, and `taken` the words of the program's text: names and
/// variables are spelled as identifiers that stand for them, or else by words that the text has not. `Err` is want of memory.
pub fn steps_of(
    alloc: Global,
    program: &Program<Term>,
    taken: &HashSet<&str>,
    words: &[Text],
    proved: &Proved,
) -> Result<Vec<Step>, Memory>
    requires { (w : list ℕ) → knows taken.now w ≡ has_word w program.now.words }
    ensures { IfOk result (λ steps. map written_step steps.items
        ≡ shown_steps (program_of program.now) words.now (proved_of proved.now)) }
{
    let Some(query) = query_at(program, proved.query) else {
        return Ok(Vec::new(alloc));
    };
    let spelt = spelt_in(alloc, program, taken, query, proved)?;
    let Spelt {
        names,
        name_words,
        vars,
        var_words,
        ..
    } = spelt;
    let vars = VarSet::Table(vars);
    let by = Speller {
        names: &names,
        name_texts: NameTexts::Written(name_words),
        vars: &vars,
        var_texts: VarTexts::Written(var_words),
        constructors: program.signature.constructors.items(),
    };
    let writer = Writer {
        alloc,
        program,
        words,
        by: &by,
    };
    steps_of_query(&writer, query, proved)
}
