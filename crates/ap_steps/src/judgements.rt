//! Atoms, equations and freshness conditions, with what stands for their identifiers put in.

ghost use Rattle.std.specs.Prelude.{◌≡◌, ◌++◌, map, slice_get, unwrap_or, OnOk, IfOk, []};
ghost use Rattle.ap_defs.specs.Printing.{term_text};
ghost use Rattle.ap_defs.specs.Terms.{term_of};
ghost use Rattle.ap_checks.specs.OpenEnvironments.{put_in};
ghost use Rattle.ap_judge.specs.Scopes.{environment_of};
ghost use Rattle.ap_steps.specs.Steps.{arguments_text, atom_text, further_texts, relation_text};
ghost use Rattle.ap_steps.specs.Writers.{writing_of};

use crate::phrases::phrase_of;
use crate::steps::Phrase;
use crate::writers::Writer;
use ap_answers::place::Place;
use ap_answers::text::write_term;
use ap_defs::lists::Text;
use ap_defs::memory::Memory;
use ap_defs::terms::Term;
use ap_judge::scope::{Standing, put, put_each};

/// Writes the word of a predicate, if it has one.
fn write_word(out: &mut Vec<u8>, words: &[Text], pred: u32) -> Result<(), Memory>
    ensures { OnOk result (out.new.items
        ≡ out.old.items ++ unwrap_or (slice_get words.now pred) []) }
{
    if let Some(word) = words.get(pred as usize) {
        out.extend_from_slice(word.as_str().as_bytes())?;
    }
    Ok(())
}

/// Writes a term by itself.
fn write_whole(writer: &Writer<'_>, out: &mut Vec<u8>, term: &Term) -> Result<(), Memory>
    ensures { OnOk result (out.new.items
        ≡ out.old.items ++ term_text (writing_of writer.now).by (term_of term.now)) }
{
    write_term(writer.alloc, out, writer.by, term, Place::Whole)
}

/// Writes terms behind a comma each, and the parenthesis behind them.
fn write_further(writer: &Writer<'_>, out: &mut Vec<u8>, terms: &[Term]) -> Result<(), Memory>
    ensures { OnOk result (out.new.items ≡ out.old.items
        ++ further_texts (map (term_text (writing_of writer.now).by) (map term_of terms.now))) }
{
    let mut rest = terms;
    'terms: while let Some((term, others)) = rest.split_first() {
        out.push(b',')?;
        write_whole(writer, out, term)?;
        rest = others;
    }
    out.push(b')')?;
    Ok(())
}

/// Writes the arguments of an atom.
fn write_arguments(writer: &Writer<'_>, out: &mut Vec<u8>, terms: &[Term]) -> Result<(), Memory>
    ensures { OnOk result (out.new.items ≡ out.old.items
        ++ arguments_text (map (term_text (writing_of writer.now).by) (map term_of terms.now))) }
{
    if let Some((first, others)) = terms.split_first() {
        out.push(b'(')?;
        write_whole(writer, out, first)?;
        write_further(writer, out, others)?;
    }
    Ok(())
}

/// An atom.
pub(crate) fn atom(
    writer: &Writer<'_>,
    scope: &[Standing<'_>],
    pred: u32,
    args: &[Term],
) -> Result<Phrase, Memory>
    ensures { IfOk result (λ phrase. phrase.text ≡ atom_text (writing_of writer.now) pred
        (map (put_in (environment_of scope.now)) (map term_of args.now))) }
{
    let mut out = Vec::new(writer.alloc);
    let terms = put_each(writer.alloc, scope, args)?;
    write_word(&mut out, writer.words, pred)?;
    write_arguments(writer, &mut out, terms.as_slice())?;
    phrase_of(writer.alloc, out)
}

/// An equation or a freshness condition, by its sign.
pub(crate) fn relation(
    writer: &Writer<'_>,
    scope: &[Standing<'_>],
    left: &Term,
    sign: &[u8],
    right: &Term,
) -> Result<Phrase, Memory>
    ensures { IfOk result (λ phrase. phrase.text ≡ relation_text (writing_of writer.now) sign.now
        (put_in (environment_of scope.now) (term_of left.now))
        (put_in (environment_of scope.now) (term_of right.now))) }
{
    let mut out = Vec::new(writer.alloc);
    let left = put(writer.alloc, scope, left)?;
    let right = put(writer.alloc, scope, right)?;
    write_whole(writer, &mut out, &left)?;
    out.extend_from_slice(sign)?;
    write_whole(writer, &mut out, &right)?;
    phrase_of(writer.alloc, out)
}
