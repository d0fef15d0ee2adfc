//! The text of an answer.

ghost use Rattle.std.specs.Prelude.{◌≡◌, [], ◌∷◌, ◌++◌, OnOk};
ghost use Rattle.ap_defs.specs.Types.{locals_of};
ghost use Rattle.ap_defs.specs.Goals.{program_of};
ghost use Rattle.ap_defs.specs.Answers.{answer_of};
ghost use Rattle.ap_defs.specs.Lines.{answer_text, bind_text, cond_text, shown_text, where_text};
ghost use Rattle.ap_answers.specs.Spelled.{spelling_in};
ghost use Rattle.ap_answers.specs.Bindings.{bind_of, binds_of};
ghost use Rattle.ap_answers.specs.Words.{IsTaken};
ghost use Rattle.ap_answers.specs.Separated.{further_binds, further_conds};

use crate::bindings::Binding;
use crate::place::Place;
use crate::shown::display_of;
use crate::speller::{Speller, speller_for};
use crate::text::write_term;
use crate::words::Taken;
use ap_defs::goals::{Local, Program};
use ap_defs::memory::Memory;
use ap_defs::outcomes::Answer;
use ap_defs::terms::{Cond, Term};
use std::alloc::Global;

/// Writes a binding.
fn write_bind(
    alloc: Global,
    out: &mut Vec<u8>,
    by: &Speller<'_>,
    bind: &Binding<'_>,
) -> Result<(), Memory>
    ensures { OnOk result (out.new.items
        ≡ out.old.items ++ bind_text (spelling_in by.now) (bind_of bind.now)) }
{
    out.extend_from_slice(bind.text.as_str().as_bytes())?;
    out.extend_from_slice(b" = ")?;
    write_term(alloc, out, by, bind.term, Place::Whole)
}

/// Writes further bindings, each behind a comma.
fn write_further_binds(
    alloc: Global,
    out: &mut Vec<u8>,
    by: &Speller<'_>,
    binds: &[Binding<'_>],
) -> Result<(), Memory>
    ensures { OnOk result (out.new.items
        ≡ out.old.items ++ further_binds (spelling_in by.now) (binds_of binds.now)) }
{
    for bind in binds {
        out.extend_from_slice(b", ")?;
        write_bind(alloc, out, by, bind)?;
    }
    Ok(())
}

/// Writes a condition.
fn write_cond(out: &mut Vec<u8>, by: &Speller<'_>, cond: &Cond) -> Result<(), Memory>
    ensures { OnOk result (out.new.items
        ≡ out.old.items ++ cond_text (spelling_in by.now) cond.now) }
{
    by.write_name(out, cond.name)?;
    out.extend_from_slice(b" # ")?;
    by.write_var(out, cond.var)
}

/// Writes further conditions, each behind a comma.
fn write_further_conds(out: &mut Vec<u8>, by: &Speller<'_>, conds: &[Cond]) -> Result<(), Memory>
    ensures { OnOk result (out.new.items
        ≡ out.old.items ++ further_conds (spelling_in by.now) conds.now) }
{
    for cond in conds {
        out.extend_from_slice(b", ")?;
        write_cond(out, by, cond)?;
    }
    Ok(())
}

/// Writes the conditions, if there are any.
fn write_conds(out: &mut Vec<u8>, by: &Speller<'_>, conds: &[Cond]) -> Result<(), Memory>
    ensures { OnOk result (out.new.items
        ≡ out.old.items ++ where_text (spelling_in by.now) conds.now) }
{
    if let [first, rest @ ..] = conds {
        out.extend_from_slice(b" where ")?;
        write_cond(out, by, first)?;
        write_further_conds(out, by, rest)?;
    }
    Ok(())
}

/// Writes the bindings and the conditions, or `yes` where no binding is shown.
pub fn write_shown(
    alloc: Global,
    out: &mut Vec<u8>,
    by: &Speller<'_>,
    binds: &[Binding<'_>],
    conds: &[Cond],
) -> Result<(), Memory>
    ensures { OnOk result (out.new.items
        ≡ out.old.items ++ shown_text (spelling_in by.now) (binds_of binds.now) conds.now) }
{
    let [first, rest @ ..] = binds else {
        out.extend_from_slice(b"yes")?;
        return Ok(());
    };
    write_bind(alloc, out, by, first)?;
    write_further_binds(alloc, out, by, rest)?;
    write_conds(out, by, conds)
}

/// Writes an answer that may have bindings.
fn write_with_bindings(
    alloc: Global,
    out: &mut Vec<u8>,
    program: &Program<Term>,
    taken: &Taken<'_>,
    locals: &[Local],
    answer: &Answer,
) -> Result<(), Memory>
    requires { IsTaken program.now.words taken.now }
    ensures { OnOk result (out.new.items
        ≡ out.old.items
        ++ answer_text (program_of program.now) (locals_of locals.now) (answer_of answer.now)) }
{
    let shown = display_of(alloc, locals, answer)?;
    let by = speller_for(alloc, program, taken, locals, &shown.names, &shown.vars)?;
    let (binds, conds) = (shown.binds.as_slice(), shown.conds.as_slice());
    write_shown(alloc, out, &by, binds, conds)
}

/// Writes an answer to a query with these identifiers, without the end of its line. Where it has no
/// bindings, nothing is spelled.
pub fn write_answer(
    alloc: Global,
    out: &mut Vec<u8>,
    program: &Program<Term>,
    taken: &Taken<'_>,
    locals: &[Local],
    answer: &Answer,
) -> Result<(), Memory>
    requires { IsTaken program.now.words taken.now }
    ensures { OnOk result (out.new.items
        ≡ out.old.items
        ++ answer_text (program_of program.now) (locals_of locals.now) (answer_of answer.now)) }
{
    if answer.binds.items().is_empty() {
        out.extend_from_slice(b"yes")?;
        return Ok(());
    }
    write_with_bindings(alloc, out, program, taken, locals, answer)
}
