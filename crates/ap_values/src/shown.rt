//! What is shown of an answer, as a value of its own.

ghost use Rattle.std.specs.Prelude.{◌≡◌, ◌≤◌, length, map, IfOk};
ghost use Rattle.ap_defs.specs.Types.{locals_of};
ghost use Rattle.ap_defs.specs.Goals.{program_of};
ghost use Rattle.ap_defs.specs.Answers.{answer_of};
ghost use Rattle.ap_defs.specs.Lines.{NominalShown, shown_in};
ghost use Rattle.ap_answers.specs.Bindings.{binds_of};
ghost use Rattle.ap_answers.specs.Displays.{Shows};
ghost use Rattle.ap_answers.specs.Queries.{query_locals, nominal_bind, nominal_shown};
ghost use Rattle.ap_answers.specs.SoundlyShown.{IsSoundlyShown};

use ap_answers::bindings::Binding;
use ap_answers::locals::free_names;
use ap_answers::printing::locals_in;
use ap_answers::shown::{Display, display_of};
use ap_defs::copies::copy_term;
use ap_defs::goals::Local;
use ap_defs::lists::{List, Text};
use ap_defs::memory::Memory;
use ap_defs::outcomes::{Answer, Shown};
use ap_defs::terms::Term;
use ap_program::restricted::Restricted;
use std::alloc::Global;

/// Copies of bindings.
fn copied_bindings(alloc: Global, binds: &[Binding<'_>]) -> Result<Vec<(Text, Term)>, Memory>
    ensures { IfOk result (λ copies. map nominal_bind copies.items ≡ binds_of binds.now) }
{
    let mut copies = Vec::with_capacity(alloc, binds.len())?;
    for bind in binds {
        copies.push((bind.text.copy(alloc)?, copy_term(alloc, bind.term)?))?;
    }
    Ok(copies)
}

/// What a display shows, without the free names of the query, whose identifiers these are.
fn shown_of(alloc: Global, locals: &[Local], display: &Display<'_>) -> Result<Shown, Memory>
    ensures { IfOk result (λ shown. (s : NominalShown) →
        Shows (locals_of locals.now) display.now s → nominal_shown shown ≡ s) }
{
    let own = free_names(alloc, locals)?.len().min(display.names.len());
    let binds = copied_bindings(alloc, display.binds.as_slice())?;
    let conds = display.conds.as_slice().to_vec(alloc)?;
    let (_, others) = display.names.as_slice().split_at(own);
    let names = others.to_vec(alloc)?;
    let vars = display.vars.to_vec(alloc)?;
    Ok(Shown {
        binds: List::of(binds),
        conds: List::of(conds),
        names: List::of(names),
        vars: List::of(vars),
    })
}

/// What is shown of an answer to the query of this number, from 1: the bindings of variables other than
/// `_`, the conditions whose variable occurs in these and whose name does or is a free name of the query,
/// and the names and variables that print as generated. Where the query is derivable in each instance of
/// the answer, whoever made it, it is in each instance of what is shown, if each of the answer's variables
/// has one type, and that is inhabited.
pub fn canonical(
    alloc: Global,
    program: &Restricted,
    query: u32,
    answer: &Answer,
) -> Result<Shown, Memory>
    requires from_one { 1 ≤ query }
    requires exists { query ≤ length (program_of program.now).queries }
    ensures shown { IfOk result (λ shown. nominal_shown shown ≡
        shown_in (query_locals (program_of program.now) query) (answer_of answer.now)) }
    ensures sound { IfOk result (λ shown. IsSoundlyShown (program_of program.now) query
        (answer_of answer.now) (nominal_shown shown)) }
{
    let locals = locals_in(program, query);
    let display = display_of(alloc, locals, answer)?;
    let shown = shown_of(alloc, locals, &display)?;
    Ok(shown)
}
