//! What is shown of an answer.

ghost use Rattle.std.specs.Prelude.{◌≡◌, [], zero, IfOk, OnOk};
ghost use Rattle.ap_defs.specs.Terms.{term_of};
ghost use Rattle.ap_defs.specs.Types.{locals_of};
ghost use Rattle.ap_defs.specs.Renaming.{local_names};
ghost use Rattle.ap_defs.specs.Occurrences.{names_of_terms, names_then, vars_at, vars_of_terms};
ghost use Rattle.ap_defs.specs.Unification.{vars_then};
ghost use Rattle.ap_defs.specs.Printing.{first_vars};
ghost use Rattle.ap_defs.specs.Lines.{terms_of_binds, shown_in};
ghost use Rattle.ap_defs.specs.Answers.{answer_of};
ghost use Rattle.ap_answers.specs.Bindings.{binds_of};
ghost use Rattle.ap_answers.specs.Displays.{Shows};
ghost use Rattle.ap_answers.specs.Occurring.{more_names, more_vars};
ghost use Rattle.ap_answers.specs.VarSets.{vars_of_set};

use crate::bindings::{Binding, shown_bindings};
use crate::conditions::shown_conditions;
use crate::locals::free_names;
use crate::occurrences::add_names_at;
use crate::var_sets::VarSet;
use ap_defs::goals::Local;
use ap_defs::memory::Memory;
use ap_defs::outcomes::Answer;
use ap_defs::terms::{Cond, Name, Term};
use ap_defs::walks::Parts;
use indexmap::IndexSet;
use std::alloc::Global;

/// What is shown of an answer: bindings that lend their parts, the query's free names and then the others
/// of the bindings, their variables, and conditions.
#[derive(Drop)]
pub struct Display<'a> {
    pub binds: Vec<Binding<'a>>,
    pub names: IndexSet<Name>,
    pub vars: VarSet,
    pub conds: Vec<Cond>,
}

/// The names and the variables of bindings.
#[derive(Drop)]
struct Occurring {
    names: IndexSet<Name>,
    vars: VarSet,
}

/// Adds the variable that stands at a part of a term itself.
fn add_var_at(alloc: Global, vars: &mut VarSet, part: &Term) -> Result<(), Memory>
    ensures { OnOk result (vars_of_set vars.new
        ≡ more_vars (vars_of_set vars.old) (vars_at (term_of part.now))) }
{
    match part {
        Term::Susp(_, var) => vars.add(alloc, *var),
        _ => Ok(()),
    }
}

/// Adds the names and the variables of a term, as they are read, in one walk.
fn add_names_and_vars(
    alloc: Global,
    names: &mut IndexSet<Name>,
    vars: &mut VarSet,
    term: &Term,
) -> Result<(), Memory>
    ensures names { OnOk result (names.new.keys
        ≡ more_names names.old.keys (names_then (term_of term.now) [])) }
    ensures vars { OnOk result (vars_of_set vars.new
        ≡ more_vars (vars_of_set vars.old) (vars_then (term_of term.now) [])) }
{
    let mut parts = Parts::of(alloc, term)?;
    while let Some(part) = parts.next()? {
        add_names_at(names, part)?;
        add_var_at(alloc, vars, part)?;
    }
    Ok(())
}

/// As many names as there is room for at once, at most.
const MOST_ROOM: usize = 128;

/// Makes room for as many other names as a query has other identifiers, unless it has no free names.
fn make_room(names: &mut IndexSet<Name>, identifiers: usize) -> Result<(), Memory>
    ensures { OnOk result (names.new.keys ≡ names.old.keys) }
{
    if !names.is_empty() {
        let others = identifiers.saturating_sub(names.len());
        names.reserve(others.min(MOST_ROOM))?;
    }
    Ok(())
}

/// The query's free names, and then the others of the bindings, and the variables of these, by first occurrence.
fn occurring_in(alloc: Global, locals: &[Local], binds: &[Binding<'_>]) -> Result<Occurring, Memory>
    ensures names { IfOk result (λ o. o.names.keys
        ≡ more_names (local_names zero (locals_of locals.now)) (names_of_terms
        (terms_of_binds (binds_of binds.now)))) }
    ensures vars { IfOk result (λ o. vars_of_set o.vars
        ≡ first_vars [] (vars_of_terms (terms_of_binds (binds_of binds.now)))) }
{
    let mut names = free_names(alloc, locals)?;
    make_room(&mut names, locals.len())?;
    let mut vars = VarSet::new();
    for bind in binds {
        add_names_and_vars(alloc, &mut names, &mut vars, bind.term)?;
    }
    Ok(Occurring { names, vars })
}

/// What is shown of an answer to a query with these identifiers.
pub fn display_of<'a>(
    alloc: Global,
    locals: &'a [Local],
    answer: &'a Answer,
) -> Result<Display<'a>, Memory>
    ensures { IfOk result (λ d. Shows (locals_of locals.now) d (shown_in (locals_of locals.now)
        (answer_of answer.now))) }
{
    let binds = shown_bindings(alloc, locals, answer.binds.items())?;
    let Occurring { names, vars } = occurring_in(alloc, locals, binds.as_slice())?;
    let conds = shown_conditions(alloc, &names, &vars, answer.conds.items())?;
    Ok(Display {
        binds,
        names,
        vars,
        conds,
    })
}
