//! The spelling of all names and variables of a derivation of an answer.

ghost use Rattle.std.specs.Prelude.{◌≡◌, ◌++◌, [], zero, ℕ, None, List as list, map, IfOk, OnOk};
ghost use Rattle.ap_answers.specs.Locals.{lent_texts};
ghost use Rattle.ap_answers.specs.Occurring.{more_names};
ghost use Rattle.ap_answers.specs.Words.{knows};
ghost use Rattle.ap_defs.specs.Answers.{answer_of};
ghost use Rattle.ap_defs.specs.Derivations.{derivation_of};
ghost use Rattle.ap_defs.specs.Goals.{program_of, query_of};
ghost use Rattle.ap_defs.specs.Lines.{name_texts};
ghost use Rattle.ap_defs.specs.Printing.{first_vars, has_word};
ghost use Rattle.ap_defs.specs.Renaming.{local_names};
ghost use Rattle.ap_defs.specs.Types.{constructor_of, locals_of};
ghost use Rattle.ap_steps.specs.Givens.{names_given};
ghost use Rattle.ap_steps.specs.Names.{names_in, vars_of_proof};
ghost use Rattle.ap_spelling.specs.Spelt.{givens_of, last_of, spelt_of};
ghost use Rattle.ap_spelling.specs.Words.{kept_words};
ghost use Rattle.ap_steps.specs.Spelling.{all_givens, bare_names, bare_vars, first_numbered, first_spelt, other_givens, spelt, text_of_constructor};

use crate::givens::{add_names_given, givens_in, lent_name_texts};
use crate::names::{add_all_names, add_all_vars, nodes_of};
use ap_answers::locals::{free_names, variable_texts};
use ap_defs::goals::{Constructor, Local, Program, Query};
use ap_defs::lists::Text;
use ap_defs::memory::Memory;
use ap_defs::outcomes::Proved;
use ap_defs::terms::{Name, Term, Var};
use ap_scopes::numbers::Numbers;
use ap_spelling::spelt::{Given, Spelt, set_last};
use indexmap::IndexSet;
use std::alloc::Global;
use std::collections::HashSet;

/// The names of a derivation with its answer: the free names of the query, and then the others.
fn names_shown(alloc: Global, locals: &[Local], proved: &Proved) -> Result<IndexSet<Name>, Memory>
    ensures { IfOk result (λ names. names.keys
        ≡ more_names (local_names zero (locals_of locals.now)) (names_in
        (answer_of proved.now.answer) (derivation_of proved.now.derivation))) }
{
    let nodes = nodes_of(alloc, &proved.derivation)?;
    let mut names = free_names(alloc, locals)?;
    add_all_names(alloc, &mut names, &proved.answer, nodes.as_slice())?;
    Ok(names)
}

/// The variables of a derivation with its answer.
fn vars_shown(alloc: Global, proved: &Proved) -> Result<IndexSet<Var>, Memory>
    ensures { IfOk result (λ vars. vars.keys ≡ first_vars []
        (vars_of_proof (answer_of proved.now.answer) (derivation_of proved.now.derivation))) }
{
    let nodes = nodes_of(alloc, &proved.derivation)?;
    let mut vars = IndexSet::new(alloc);
    add_all_vars(alloc, &mut vars, &proved.answer, nodes.as_slice())?;
    Ok(vars)
}

/// Adds names for which no identifier stands.
fn add_bare_names<'a>(given: &mut Vec<Given<'a>>, names: &[Name]) -> Result<(), Memory>
    ensures { OnOk result (givens_of given.new.items
        ≡ givens_of given.old.items ++ bare_names names.now) }
{
    let word: &'a str = "";
    let mut rest = names;
    'names: while let Some((first, others)) = rest.split_first() {
        given.push(Given::Name(*first, word))?;
        rest = others;
    }
    Ok(())
}

/// Adds variables for which no identifier stands.
fn add_bare_vars<'a>(given: &mut Vec<Given<'a>>, vars: &[Var]) -> Result<(), Memory>
    ensures { OnOk result (givens_of given.new.items
        ≡ givens_of given.old.items ++ bare_vars vars.now) }
{
    let word: &'a str = "";
    let mut rest = vars;
    'vars: while let Some((first, others)) = rest.split_first() {
        given.push(Given::Var(*first, word))?;
        rest = others;
    }
    Ok(())
}

/// The free names of a query.
fn own_names<'a>(alloc: Global, locals: &'a [Local]) -> Result<Vec<Given<'a>>, Memory>
    ensures { IfOk result (λ given. givens_of given.items ≡ names_given
        (local_names zero (locals_of locals.entry.now)) (name_texts (locals_of locals.entry.now))) }
{
    let names = free_names(alloc, locals)?;
    let words = lent_name_texts(alloc, locals)?;
    let mut given = Vec::new(alloc);
    add_names_given(&mut given, names.as_slice(), words.as_slice())?;
    Ok(given)
}

/// What an answer to a query with its derivation gives besides.
fn other_givens<'a>(
    alloc: Global,
    program: &'a Program<Term>,
    query: &'a Query<Term>,
    proved: &'a Proved,
) -> Result<Vec<Given<'a>>, Memory>
    ensures { IfOk result (λ given. givens_of given.items
        ≡ other_givens (program_of program.entry.now) (query_of query.entry.now)
        (answer_of proved.entry.now.answer) (derivation_of proved.entry.now.derivation)) }
{
    let locals = query.locals.items();
    let mut given = givens_in(alloc, program, locals, &proved.derivation, &query.goal)?;
    let names = names_shown(alloc, locals, proved)?;
    add_bare_names(&mut given, names.as_slice())?;
    let vars = vars_shown(alloc, proved)?;
    add_bare_vars(&mut given, vars.as_slice())?;
    Ok(given)
}

/// Adds all that others give.
fn add_each<'a>(given: &mut Vec<Given<'a>>, others: &[Given<'a>]) -> Result<(), Memory>
    ensures { OnOk result (givens_of given.new.items
        ≡ givens_of given.old.items ++ givens_of others.now) }
{
    for i in 0..others.len() {
        given.push(others[i])?;
    }
    Ok(())
}

/// What an answer to a query with its derivation gives: the query's free names come first.
fn givens_of_query<'a>(
    alloc: Global,
    program: &'a Program<Term>,
    query: &'a Query<Term>,
    proved: &'a Proved,
) -> Result<Vec<Given<'a>>, Memory>
    ensures { IfOk result (λ given. givens_of given.items
        ≡ all_givens (program_of program.entry.now) (query_of query.entry.now)
        (answer_of proved.entry.now.answer) (derivation_of proved.entry.now.derivation)) }
{
    let mut given = own_names(alloc, query.locals.items())?;
    let others = other_givens(alloc, program, query, proved)?;
    add_each(&mut given, others.as_slice())?;
    Ok(given)
}

/// Words are left to what has them in the text.
fn keep_each<'a>(last: &mut Numbers<'a>, words: &[&'a Text]) -> Result<(), Memory>
    ensures { OnOk result (last_of last.new
        ≡ kept_words (lent_texts words.now) (last_of last.old)) }
{
    for i in 0..words.len() {
        set_last(last, words[i].as_str(), 0)?;
    }
    Ok(())
}

/// The words of constructors are left to them.
fn keep_constructors<'a>(
    last: &mut Numbers<'a>,
    constructors: &'a [Constructor],
) -> Result<(), Memory>
    ensures { OnOk result (last_of last.new ≡ kept_words (map text_of_constructor
        (map constructor_of constructors.entry.now)) (last_of last.old)) }
{
    let mut rest = constructors;
    'constructors: while let Some((first, others)) = rest.split_first() {
        set_last(last, first.text.as_str(), 0)?;
        rest = others;
    }
    Ok(())
}

/// The words that are left to what has them in the text.
fn kept_in<'a>(
    alloc: Global,
    program: &'a Program<Term>,
    locals: &'a [Local],
) -> Result<Numbers<'a>, Memory>
    ensures { IfOk result (λ last. last_of last
        ≡ first_numbered (program_of program.entry.now) (locals_of locals.entry.now)) }
{
    let mut last = Numbers::new(alloc);
    let words = variable_texts(alloc, locals)?;
    keep_each(&mut last, words.as_slice())?;
    keep_constructors(&mut last, program.signature.constructors.items())?;
    let blank: &'a str = "_";
    set_last(&mut last, blank, 0)?;
    Ok(last)
}

/// Nothing is spelled, and some words are left to what has them in the text.
fn first_of<'a>(
    alloc: Global,
    program: &'a Program<Term>,
    locals: &'a [Local],
) -> Result<Spelt<'a>, Memory>
    ensures { IfOk result (λ s. spelt_of s
        ≡ first_spelt (program_of program.entry.now) (locals_of locals.entry.now)) }
{
    let last = kept_in(alloc, program, locals)?;
    Ok(Spelt {
        names: IndexSet::new(alloc),
        name_words: Vec::new(alloc),
        vars: IndexSet::new(alloc),
        var_words: Vec::new(alloc),
        last,
    })
}

/// The spelling of all names and variables of a derivation of an answer to a query.
pub(crate) fn spelt_in<'a>(
    alloc: Global,
    program: &'a Program<Term>,
    taken: &HashSet<&str>,
    query: &'a Query<Term>,
    proved: &'a Proved,
) -> Result<Spelt<'a>, Memory>
    requires { (w : list ℕ) → knows taken.now w ≡ has_word w program.now.words }
    ensures { IfOk result (λ s. spelt_of s ≡ spelt (program_of program.entry.now)
        (query_of query.entry.now) (answer_of proved.entry.now.answer)
        (derivation_of proved.entry.now.derivation)) }
{
    let given = givens_of_query(alloc, program, query, proved)?;
    let mut spelt = first_of(alloc, program, query.locals.items())?;
    spelt.give_each(alloc, program.words.items(), taken, given.as_slice())?;
    Ok(spelt)
}
