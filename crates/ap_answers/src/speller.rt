//! How the names, variables and constructors of an answer are spelled.

ghost use Rattle.std.specs.Prelude.{◌≡◌, zero, [], ◌∷◌, ◌++◌, Some, codes, decimal, OnOk, IfOk};
ghost use Rattle.ap_defs.specs.Types.{locals_of};
ghost use Rattle.ap_defs.specs.Goals.{program_of};
ghost use Rattle.ap_defs.specs.Renaming.{local_names};
ghost use Rattle.ap_defs.specs.Lines.{NominalShown, spelling_for};
ghost use Rattle.ap_defs.specs.Printing.{new_words};
ghost use Rattle.ap_answers.specs.Words.{IsTaken, counted_words, numbered_words};
ghost use Rattle.ap_answers.specs.Spelled.{name_texts_of, spelling_in, text_at, texts_of};
ghost use Rattle.ap_answers.specs.VarSets.{vars_of_set};

use crate::locals::free_name_texts;
use crate::var_sets::VarSet;
use crate::words::{Taken, generated_numbers};
use ap_defs::goals::{Constructor, Local, Program};
use ap_defs::lists::{SharedText, Text};
use ap_defs::memory::Memory;
use ap_defs::terms::{Name, Term, Var};
use indexmap::IndexSet;
use itoa::Buffer;
use std::alloc::Global;

/// The texts of variables: as they are written, or as the numbers of `_1`, `_2` and so on, which take less room. All
/// such texts up to a number take none.
#[derive(Drop)]
pub enum VarTexts {
    Written(Vec<Text>),
    Numbered(Vec<u64>),
    Counted(usize),
}

/// The texts of names: as they are written, or those of a query's free names, which it shares, and then the numbers of
/// `n1`, `n2` and so on, which take less room.
#[derive(Drop)]
pub enum NameTexts {
    Written(Vec<Text>),
    Numbered(Vec<SharedText>, Vec<u64>),
}

/// The names and the variables that are written, each with its text at the same place, and the
/// declared constructors.
#[derive(Drop)]
pub struct Speller<'a> {
    pub names: &'a IndexSet<Name>,
    pub name_texts: NameTexts,
    pub vars: &'a VarSet,
    pub var_texts: VarTexts,
    pub constructors: &'a [Constructor],
}

/// Writes the text at this place, if there is one.
fn write_at(out: &mut Vec<u8>, texts: &[Text], place: usize) -> Result<(), Memory>
    ensures { OnOk result (out.new.items ≡ out.old.items ++ text_at texts.now (Some place)) }
{
    if let Some(text) = texts.get(place) {
        out.extend_from_slice(text.as_str().as_bytes())?;
    }
    Ok(())
}

/// Writes a letter with a number.
fn write_numbered(out: &mut Vec<u8>, letter: u8, number: u64) -> Result<(), Memory>
    ensures { OnOk result (out.new.items ≡ out.old.items ++ (letter ∷ decimal number)) }
{
    let mut digits = Buffer::new();
    out.push(letter)?;
    out.extend_from_slice(digits.format(number).as_bytes())?;
    Ok(())
}

/// Writes a letter with the number at this place, if there is one.
#[tactic(auto, using(crate::proofs::SpellingLemmas::numbered_there, crate::proofs::SpellingLemmas::numbered_past))]
fn write_numbered_at(
    out: &mut Vec<u8>,
    letter: u8,
    numbers: &[u64],
    place: usize,
) -> Result<(), Memory>
    ensures { OnOk result (out.new.items
        ≡ out.old.items ++ text_at (numbered_words (letter ∷ []) numbers.now) (Some place)) }
{
    if let Some(number) = numbers.get(place) {
        write_numbered(out, letter, *number)?;
    }
    Ok(())
}

/// Writes the text at this place among so many that are all numbered, if there is one.
fn write_counted_at(out: &mut Vec<u8>, count: usize, place: usize) -> Result<(), Memory>
    ensures { OnOk result (out.new.items
        ≡ out.old.items ++ text_at (counted_words (codes "_") count) (Some place)) }
{
    if place < count {
        write_numbered(out, b'_', place as u64 + 1)?;
    }
    Ok(())
}

/// Writes the text at this place among those that are shared and then those of numbers, if there is one.
#[tactic(auto, using(crate::proofs::SpellingLemmas::text_there, crate::proofs::SpellingLemmas::text_behind))]
fn write_shared_or_numbered_at(
    out: &mut Vec<u8>,
    shared: &[SharedText],
    numbers: &[u64],
    place: usize,
) -> Result<(), Memory>
    ensures { OnOk result (out.new.items
        ≡ out.old.items
        ++ text_at (shared.now ++ numbered_words (codes "n") numbers.now) (Some place)) }
{
    if place < shared.len() {
        out.extend_from_slice(shared[place].as_str().as_bytes())?;
        return Ok(());
    }
    write_numbered_at(out, b'n', numbers, place - shared.len())
}

/// Writes the text of the name at this place, if there is one.
fn write_name_at(out: &mut Vec<u8>, texts: &NameTexts, place: usize) -> Result<(), Memory>
    ensures { OnOk result (out.new.items
        ≡ out.old.items ++ text_at (name_texts_of texts.now) (Some place)) }
{
    match texts {
        NameTexts::Written(written) => write_at(out, written.as_slice(), place),
        NameTexts::Numbered(shared, numbers) => {
            write_shared_or_numbered_at(out, shared.as_slice(), numbers.as_slice(), place)
        }
    }
}

/// Writes the text of the variable at this place, if there is one.
fn write_var_at(out: &mut Vec<u8>, texts: &VarTexts, place: usize) -> Result<(), Memory>
    ensures { OnOk result (out.new.items
        ≡ out.old.items ++ text_at (texts_of texts.now) (Some place)) }
{
    match texts {
        VarTexts::Written(written) => write_at(out, written.as_slice(), place),
        VarTexts::Numbered(numbers) => write_numbered_at(out, b'_', numbers.as_slice(), place),
        VarTexts::Counted(count) => write_counted_at(out, *count, place),
    }
}

impl Speller<'_> {
    #[tactic(auto, unfolding(ap_defs::specs::Permutations::name_eq))]
    /// Writes a name. One that has no text is left out.
    pub fn write_name(&self, out: &mut Vec<u8>, name: Name) -> Result<(), Memory>
        ensures { OnOk result (out.new.items ≡ out.old.items ++ (spelling_in self.now).names name) }
    {
        if let Some(place) = self.names.get_index_of(&name) {
            write_name_at(out, &self.name_texts, place)?;
        }
        Ok(())
    }

    /// Writes a variable. One that has no text is left out.
    pub fn write_var(&self, out: &mut Vec<u8>, var: Var) -> Result<(), Memory>
        ensures { OnOk result (out.new.items ≡ out.old.items ++ (spelling_in self.now).vars var) }
    {
        if let Some(place) = self.vars.place(var) {
            write_var_at(out, &self.var_texts, place)?;
        }
        Ok(())
    }
}

/// The generated texts of so many variables. Where no word of the text is like one, they are all that there are.
#[tactic(auto, using(crate::proofs::CountedLemmas::counted_new))]
fn var_texts_for(
    alloc: Global,
    words: &[Text],
    taken: &Taken<'_>,
    count: usize,
) -> Result<VarTexts, Memory>
    requires { IsTaken words.now taken.now }
    ensures { IfOk result (λ texts. texts_of texts ≡ new_words (codes "_") words.now count) }
{
    let Some(_) = count.checked_add(words.len()) else {
        return Err(Memory);
    };
    if taken.vars.none_taken {
        return Ok(VarTexts::Counted(count));
    }
    let numbers = generated_numbers(alloc, "_", words, &taken.words, &taken.vars, count)?;
    Ok(VarTexts::Numbered(numbers))
}

/// The speller for an answer that shows these names and variables: the query's free names first, which
/// are written as they are spelled, and then the others, which get generated words, as variables do.
pub fn speller_for<'a>(
    alloc: Global,
    program: &'a Program<Term>,
    taken: &Taken<'_>,
    locals: &[Local],
    names: &'a IndexSet<Name>,
    vars: &'a VarSet,
) -> Result<Speller<'a>, Memory>
    requires { IsTaken program.now.words taken.now }
    ensures { IfOk result (λ by. (s : NominalShown) →
        names.now.keys ≡ local_names zero (locals_of locals.now) ++ s.names →
        vars_of_set vars.now ≡ s.vars →
        spelling_in by ≡ spelling_for (program_of program.now) (locals_of locals.now) s) }
{
    let words = program.words.items();
    let shared = free_name_texts(alloc, locals)?;
    let others = names.len().saturating_sub(shared.len());
    let made = generated_numbers(alloc, "n", words, &taken.words, &taken.names, others)?;
    let var_texts = var_texts_for(alloc, words, taken, vars.len())?;
    let constructors = program.signature.constructors.items();
    Ok(Speller {
        names,
        name_texts: NameTexts::Numbered(shared, made),
        vars,
        var_texts,
        constructors,
    })
}
