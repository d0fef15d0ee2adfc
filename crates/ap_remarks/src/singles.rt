//! Variables that stand once.
ghost use Rattle.std.specs.Prelude.{◌≡◌};

use crate::marks::{Kind, Mark, text_at};
use ap_defs::memory::Memory;
use indexmap::IndexSet;
use std::alloc::Global;

/// A variable of an item: where it stands first, and how often it stands.
#[derive(Clone, Copy)]
struct Variable {
    token: usize,
    count: usize,
}

fn count_word<'a>(
    words: &mut IndexSet<&'a str>,
    variables: &mut Vec<Variable>,
    word: &'a str,
    token: usize,
) -> Result<(), Memory> {
    let (place, is_new) = words.insert_full(word)?;
    if is_new {
        variables.push(Variable { token, count: 0 })?;
    }
    if let Some(variable) = variables.get_mut(place) {
        variable.count = variable.count.saturating_add(1);
    }
    Ok(())
}

/// Counts the variables of an item that don't begin with `_`.
fn count_words<'a>(
    words: &mut IndexSet<&'a str>,
    variables: &mut Vec<Variable>,
    text: &'a str,
    marks: &[Mark],
) -> Result<(), Memory> {
    for (place, mark) in marks.iter().enumerate() {
        if matches!(mark.kind, Kind::Variable) {
            let word = text_at(text, marks, place);
            if !word.starts_with('_') {
                count_word(words, variables, word, place)?;
            }
        }
    }
    Ok(())
}

/// The places of the variables that stand once in an item and don't begin with `_`, in order.
pub(crate) fn single_variables(
    alloc: Global,
    text: &str,
    marks: &[Mark],
) -> Result<Vec<usize>, Memory> {
    let mut words = IndexSet::new(alloc);
    let mut variables = Vec::new(alloc);
    // One way out, so that both are let go there alone.
    match count_words(&mut words, &mut variables, text, marks) {
        Ok(()) => single_tokens(alloc, variables.as_slice()),
        Err(Memory) => Err(Memory),
    }
}

fn single_tokens(alloc: Global, variables: &[Variable]) -> Result<Vec<usize>, Memory> {
    let mut tokens = Vec::new(alloc);
    for variable in variables {
        if variable.count == 1 {
            tokens.push(variable.token)?;
        }
    }
    Ok(tokens)
}
