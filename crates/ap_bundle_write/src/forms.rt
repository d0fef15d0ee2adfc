// Terms and types in prefix form.
//
// What is still to be written of a term stands on a stack, so no term is too deep.
ghost use Rattle.std.specs.Prelude.{◌≡◌, [], ◌∷◌, ◌++◌, length, flat_map, OnOk};
ghost use Rattle.ap_defs.specs.Terms.{term_of};
ghost use Rattle.ap_defs.specs.Types.{type_of};
ghost use Rattle.ap_bundle.specs.Forms.{name_words, swap_words, term_words, type_words};

use ap_bundle::words::{Letter, Word};
use ap_defs::memory::Memory;
use ap_defs::terms::{Name, Swap, Term, Ty};
use std::alloc::Global;

/// Adds the words of a name.
pub fn push_name(words: &mut Vec<Word>, name: Name) -> Result<(), Memory>
    ensures { OnOk result (words.new.items ≡ words.old.items ++ name_words name) }
{
    words.push(Word::Number(u64::from(name.sort)))?;
    words.push(Word::Number(name.num))?;
    Ok(())
}

fn push_swaps(words: &mut Vec<Word>, swaps: &[Swap]) -> Result<(), Memory>
    ensures { OnOk result (words.new.items ≡ words.old.items ++ flat_map swap_words swaps.now) }
{
    for swap in swaps {
        words.push(Word::Number(u64::from(swap.sort)))?;
        words.push(Word::Number(swap.left))?;
        words.push(Word::Number(swap.right))?;
    }
    Ok(())
}

/// Adds the words of a suspension behind its letter.
pub(crate) fn push_susp(words: &mut Vec<Word>, swaps: &[Swap], num: u64) -> Result<(), Memory>
    ensures { OnOk result (words.new.items
        ≡ words.old.items
        ++ (Word.Number (length swaps.now)
        ∷ (flat_map swap_words swaps.now ++ Word.Number num ∷ []))) }
{
    words.push(Word::Number(swaps.len() as u64))?;
    push_swaps(words, swaps)?;
    words.push(Word::Number(num))?;
    Ok(())
}

/// Adds the words of a term.
pub fn push_term(alloc: Global, words: &mut Vec<Word>, term: &Term) -> Result<(), Memory>
    ensures { OnOk result (words.new.items ≡ words.old.items ++ term_words (term_of term.now)) }
{
    let mut pending = Vec::new(alloc);
    pending.push(term)?;
    while let Some(next) = pending.pop() {
        match next {
            Term::Unit => words.push(Word::Letter(Letter::U))?,
            Term::Name(name) => {
                words.push(Word::Letter(Letter::N))?;
                push_name(words, *name)?;
            }
            Term::Pair(left, right) => {
                words.push(Word::Letter(Letter::P))?;
                pending.push(right)?;
                pending.push(left)?;
            }
            Term::App(constructor, argument) => {
                words.push(Word::Letter(Letter::A))?;
                words.push(Word::Number(u64::from(*constructor)))?;
                pending.push(argument)?;
            }
            Term::Abs(sort, num, body) => {
                words.push(Word::Letter(Letter::L))?;
                let name = Name {
                    sort: *sort,
                    num: *num,
                };
                push_name(words, name)?;
                pending.push(body)?;
            }
            Term::Susp(swaps, var) => {
                words.push(Word::Letter(Letter::S))?;
                push_susp(words, swaps.items(), var.num)?;
            }
        }
    }
    Ok(())
}

/// Adds the words of a type.
pub fn push_type(alloc: Global, words: &mut Vec<Word>, ty: &Ty) -> Result<(), Memory>
    ensures { OnOk result (words.new.items ≡ words.old.items ++ type_words (type_of ty.now)) }
{
    let mut pending = Vec::new(alloc);
    pending.push(ty)?;
    while let Some(next) = pending.pop() {
        match next {
            Ty::Unit => words.push(Word::Letter(Letter::U))?,
            Ty::Names(sort) => {
                words.push(Word::Letter(Letter::N))?;
                words.push(Word::Number(u64::from(*sort)))?;
            }
            Ty::Base(base) => {
                words.push(Word::Letter(Letter::D))?;
                words.push(Word::Number(u64::from(*base)))?;
            }
            Ty::Pair(left, right) => {
                words.push(Word::Letter(Letter::P))?;
                pending.push(right)?;
                pending.push(left)?;
            }
            Ty::List(element) => {
                words.push(Word::Letter(Letter::L))?;
                pending.push(element)?;
            }
            Ty::Abs(sort, body) => {
                words.push(Word::Letter(Letter::B))?;
                words.push(Word::Number(u64::from(*sort)))?;
                pending.push(body)?;
            }
        }
    }
    Ok(())
}
