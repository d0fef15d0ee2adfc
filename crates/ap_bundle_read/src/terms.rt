// Terms in prefix form, read from the right. Terms wait on a stack, the last of it the first.
ghost use Rattle.std.specs.Prelude.{◌≡◌, ◌∷◌, List as list, reverse, IfOk};
ghost use Rattle.std.specs.Bool.{then_some};
ghost use Rattle.std.specs.Option.{option_map};
ghost use Rattle.ap_defs.specs.Terms.{NominalTerm, abs, term_of};
ghost use Rattle.ap_bundle.specs.Forms as spec;
ghost use Rattle.ap_bundle_read.specs.Stacks.{stacked, term_forms};

use crate::numbers::{a_name, first_number, small, swaps};
use crate::room::give_back;
use ap_bundle::words::{Letter, Word};
use ap_defs::lists::Swaps;
use ap_defs::memory::Memory;
use ap_defs::terms::{Name, Term, Var};
use std::alloc::Global;

/// The first term, taken off.
fn first_term(terms: &mut Vec<Term>) -> Option<Term>
    ensures { option_map (λ t. (term_of t, stacked term_of terms.new.items)) result
        ≡ spec.first (stacked term_of terms.old.items) }
{
    terms.pop()
}

/// The first term, taken off, in a box.
fn first_in_box(alloc: Global, terms: &mut Vec<Term>) -> Result<Option<Box<Term>>, Memory>
    ensures { IfOk result (λ r. option_map
        (λ t. (term_of t.value, stacked term_of terms.new.items)) r
        ≡ spec.first (stacked term_of terms.old.items)) }
{
    match first_term(terms) {
        Some(first) => Ok(Some(Box::new(alloc, first)?)),
        None => Ok(None),
    }
}

/// The term, where no number is left.
fn at_end(numbers: &[u64], term: Term) -> Option<Term>
    ensures { (ts : list NominalTerm) → option_map (λ t. term_of t ∷ ts) result
        ≡ spec.if_no_number (term_of term ∷ ts) (reverse numbers.now) }
{
    if numbers.is_empty() { Some(term) } else { None }
}

/// The abstraction of a name.
fn abstraction(name: Name, body: Box<Term>) -> Term
    ensures { term_of result ≡ abs name (term_of body.value) }
{
    Term::Abs(name.sort, name.num, body)
}

#[tactic(auto, unfolding(ap_bundle::specs::Forms::name_onto))]
fn name_onto(numbers: &mut Vec<u64>) -> Option<Term>
    ensures { (ts : list NominalTerm) → option_map (λ t. term_of t ∷ ts) result
        ≡ spec.name_onto (reverse numbers.old.items) ts }
{
    let name = a_name(numbers)?;
    at_end(numbers, Term::Name(name))
}

#[tactic(auto, unfolding(ap_bundle::specs::Forms::pair_onto))]
fn pair_onto(alloc: Global, numbers: &[u64], terms: &mut Vec<Term>) -> Result<Option<Term>, Memory>
    ensures { IfOk result (λ r. option_map (λ t. term_of t ∷ stacked term_of terms.new.items) r
        ≡ spec.pair_onto (reverse numbers.now) (stacked term_of terms.old.items)) }
{
    let Some(left) = first_term(terms) else {
        return Ok(None);
    };
    let Some(right) = first_term(terms) else {
        return Ok(None);
    };
    let right = Box::new(alloc, right)?;
    let left = Box::new(alloc, left)?;
    Ok(at_end(numbers, Term::Pair(left, right)))
}

#[tactic(auto, unfolding(ap_bundle::specs::Forms::app_onto))]
fn app_onto(
    alloc: Global,
    numbers: &mut Vec<u64>,
    terms: &mut Vec<Term>,
) -> Result<Option<Term>, Memory>
    ensures { IfOk result (λ r. option_map (λ t. term_of t ∷ stacked term_of terms.new.items) r
        ≡ spec.app_onto (reverse numbers.old.items) (stacked term_of terms.old.items)) }
{
    let Some(constructor) = small(numbers) else {
        return Ok(None);
    };
    let Some(argument) = first_in_box(alloc, terms)? else {
        return Ok(None);
    };
    Ok(at_end(numbers, Term::App(constructor, argument)))
}

#[tactic(auto, unfolding(ap_bundle::specs::Forms::abs_onto))]
fn abs_onto(
    alloc: Global,
    numbers: &mut Vec<u64>,
    terms: &mut Vec<Term>,
) -> Result<Option<Term>, Memory>
    ensures { IfOk result (λ r. option_map (λ t. term_of t ∷ stacked term_of terms.new.items) r
        ≡ spec.abs_onto (reverse numbers.old.items) (stacked term_of terms.old.items)) }
{
    let Some(name) = a_name(numbers) else {
        return Ok(None);
    };
    let Some(body) = first_in_box(alloc, terms)? else {
        return Ok(None);
    };
    Ok(at_end(numbers, abstraction(name, body)))
}

#[tactic(auto, unfolding(ap_bundle::specs::Forms::susp_onto))]
fn susp_onto(alloc: Global, numbers: &mut Vec<u64>) -> Result<Option<Term>, Memory>
    ensures { (ts : list NominalTerm) → IfOk result (λ r. option_map (λ t. term_of t ∷ ts) r
        ≡ spec.susp_onto (reverse numbers.old.items) ts) }
{
    let Some(count) = first_number(numbers) else {
        return Ok(None);
    };
    let Some(front) = swaps(alloc, count, numbers)? else {
        return Ok(None);
    };
    let Some(num) = first_number(numbers) else {
        return Ok(None);
    };
    let front = Swaps::of(alloc, front)?;
    Ok(at_end(numbers, Term::Susp(front, Var { num })))
}

/// A letter before numbers and terms: the term that it begins.
fn term_onto(
    alloc: Global,
    letter: Letter,
    numbers: &mut Vec<u64>,
    terms: &mut Vec<Term>,
) -> Result<Option<Term>, Memory>
    ensures { IfOk result (λ r. option_map (λ t. term_of t ∷ stacked term_of terms.new.items) r
        ≡ spec.term_onto letter (reverse numbers.old.items) (stacked term_of terms.old.items)) }
{
    match letter {
        Letter::U => Ok(at_end(numbers, Term::Unit)),
        Letter::N => Ok(name_onto(numbers)),
        Letter::P => pair_onto(alloc, numbers, terms),
        Letter::A => app_onto(alloc, numbers, terms),
        Letter::L => abs_onto(alloc, numbers, terms),
        Letter::S => susp_onto(alloc, numbers),
        Letter::D | Letter::B => Ok(None),
    }
}

/// Numbers that no letter has taken yet, and the terms behind them.
#[derive(Drop)]
struct TermForms {
    numbers: Vec<u64>,
    whole: Vec<Term>,
}

/// A letter before numbers and terms, or false where it begins none.
fn letter_onto(alloc: Global, letter: Letter, terms: &mut TermForms) -> Result<bool, Memory>
    ensures { IfOk result (λ yes. then_some yes (term_forms terms.new)
        ≡ spec.word_onto spec.term_onto (Word.Letter letter) (term_forms terms.old)) }
{
    let Some(term) = term_onto(alloc, letter, &mut terms.numbers, &mut terms.whole)? else {
        return Ok(false);
    };
    terms.numbers.clear();
    terms.whole.push(term)?;
    Ok(true)
}

/// A word before numbers and terms, or false where it is none of them.
fn word_onto(alloc: Global, word: Word, terms: &mut TermForms) -> Result<bool, Memory>
    ensures { IfOk result (λ yes. then_some yes (term_forms terms.new)
        ≡ spec.word_onto spec.term_onto word (term_forms terms.old)) }
{
    match word {
        Word::Number(number) => {
            terms.numbers.push(number)?;
            Ok(true)
        }
        Word::Letter(letter) => letter_onto(alloc, letter, terms),
        Word::Node(_) | Word::Head(_) => Ok(false),
    }
}

/// The one term, where there is one and no number.
fn only(terms: TermForms) -> Option<Term>
    ensures { option_map term_of result
        ≡ spec.only (term_forms terms).numbers (term_forms terms).whole }
{
    let TermForms { numbers, mut whole } = terms;
    if whole.len() == 1 && numbers.is_empty() {
        whole.pop()
    } else {
        None
    }
}

/// The one term that the words are.
#[tactic(auto, unfolding(ap_bundle::specs::Forms::form))]
pub(crate) fn term_from(alloc: Global, words: &[Word]) -> Result<Option<Term>, Memory>
    ensures { IfOk result (λ r. option_map term_of r ≡ spec.form spec.term_onto words.now) }
{
    let mut terms = TermForms {
        numbers: Vec::new(alloc),
        whole: Vec::new(alloc),
    };
    let mut left = words.len();
    while left > 0 {
        left -= 1;
        if !word_onto(alloc, words[left], &mut terms)? {
            return Ok(None);
        }
        give_back(&mut terms.whole);
    }
    Ok(only(terms))
}
