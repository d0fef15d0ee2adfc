// Types in prefix form, read from the right. Types wait on a stack, the last of it the first.
ghost use Rattle.std.specs.Prelude.{◌≡◌, ◌∷◌, List as list, reverse, IfOk};
ghost use Rattle.std.specs.Bool.{then_some};
ghost use Rattle.std.specs.Option.{option_map};
ghost use Rattle.ap_defs.specs.Types.{NominalType, type_of};
ghost use Rattle.ap_bundle.specs.Forms as spec;
ghost use Rattle.ap_bundle_read.specs.Stacks.{stacked, type_forms};

use crate::numbers::small;
use crate::room::give_back;
use ap_bundle::words::{Letter, Word};
use ap_defs::memory::Memory;
use ap_defs::terms::Ty;
use std::alloc::Global;
use std::sync::Arc;

/// The first type, taken off, in a counted box.
fn first_in_box(alloc: Global, types: &mut Vec<Ty>) -> Result<Option<Arc<Ty>>, Memory>
    ensures { IfOk result (λ r. option_map
        (λ t. (type_of t.value, stacked type_of types.new.items)) r
        ≡ spec.first (stacked type_of types.old.items)) }
{
    match types.pop() {
        Some(first) => Ok(Some(Arc::new(alloc, first)?)),
        None => Ok(None),
    }
}

/// The type, where no number is left.
fn at_end(numbers: &[u64], ty: Ty) -> Option<Ty>
    ensures { (ts : list NominalType) → option_map (λ t. type_of t ∷ ts) result
        ≡ spec.if_no_number (type_of ty ∷ ts) (reverse numbers.now) }
{
    if numbers.is_empty() { Some(ty) } else { None }
}

#[tactic(auto, unfolding(ap_bundle::specs::Forms::names_onto))]
fn names_onto(numbers: &mut Vec<u64>) -> Option<Ty>
    ensures { (ts : list NominalType) → option_map (λ t. type_of t ∷ ts) result
        ≡ spec.names_onto (reverse numbers.old.items) ts }
{
    let sort = small(numbers)?;
    at_end(numbers, Ty::Names(sort))
}

#[tactic(auto, unfolding(ap_bundle::specs::Forms::base_onto))]
fn base_onto(numbers: &mut Vec<u64>) -> Option<Ty>
    ensures { (ts : list NominalType) → option_map (λ t. type_of t ∷ ts) result
        ≡ spec.base_onto (reverse numbers.old.items) ts }
{
    let base = small(numbers)?;
    at_end(numbers, Ty::Base(base))
}

#[tactic(auto, unfolding(ap_bundle::specs::Forms::pair_type_onto))]
fn pair_onto(alloc: Global, numbers: &[u64], types: &mut Vec<Ty>) -> Result<Option<Ty>, Memory>
    ensures { IfOk result (λ r. option_map (λ t. type_of t ∷ stacked type_of types.new.items) r
        ≡ spec.pair_type_onto (reverse numbers.now) (stacked type_of types.old.items)) }
{
    let Some(left) = first_in_box(alloc, types)? else {
        return Ok(None);
    };
    let Some(right) = first_in_box(alloc, types)? else {
        return Ok(None);
    };
    Ok(at_end(numbers, Ty::Pair(left, right)))
}

#[tactic(auto, unfolding(ap_bundle::specs::Forms::list_onto))]
fn list_onto(alloc: Global, numbers: &[u64], types: &mut Vec<Ty>) -> Result<Option<Ty>, Memory>
    ensures { IfOk result (λ r. option_map (λ t. type_of t ∷ stacked type_of types.new.items) r
        ≡ spec.list_onto (reverse numbers.now) (stacked type_of types.old.items)) }
{
    let Some(element) = first_in_box(alloc, types)? else {
        return Ok(None);
    };
    Ok(at_end(numbers, Ty::List(element)))
}

#[tactic(auto, unfolding(ap_bundle::specs::Forms::abs_type_onto))]
fn abs_onto(
    alloc: Global,
    numbers: &mut Vec<u64>,
    types: &mut Vec<Ty>,
) -> Result<Option<Ty>, Memory>
    ensures { IfOk result (λ r. option_map (λ t. type_of t ∷ stacked type_of types.new.items) r
        ≡ spec.abs_type_onto (reverse numbers.old.items) (stacked type_of types.old.items)) }
{
    let Some(sort) = small(numbers) else {
        return Ok(None);
    };
    let Some(body) = first_in_box(alloc, types)? else {
        return Ok(None);
    };
    Ok(at_end(numbers, Ty::Abs(sort, body)))
}

/// A letter before numbers and types: the type that it begins.
fn type_onto(
    alloc: Global,
    letter: Letter,
    numbers: &mut Vec<u64>,
    types: &mut Vec<Ty>,
) -> Result<Option<Ty>, Memory>
    ensures { IfOk result (λ r. option_map (λ t. type_of t ∷ stacked type_of types.new.items) r
        ≡ spec.type_onto letter (reverse numbers.old.items) (stacked type_of types.old.items)) }
{
    match letter {
        Letter::U => Ok(at_end(numbers, Ty::Unit)),
        Letter::N => Ok(names_onto(numbers)),
        Letter::D => Ok(base_onto(numbers)),
        Letter::P => pair_onto(alloc, numbers, types),
        Letter::L => list_onto(alloc, numbers, types),
        Letter::B => abs_onto(alloc, numbers, types),
        Letter::A | Letter::S => Ok(None),
    }
}

/// Numbers that no letter has taken yet, and the types behind them.
#[derive(Drop)]
struct TypeForms {
    numbers: Vec<u64>,
    whole: Vec<Ty>,
}

/// A letter before numbers and types, or false where it begins none.
fn letter_onto(alloc: Global, letter: Letter, types: &mut TypeForms) -> Result<bool, Memory>
    ensures { IfOk result (λ yes. then_some yes (type_forms types.new)
        ≡ spec.word_onto spec.type_onto (Word.Letter letter) (type_forms types.old)) }
{
    let Some(ty) = type_onto(alloc, letter, &mut types.numbers, &mut types.whole)? else {
        return Ok(false);
    };
    types.numbers.clear();
    types.whole.push(ty)?;
    Ok(true)
}

/// A word before numbers and types, or false where it is none of them.
fn word_onto(alloc: Global, word: Word, types: &mut TypeForms) -> Result<bool, Memory>
    ensures { IfOk result (λ yes. then_some yes (type_forms types.new)
        ≡ spec.word_onto spec.type_onto word (type_forms types.old)) }
{
    match word {
        Word::Number(number) => {
            types.numbers.push(number)?;
            Ok(true)
        }
        Word::Letter(letter) => letter_onto(alloc, letter, types),
        Word::Node(_) | Word::Head(_) => Ok(false),
    }
}

/// The one type, where there is one and no number.
fn only(types: TypeForms) -> Option<Ty>
    ensures { option_map type_of result
        ≡ spec.only (type_forms types).numbers (type_forms types).whole }
{
    let TypeForms { numbers, mut whole } = types;
    if whole.len() == 1 && numbers.is_empty() {
        whole.pop()
    } else {
        None
    }
}

/// The one type that the words are.
#[tactic(auto, unfolding(ap_bundle::specs::Forms::form))]
pub(crate) fn type_from(alloc: Global, words: &[Word]) -> Result<Option<Ty>, Memory>
    ensures { IfOk result (λ r. option_map type_of r ≡ spec.form spec.type_onto words.now) }
{
    let mut types = TypeForms {
        numbers: Vec::new(alloc),
        whole: Vec::new(alloc),
    };
    let mut left = words.len();
    while left > 0 {
        left -= 1;
        if !word_onto(alloc, words[left], &mut types)? {
            return Ok(None);
        }
        give_back(&mut types.whole);
    }
    Ok(only(types))
}
