// The lines of the table, read.
ghost use Rattle.std.specs.Prelude.{◌≡◌, ◌<◌, [], length, reverse, IfOk, IfSome};
ghost use Rattle.std.specs.Option.{option_map};
ghost use Rattle.ap_bundle.specs.Readers as readers;
ghost use Rattle.ap_bundle.specs.TableForms as spec;
ghost use Rattle.ap_bundle_read.specs.Outcomes.{Gives, place_of};
ghost use Rattle.ap_shared.specs.Shared.{IsBehind, entry_term, shared_at};
ghost use Rattle.ap_shared.specs.SharedViews.{shared_terms};

use crate::error::ReadError;
use crate::line_forms::after_head;
use crate::numbers::{a_name, first_number, small, swaps};
use crate::place::{Place, words_at, wrong};
use ap_bundle::faults::BundleKind;
use ap_bundle::words::{Head, Letter, Word};
use ap_defs::lists::Swaps;
use ap_defs::memory::Memory;
use ap_defs::terms::Var;
use ap_shared::arena::SharedTerms;
use ap_shared::lines::Entry;
use std::alloc::Global;

/// The line of an earlier term.
#[tactic(auto, unfolding(ap_bundle::specs::TableForms::earlier))]
fn earlier(table: &SharedTerms, numbers: &mut Vec<u64>) -> Option<usize>
    ensures value { option_map (λ i. (
      shared_at (shared_terms table.now) i,
      reverse
          numbers.new.items,
    )) result
        ≡ spec.earlier (shared_terms table.now) (reverse numbers.old.items) }
    ensures within { IfSome result (λ i. i < length (shared_terms table.now)) }
{
    let line = first_number(numbers)?;
    if line < table.len() as u64 {
        Some(line as usize)
    } else {
        None
    }
}

#[tactic(auto, unfolding(ap_bundle::specs::TableForms::name_entry))]
fn name_entry(table: &SharedTerms, numbers: Vec<u64>) -> Option<Entry>
    ensures value { option_map (entry_term (shared_terms table.now)) result
        ≡ spec.name_entry (reverse numbers.items) }
    ensures behind { IfSome result (IsBehind (length (shared_terms table.now))) }
{
    let mut numbers = numbers;
    let name = a_name(&mut numbers)?;
    if numbers.is_empty() {
        Some(Entry::Name(name))
    } else {
        None
    }
}

#[tactic(auto, unfolding(ap_bundle::specs::TableForms::pair_entry))]
fn pair_entry(table: &SharedTerms, numbers: Vec<u64>) -> Option<Entry>
    ensures value { option_map (entry_term (shared_terms table.now)) result
        ≡ spec.pair_entry (shared_terms table.now) (reverse numbers.items) }
    ensures behind { IfSome result (IsBehind (length (shared_terms table.now))) }
{
    let mut numbers = numbers;
    let left = earlier(table, &mut numbers)?;
    let right = earlier(table, &mut numbers)?;
    if numbers.is_empty() {
        Some(Entry::Pair(left, right))
    } else {
        None
    }
}

#[tactic(auto, unfolding(ap_bundle::specs::TableForms::app_entry))]
fn app_entry(table: &SharedTerms, numbers: Vec<u64>) -> Option<Entry>
    ensures value { option_map (entry_term (shared_terms table.now)) result
        ≡ spec.app_entry (shared_terms table.now) (reverse numbers.items) }
    ensures behind { IfSome result (IsBehind (length (shared_terms table.now))) }
{
    let mut numbers = numbers;
    let constructor = small(&mut numbers)?;
    let part = earlier(table, &mut numbers)?;
    if numbers.is_empty() {
        Some(Entry::App(constructor, part))
    } else {
        None
    }
}

#[tactic(auto, unfolding(ap_bundle::specs::TableForms::abs_entry))]
fn abs_entry(table: &SharedTerms, numbers: Vec<u64>) -> Option<Entry>
    ensures value { option_map (entry_term (shared_terms table.now)) result
        ≡ spec.abs_entry (shared_terms table.now) (reverse numbers.items) }
    ensures behind { IfSome result (IsBehind (length (shared_terms table.now))) }
{
    let mut numbers = numbers;
    let name = a_name(&mut numbers)?;
    let part = earlier(table, &mut numbers)?;
    if numbers.is_empty() {
        Some(Entry::Abs(name.sort, name.num, part))
    } else {
        None
    }
}

#[tactic(auto, unfolding(ap_bundle::specs::TableForms::susp_entry))]
fn susp_entry(
    alloc: Global,
    table: &SharedTerms,
    numbers: Vec<u64>,
) -> Result<Option<Entry>, Memory>
    ensures value { IfOk result (λ r. option_map (entry_term (shared_terms table.now)) r
        ≡ spec.susp_entry (reverse numbers.items)) }
    ensures behind { IfOk result (λ r. IfSome r (IsBehind (length (shared_terms table.now)))) }
{
    let mut numbers = numbers;
    let Some(count) = first_number(&mut numbers) else {
        return Ok(None);
    };
    let Some(front) = swaps(alloc, count, &mut numbers)? else {
        return Ok(None);
    };
    let Some(num) = first_number(&mut numbers) else {
        return Ok(None);
    };
    if numbers.is_empty() {
        let front = Swaps::of(alloc, front)?;
        Ok(Some(Entry::Susp(front, Var { num })))
    } else {
        Ok(None)
    }
}

/// What a letter says of a term, with the numbers behind it.
fn entry_of(
    alloc: Global,
    table: &SharedTerms,
    letter: Letter,
    numbers: Vec<u64>,
) -> Result<Option<Entry>, Memory>
    ensures value { IfOk result (λ r. option_map (entry_term (shared_terms table.now)) r
        ≡ spec.entry (shared_terms table.now) letter (reverse numbers.items)) }
    ensures behind { IfOk result (λ r. IfSome r (IsBehind (length (shared_terms table.now)))) }
{
    match letter {
        Letter::U => {
            if numbers.is_empty() {
                Ok(Some(Entry::Unit))
            } else {
                Ok(None)
            }
        }
        Letter::N => Ok(name_entry(table, numbers)),
        Letter::P => Ok(pair_entry(table, numbers)),
        Letter::A => Ok(app_entry(table, numbers)),
        Letter::L => Ok(abs_entry(table, numbers)),
        Letter::S => susp_entry(alloc, table, numbers),
        Letter::D | Letter::B => Ok(None),
    }
}

/// The numbers that words are, the last of them first.
fn numbers_of(alloc: Global, words: &[Word]) -> Result<Option<Vec<u64>>, Memory>
    ensures { IfOk result (λ r. option_map (λ v. reverse v.items) r ≡ spec.numbers words.now) }
{
    let mut numbers = Vec::new(alloc);
    let mut left = words.len();
    while left > 0 {
        left -= 1;
        match words[left] {
            Word::Number(number) => numbers.push(number)?,
            Word::Letter(_) | Word::Node(_) | Word::Head(_) => return Ok(None),
        }
    }
    Ok(Some(numbers))
}

/// What a line of the table says behind its first word.
fn entry_behind(alloc: Global, table: &SharedTerms, words: &[Word]) -> Result<Option<Entry>, Memory>
    ensures value { IfOk result (λ r. option_map (entry_term (shared_terms table.now)) r
        ≡ spec.entry_behind (shared_terms table.now) words.now) }
    ensures behind { IfOk result (λ r. IfSome r (IsBehind (length (shared_terms table.now)))) }
{
    match words {
        [Word::Letter(letter), rest @ ..] => match numbers_of(alloc, rest)? {
            Some(numbers) => entry_of(alloc, table, *letter, numbers),
            None => Ok(None),
        },
        _ => Ok(None),
    }
}

/// What a line of the table says.
#[tactic(auto, unfolding(ap_bundle::specs::TableForms::entry_form))]
fn entry_form(alloc: Global, table: &SharedTerms, words: &[Word]) -> Result<Option<Entry>, Memory>
    ensures value { IfOk result (λ r. option_map (entry_term (shared_terms table.now)) r
        ≡ spec.entry_form (shared_terms table.now) words.now) }
    ensures behind { IfOk result (λ r. IfSome r (IsBehind (length (shared_terms table.now)))) }
{
    match after_head(Head::T, words) {
        Some(rest) => entry_behind(alloc, table, rest),
        None => Ok(None),
    }
}

/// The line of the table at the place.
#[tactic(auto, unfolding(ap_bundle::specs::Readers::read_form))]
fn read_entry<'a>(
    alloc: Global,
    table: &SharedTerms,
    place: Place<'a>,
) -> Result<(Entry, Place<'a>), ReadError>
    ensures value { Gives (λ r. (entry_term (shared_terms table.now) r.0, place_of r.1)) result
        (readers.read_form BundleKind.Term (spec.entry_form (shared_terms table.now))
        (place_of place.entry)) }
    ensures behind { IfOk result (λ r. IsBehind (length (shared_terms table.now)) r.0) }
{
    let (words, rest) = words_at(alloc, BundleKind::Term, place)?;
    let Some(entry) = entry_form(alloc, table, &words)? else {
        return Err(wrong(BundleKind::Term, place));
    };
    Ok((entry, rest))
}

/// So many lines of the table.
pub(crate) fn read_entries<'a>(
    alloc: Global,
    count: u64,
    place: Place<'a>,
) -> Result<(SharedTerms, Place<'a>), ReadError>
    ensures value { Gives (λ r. (shared_terms r.0, place_of r.1)) result
        (spec.read_entries count [] (place_of place.entry)) }
{
    let mut table = SharedTerms::new(alloc);
    let mut place = place;
    for _ in 0..count {
        let (entry, rest) = read_entry(alloc, &table, place)?;
        table.add(entry)?;
        place = rest;
    }
    Ok((table, place))
}
