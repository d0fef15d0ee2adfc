//! Names that are taken out of the way.

ghost use Rattle.std.specs.Prelude.{◌≡◌, ◌<◌, ◌+◌, ◌^◌, ◌∷◌, [], ◌++◌, IfOk, OnOk, drop, filter, map};
ghost use Rattle.ap_defs.specs.Answers.{answer_of};
ghost use Rattle.ap_defs.specs.Permutations.{has_name};
ghost use Rattle.ap_defs.specs.Terms.{term_of};
ghost use Rattle.ap_defs.specs.Types.{locals_of};
ghost use Rattle.ap_clearing.specs.Clearing as spec;
ghost use Rattle.ap_clearing.specs.Clearing.{AreUsedBelow, Clears, IsLeastUnused, used_names};
ghost use Rattle.ap_clearing.specs.Starts.{SkipsUsed};

use ap_defs::goals::Local;
use ap_defs::memory::Memory;
use ap_defs::outcomes::Answer;
use ap_defs::terms::{Name, Swap, Term};
use ap_instance::names::{Names, add_names_of_terms, names_of_answer};
use indexmap::{IndexMap, IndexSet};
use std::alloc::Global;

/// Whether a name is one of some.
#[tactic(auto, using(crate::proofs::ClearsLemmas::any_name), unfolding(ap_defs::specs::Permutations::name_eq))]
fn stands_in(names: &IndexSet<Name>, name: &Name) -> bool
    ensures { result ≡ has_name name.now names.now.keys }
{
    names.contains(name)
}

/// The number of the first name of a sort that is none of some, where all below one number are. `Err` is want of
/// numbers.
fn next_unused(names: &IndexSet<Name>, sort: u32, from: u64) -> Result<u64, Memory>
    requires from { AreUsedBelow names.now.keys sort from }
    ensures least { IfOk result (λ n.
        IsLeastUnused names.now.keys (record { sort = sort; num = n })) }
    ensures below { IfOk result (λ n. n + 1 < 2 ^ 64) }
{
    'looking: for num in from..u64::MAX {
        if !stands_in(names, &Name { sort, num }) {
            return Ok(num);
        }
    }
    Err(Memory)
}

/// Keeps a name that stands among others.
#[tactic(auto, using(crate::proofs::ClearsLemmas::kept_one, crate::proofs::ClearsLemmas::kept_none))]
fn keep(found: &mut Vec<Name>, there: &IndexSet<Name>, name: &Name) -> Result<(), Memory>
    ensures { OnOk result (found.new.items
        ≡ found.old.items ++ filter (λ b. has_name b there.now.keys) (name.now ∷ [])) }
{
    if !stands_in(there, name) {
        return Ok(());
    }
    found.push(*name)?;
    Ok(())
}

/// Those of the answer's names that are none of the query's and stand among others.
fn in_the_way(alloc: Global, names: &Names, there: &IndexSet<Name>) -> Result<Vec<Name>, Memory>
    ensures { IfOk result (λ v. v.items ≡ filter (λ b. has_name b there.now.keys)
        (drop names.now.free names.now.known.keys)) }
{
    let mut found = Vec::new(alloc);
    for place in names.free..names.known.len() {
        if let Some(name) = names.known.get_index(place) {
            keep(&mut found, there, name)?;
        }
    }
    Ok(found)
}

/// The number of the first name of a sort that is not used. From then on it is. The search for it starts where the
/// last one for this sort ended.
fn take_name(
    used: &mut IndexSet<Name>,
    starts: &mut IndexMap<u32, u64>,
    sort: u32,
) -> Result<u64, Memory>
    requires starts { SkipsUsed used.now.keys starts.now }
    ensures least { IfOk result (λ n.
        IsLeastUnused used.old.keys (record { sort = sort; num = n })) }
    ensures used { IfOk result (λ n.
        used.new.keys ≡ used.old.keys ++ (record { sort = sort; num = n }) ∷ []) }
    ensures starts { OnOk result (SkipsUsed used.new.keys starts.new) }
{
    let from = starts.get(&sort).copied().unwrap_or(0);
    let num = next_unused(used, sort, from)?;
    used.insert(Name { sort, num })?;
    starts.insert(sort, num + 1)?;
    Ok(num)
}

/// Exchanges each of the names for the first of its sort that is not used. What is brought is used from then on.
fn exchanges(alloc: Global, used: &mut IndexSet<Name>, names: &[Name]) -> Result<Vec<Swap>, Memory>
    ensures { IfOk result (λ v. Clears used.old.keys names.now v.items) }
{
    let mut swaps = Vec::new(alloc);
    let mut starts = IndexMap::new(alloc);
    let mut rest = names;
    'clearing: while let Some((name, others)) = rest.split_first() {
        let right = take_name(used, &mut starts, name.sort)?;
        swaps.push(Swap {
            sort: name.sort,
            left: name.num,
            right,
        })?;
        rest = others;
    }
    Ok(swaps)
}

/// The swappings that take the names of an answer to a query with these identifiers out of the way of terms: those
/// that are none of the query's and stand in the terms are exchanged, in order, each for the first name of its sort
/// that stands nowhere and was not brought before. `Err` is want of memory, or of numbers.
pub fn clearing_swaps(
    alloc: Global,
    locals: &[Local],
    answer: &Answer,
    terms: &[Term],
) -> Result<Vec<Swap>, Memory>
    ensures { IfOk result (λ v. Clears
        (used_names (locals_of locals.now) (answer_of answer.now) (map term_of terms.now))
        (spec.in_the_way (locals_of locals.now) (answer_of answer.now) (map term_of terms.now))
        v.items) }
{
    let mut names = names_of_answer(alloc, locals, answer)?;
    let mut there = IndexSet::new(alloc);
    add_names_of_terms(alloc, &mut there, terms)?;
    let found = in_the_way(alloc, &names, &there)?;
    add_names_of_terms(alloc, &mut names.known, terms)?;
    exchanges(alloc, &mut names.known, &found)
}
