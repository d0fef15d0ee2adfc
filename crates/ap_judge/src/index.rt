//! Answers with an index of their typed variables and conditions.

ghost use Rattle.std.specs.Prelude.{◌≡◌, ◌<◌, ℕ, true, false, length, map, IfOk, MatchOption, None, Some};
ghost use Rattle.std.specs.BTreeMap as tree;
ghost use Rattle.std.specs.BTreeSet as bag;
ghost use Rattle.std.specs.Ordering.{nat_cmp};
ghost use Rattle.ap_defs.specs.declared.terms.Cond.{Cond};
ghost use Rattle.ap_defs.specs.declared.terms.Var.{Var};
ghost use Rattle.ap_defs.specs.Answers.{typed_var_of};
ghost use Rattle.ap_defs.specs.Freshness.{has_cond};
ghost use Rattle.ap_defs.specs.Types.{type_of};
ghost use Rattle.ap_defs.specs.Unification.{has_var};
ghost use Rattle.ap_checks.specs.Checks.{each_once};
ghost use Rattle.ap_checks.specs.TypeTests.{type_beside as beside};
ghost use Rattle.ap_judge.specs.Indexes.{place_from, sought, sought_cmp};

use ap_defs::memory::Memory;
use ap_defs::terms::{Cond, Ty, Var};
use ap_shared::derivations::SharedAnswer;
use std::alloc::Global;
use std::collections::{BTreeMap, BTreeSet};
use std::marker::Model;

/// An answer none of whose variables has two types. The type beside a variable and a condition are found
/// in time in proportion to the logarithm of their number, whatever order they stand in. Contracts see
/// the answer.
#[derive(Drop)]
pub struct IndexedAnswer<'a> {
    answer: &'a SharedAnswer,
    // By the numbers of variables.
    places: BTreeMap<u64, usize>,
    // Variables, with the sorts and numbers of names.
    conds: BTreeSet<(u64, (u32, u64))>,
}

impl<'a> Model for IndexedAnswer<'a> {
    ghost use Rattle.ap_shared.specs.declared.derivations.SharedAnswer.{SharedAnswer};

    ghost Value = { SharedAnswer };

    ghost use Rattle.ap_shared.specs.contracts.derivations.SharedAnswer as a;

    ghost coded = { a.the_row.coded };

    ghost use Rattle.std.specs.BTreeMap as tree;
    ghost use Rattle.std.specs.BTreeSet as bag;
    ghost use Rattle.std.specs.Ordering.{nat_cmp};
    ghost use Rattle.ap_judge.specs.Indexes.{IsIndex, sought_cmp};

    ghost view = { λ i. i.answer.now };

    ghost invariant = { λ i. IsIndex i.answer.now.vars i.answer.now.conds
        (tree.get nat_cmp i.places) (bag.contains sought_cmp i.conds) };
}

/// The places of the variables by their numbers, if none of them stands twice.
fn places_of(alloc: Global, vars: &[(Var, Ty)]) -> Result<Option<BTreeMap<u64, usize>>, Memory>
    ensures { IfOk result (λ o. MatchOption o
        (each_once (map typed_var_of vars.now) ≡ false)
        (λ m. (each_once (map typed_var_of vars.now) ≡ true)
        × ((x : ℕ) → tree.get nat_cmp m x ≡ place_from 0 vars.now x))) }
{
    let mut places = BTreeMap::new(alloc);
    for i in (0..vars.len()).rev() {
        if places.insert(vars[i].0.num, i)?.is_some() {
            return Ok(None);
        }
    }
    Ok(Some(places))
}

/// A condition as it is sought.
fn sought_key(c: &Cond) -> (u64, (u32, u64))
    ensures { result ≡ sought c.now }
{
    (c.var.num, (c.name.sort, c.name.num))
}

/// The conditions as they are sought.
fn conds_of(alloc: Global, conds: &[Cond]) -> Result<BTreeSet<(u64, (u32, u64))>, Memory>
    ensures { IfOk result (λ s. (c : Cond) →
        bag.contains sought_cmp s (sought c) ≡ has_cond c conds.now) }
{
    let mut sought = BTreeSet::new(alloc);
    for i in (0..conds.len()).rev() {
        sought.insert(sought_key(&conds[i]))?;
    }
    Ok(sought)
}

/// The type at a place.
fn type_at(vars: &[(Var, Ty)], place: usize) -> &Ty
    requires { place < length vars.now }
    ensures { (x : Var) → place_from 0 vars.now x.num ≡ Some place →
        beside (map typed_var_of vars.now) x ≡ Some (type_of result.now) }
{
    &vars[place].1
}

impl<'a> IndexedAnswer<'a> {
    /// The answer with its index, if none of its variables has two types. `Err` is want of memory.
    pub fn of(alloc: Global, answer: &'a SharedAnswer) -> Result<Option<IndexedAnswer<'a>>, Memory>
        ensures { IfOk result (λ o. MatchOption o
            (each_once (map typed_var_of answer.now.vars) ≡ false)
            (λ i. (each_once (map typed_var_of answer.now.vars) ≡ true) × (i ≡ answer.now))) }
    {
        let Some(places) = places_of(alloc, answer.vars.items())? else {
            return Ok(None);
        };
        let conds = conds_of(alloc, answer.conds.items())?;
        Ok(Some(IndexedAnswer {
            answer,
            places,
            conds,
        }))
    }

    /// The answer itself.
    pub fn answer(&self) -> &'a SharedAnswer
        ensures { result.now ≡ self.now }
    {
        self.answer
    }

    /// The type beside the variable, if it is there.
    pub fn type_beside(&self, x: Var) -> Option<&'a Ty>
        ensures { MatchOption result
            (beside (map typed_var_of self.now.vars) x ≡ None)
            (λ t. beside (map typed_var_of self.now.vars) x ≡ Some (type_of t.now)) }
    {
        match self.places.get(&x.num) {
            None => None,
            Some(place) => Some(type_at(self.answer.vars.items(), *place)),
        }
    }

    /// Whether a type is beside the variable.
    pub fn is_typed(&self, x: Var) -> bool
        ensures { result ≡ has_var x (map (λ v. v.0) (map typed_var_of self.now.vars)) }
    {
        self.places.contains_key(&x.num)
    }

    /// Whether the condition is among the answer's.
    pub fn has(&self, c: &Cond) -> bool
        ensures { result ≡ has_cond c.now self.now.conds }
    {
        self.conds.contains(&sought_key(c))
    }
}
