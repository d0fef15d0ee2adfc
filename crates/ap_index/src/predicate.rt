//! The clauses of a predicate, and which of them an atom with a key may enter.

ghost use Rattle.std.specs.Prelude.{◌≡◌, ◌+◌, ◌<◌, ◌^◌, [], IfOk, MatchOption, OnErr, OnOk, drop, length, map};
ghost use Rattle.std.specs.List.{position_or_len};
ghost use Rattle.ap_defs.specs.Goals.{clause_of, clauses_of, program_in};
ghost use Rattle.ap_defs.specs.HeadKeys.{agree, first_key, kept_from};
ghost use Rattle.ap_index.specs.Keys.{AreNarrow, keys_of};
ghost use Rattle.ap_index.specs.Places.{AreKeysWithin};

use crate::keys::keys_of_clauses;
use crate::places::{Places, next_within, places_of};
use ap_defs::goals::Clause;
use ap_defs::memory::Memory;
use ap_defs::terms::Term;
use std::alloc::Global;
use std::marker::Model;

/// The clauses of a predicate, with the key of each. Contracts see the clauses.
#[derive(Drop)]
pub struct Predicate<'a> {
    clauses: &'a [Clause<Term>],
    keys: Vec<u32>,
    places: Places,
}

impl<'a> Model for Predicate<'a> {
    ghost use Rattle.std.specs.Prelude.{List as list};
    ghost use Rattle.ap_defs.specs.declared.goals.Clause.{Clause};
    ghost use Rattle.ap_defs.specs.declared.terms.Term.{Term};

    ghost Value = { list (Clause Term) };

    ghost use Rattle.std.specs.Coded.{codes};
    ghost use Rattle.ap_defs.specs.contracts.goals.Clause as c;
    ghost use Rattle.ap_defs.specs.contracts.terms.Term as t;

    ghost coded = { Prim.hlevel (codes, (c.the_row t.the_row).coded) };

    ghost use Rattle.ap_index.specs.Keyed.{HasKeys};

    ghost view = { λ a. a.clauses.now };

    ghost invariant = { λ a. HasKeys a.clauses.now a.keys.items
        a.places.starts.items a.places.ends.items };
}

/// The first place from a place on whose key agrees, the number of keys where there is none, or the place
/// itself where that is behind them.
fn next_place(keys: &[u32], places: &Places, key: u64, from: usize) -> usize
    requires narrow { AreNarrow keys.now }
    requires few { length keys.now < 2 ^ 32 }
    requires starts { length places.now.starts.items ≡ length keys.now + 1 }
    requires ends { length places.now.ends.items ≡ length keys.now + 1 }
    requires within { AreKeysWithin keys.now places.now.starts.items places.now.ends.items }
    ensures { result ≡ from + position_or_len (λ k. agree key k) (drop from keys.now) }
{
    if key == 0 {
        return from;
    }
    if keys.len() <= from {
        return from;
    }
    // None of the keys has more than 32 bits, so with such a key only the wild ones agree.
    let wanted = if key <= u32::MAX as u64 {
        key as u32
    } else {
        0
    };
    next_within(keys, places, wanted, from)
}

impl<'a> Predicate<'a> {
    /// The clauses of a predicate, with the key of each.
    pub fn of(alloc: Global, clauses: &'a [Clause<Term>]) -> Result<Predicate<'a>, Memory>
        requires narrow { AreNarrow (keys_of (map clause_of clauses.now)) }
        requires few { length clauses.now < 2 ^ 32 }
        ensures { IfOk result (λ p. p ≡ clauses.now) }
    {
        let keys = keys_of_clauses(alloc, clauses)?;
        let places = places_of(alloc, keys.as_slice())?;
        Ok(Predicate {
            clauses,
            keys,
            places,
        })
    }

    /// The clauses.
    pub fn clauses(&self) -> &'a [Clause<Term>]
        ensures { result.now ≡ self.now }
    {
        self.clauses
    }

    /// The first place from a place on of a clause that an atom with this key may enter, the number of
    /// clauses where there is none, or the place itself where that is behind them. It takes no memory.
    #[inline(always)]
    pub fn next(&self, key: u64, from: usize) -> usize
        ensures { result ≡ from + position_or_len (λ c. agree key (first_key c.args))
            (map clause_of (drop from self.now)) }
    {
        next_place(self.keys.as_slice(), &self.places, key, from)
    }

    /// The numbers from 1 of the clauses that an atom with this key may enter, in place of what `out`
    /// holds; on want of memory that is as before.
    pub fn kids(&self, alloc: Global, key: u64, out: &mut Vec<u32>) -> Result<(), Memory>
        ensures kept { OnOk result (out.new.items ≡ kept_from key 1 (map clause_of self.now)) }
        ensures same { OnErr result (out.new ≡ out.old) }
    {
        let count = self.clauses.len();
        let mut kept = Vec::new(alloc);
        let mut from = 0;
        'keeping: while from < count {
            let place = self.next(key, from);
            if place < count {
                kept.push(place as u32 + 1)?;
            }
            from = place + 1;
        }
        *out = kept;
        Ok(())
    }
}

/// The clauses of the predicate with this number, if there is one.
pub fn predicate_at<'s, 'a>(predicates: &'s [Predicate<'a>], pred: u32) -> Option<&'s Predicate<'a>>
    ensures { MatchOption result ([] ≡ clauses_of (program_in predicates.now) pred)
        (λ p. map clause_of p.now ≡ clauses_of (program_in predicates.now) pred) }
{
    if (pred as usize) < predicates.len() {
        Some(&predicates[pred as usize])
    } else {
        None
    }
}
