//! The clauses of each predicate by their head keys: what the first argument of a clause begins with.
//!
//! `keys` reads the key of a clause, `predicate` has the clauses of a predicate with the key of each, and
//! `index` has those of a program. A clause whose key does not agree with that of an atom has no outcome,
//! so a search leaves it out. `matching` tells which of many keys agree with a wanted one, and finds the next
//! one that does: whole blocks are compared by vectors, and what is less than a block one by one.
#![tactic(auto)]

mod blocks;
pub mod index;
mod keys;
pub mod matching;
pub mod places;
pub mod predicate;
