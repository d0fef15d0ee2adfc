//! How often derivations use each clause of a program.
//!
//! A clause without a use in the derivations of all answers is dead at their depth, which authors of
//! rules look for. `tables` has counts of uses, `walk` adds those of one derivation, whose nodes wait
//! on a stack of their own, and `uses` those of many, which it parts among workers.

pub mod laws;
pub mod tables;
pub mod uses;
pub mod walk;
