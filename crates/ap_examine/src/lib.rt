//! Bounded search for counterexamples to the properties of a text, in the manner of Cheney and Momigliano's
//! αCheck.
//!
//! [`examine_text`] is the report of the command. A query is a property where its goal is a conjunction: its
//! last conjunct is to hold wherever the others do. For the stated instance of each answer of these others the
//! conclusion is searched: where that has no output at all, not even a cut, the instance is a counterexample,
//! for which the conclusion has no ground proof of any height.
#![tactic(auto)]

mod answers;
mod exam;
pub mod laws;
mod lines;
mod program;
mod search;
mod text;

pub use text::examine_text;
