//! Which output of its query's search covers each ground proof of a bundle, as lines.
//!
//! `all_proofs`: the lines of all proofs, for which each query is searched once. `uncovered`: the first proof that is not to be
//! covered. `lines`: what is written of one.
#![tactic(auto)]

pub mod all_proofs;
pub mod lines;
mod searched;
pub mod uncovered;
