//! What is made of the answers of one query, which so many workers find between them.
//!
//! `proving`: the answers with their derivations, each made from the path at which it was found. `counting`: how
//! often these use each clause.
#![tactic(auto)]

mod answers;
pub mod counting;
pub mod proving;
