//! What is made of the answers of a program's queries, one query after the other.
//!
//! `proving`: the answers with their derivations. `counting`: how often these use each clause.
#![tactic(auto)]

pub mod counting;
pub mod proving;
mod queries;
