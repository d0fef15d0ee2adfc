//! What the freshness goals of a clause's body state.
#![tactic(auto)]

pub mod facts;
