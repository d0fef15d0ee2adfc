//! The completeness of nominal resolution: what has a ground proof is covered by what the search finds.
//!
//! Each law is the contract of a call that does nothing. The statements stand in `specs/`, and the
//! lemmas that prove them in `proofs/`, where the crates above can cite them.
#![tactic(auto)]

pub mod completeness;
pub mod freshness;
pub mod renaming;
pub mod simulation;
