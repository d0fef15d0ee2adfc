//! Laws of nominal resolution, on which a machine that searches stands.
//!
//! Each law is the contract of a call that does nothing. The statements stand in `specs/`, and the
//! lemmas that prove them in `proofs/`, where the crates above can cite them.
#![tactic(auto)]

pub mod continuations;
pub mod depths;
pub mod equal_states;
pub mod fit_states;
pub mod outcomes;
pub mod paths;
pub mod records;
pub mod trees;
pub mod types;
