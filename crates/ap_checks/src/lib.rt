//! When a derivation checks, and what follows from it.
//!
//! Each law is the contract of a call that does nothing. The statements stand in `specs/`, and the
//! lemmas that prove them in `proofs/`, where the crates above can cite them.
#![tactic(auto)]

pub mod checked;
pub mod paths;
