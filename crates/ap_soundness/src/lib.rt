//! What the search finds is derivable in nominal logic, on ground instances.
//!
//! Each law is the contract of a call that does nothing. The statements stand in `specs/`, and the
//! lemmas that prove them in `proofs/`, where the crates above can cite them.
#![tactic(auto)]

pub mod soundness;
