//! Laws of ground proofs, on which the soundness of answers stands.
//!
//! Each law is the contract of a call that does nothing. The statements stand in `specs/`, and the
//! lemmas that prove them in `proofs/`, where the crates above can cite them.
#![tactic(auto)]

pub mod ground_proofs;
pub mod shown_instances;
pub mod typed_terms;
