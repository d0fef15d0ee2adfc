//! Laws of bundles: what is written is read again, and none of its proper prefixes is.
//!
//! The laws are the contracts of calls that do nothing. The statements stand in `specs/`, and the lemmas
//! that prove them in `proofs/`.
#![tactic(auto)]

pub mod laws;
