//! The answers of a program with their derivations, and what a list of such comes to.
//!
//! `specs/Proofs.antt` says which they are, and `specs/Verdicts.antt` which of them is the first to be
//! refused. The laws are the contracts of calls that do nothing; the lemmas that prove them stand in `proofs/`.
#![tactic(auto)]

pub mod laws;
