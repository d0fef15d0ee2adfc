//! The theory of names and of unification over the definitions of `ap_defs`.
//!
//! Each law is the contract of a call that does nothing: `permutations`, `exchanges`, `ground_terms`,
//! `equality` (of terms with variables, under any set of `contexts::Conditions`),
//! `tests_under_conditions` (the same with the tests), `substitution`, `conditions`, `unification`,
//! `results` (of unification), `groundings` and `replacement` (of names). The statements stand in
//! `specs/`, and the lemmas that prove them in `proofs/`, where the crates above can cite them.
#![tactic(auto)]

pub mod conditions;
pub mod contexts;
pub mod equality;
pub mod exchanges;
pub mod ground_terms;
pub mod groundings;
pub mod permutations;
pub mod replacement;
pub mod results;
pub mod substitution;
pub mod tests_under_conditions;
pub mod unification;
