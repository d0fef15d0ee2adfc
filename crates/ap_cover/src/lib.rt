//! Which output of a search covers a ground proof.
//!
//! A ground proof is a derivation without variables and conditions ([`ground::is_ground`]). Where it is no
//! higher than a depth ([`within::within`]), the search to that depth has an answer at its path
//! ([`path::path_of`]), of which what it proves is an instance, or a branch that is stuck at a beginning of the
//! path. [`covers::cover_of`] finds it among the outputs.
#![tactic(auto)]

pub mod covers;
pub mod ground;
pub mod laws;
pub mod matching_laws;
pub mod path;
pub mod within;
