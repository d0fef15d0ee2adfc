//! Lists of swappings, closures, lookups of what variables are bound to, and sets of conditions.
#![tactic(auto)]

pub mod closures;
pub mod images;
pub mod joining;
pub mod laws;
pub mod look;
pub mod sets;
pub mod swappings;
