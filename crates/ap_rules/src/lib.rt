//! The rules of nominal unification, each for one equation of closures.
#![tactic(auto)]

pub mod forms;
pub mod moves;
pub mod pairs;
