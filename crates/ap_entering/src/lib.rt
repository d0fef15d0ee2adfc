//! What a worker enters in the shared book of a path that it visits, and whether its search is over.
#![tactic(auto)]

pub mod entering;
pub mod looking;
