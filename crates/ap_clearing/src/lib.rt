//! The swappings that take the names of an answer out of the way of terms.
#![tactic(auto)]

pub mod clearing;
