//! Properties: a hypothesis and a conclusion, and the stated instances of the hypothesis's answers.
#![tactic(auto)]

pub mod laws;
pub mod verdict;
