//! Side conditions of the rules by which a derivation is checked: `heads`, whether a clause's head equals an atom; `newness`,
//! whether a name is new for names and variables.
#![tactic(auto)]

pub mod heads;
pub mod newness;
