//! Turns of a search: what the first goal that waits makes of a machine (`turns`, where it does not
//! choose), the clauses that an atom enters, and where a branch stands.
#![tactic(auto)]

pub mod clauses;
pub mod ends;
pub mod heads;
mod kept;
pub mod standing;
pub mod turns;
