//! Terms, types and goals, written as they are read.
#![tactic(auto)]

mod closing;
mod context;
mod goals;
pub mod laws;
mod side;
mod terms;
mod types;
pub mod writing;
