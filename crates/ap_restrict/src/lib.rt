//! The name restriction: whether a typed program keeps it, and the first fault where it doesn't.
#![tactic(auto)]

mod carrying;
pub mod errors;
mod heads;
mod items;
mod owned;
mod owned_goals;
mod places;
mod programs;
pub mod restrict;
mod tables;
