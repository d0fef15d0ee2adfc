//! The store of a search: what variables are bound to, the conditions that hold, and the numbers
//! that were given, with marks to go back to.
#![tactic(auto)]

pub mod bare;
mod beside;
pub mod changes;
mod following;
pub mod heads;
mod held;
mod likes;
mod lookups;
mod mentions;
mod narrow;
pub mod occurrences;
mod own;
mod passed;
pub mod slots;
pub mod store;
mod tables;
