//! Bundles as bytes.
#![tactic(auto)]

mod derivations;
mod forms;
mod lines;
mod table;
mod write;

pub use write::{write_bundle, write_version};
