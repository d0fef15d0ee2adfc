//! Bundles, read from bytes.
#![tactic(auto)]

mod answers;
mod cited_answers;
mod cited_nodes;
mod derivations;
mod error;
mod line_forms;
mod nodes;
mod numbers;
mod place;
mod read;
mod room;
mod table;
mod terms;
mod types;
mod words;

pub use error::BundleError;
pub use read::{read_bundle, read_cited_bundle};
