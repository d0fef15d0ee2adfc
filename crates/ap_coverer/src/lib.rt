//! Which answer covers a ground proof, and by which swappings and ground terms; or which stuck branch does.
#![tactic(auto)]

mod acting;
mod covering;
mod filling;
mod following;
mod grounding;
mod matching;

pub use covering::{Covered, cover};
