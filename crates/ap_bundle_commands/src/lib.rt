//! The reports of commands on a bundle.
//!
//! `checking`: whether each of its derivations checks. `converting`: the bundle in the other version. `covering`:
//! which output of its query's search covers each ground proof.
#![tactic(auto)]

pub mod checking;
pub mod converting;
mod covering;

pub use checking::check_bytes;
pub use converting::convert_bytes;
pub use covering::cover_bytes;
