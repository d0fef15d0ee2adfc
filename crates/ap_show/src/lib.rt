//! Bundles, shown: what a person looks at of derivations that were checked.
//!
//! [`show_bytes`] asks for the report of a check first. Where that refuses, it is what is shown; else each
//! derivation is shown, as plain text, as LaTeX or as HTML.
#![tactic(auto)]

mod show;

pub use show::show_bytes;
