//! The report on a bundle: whether each derivation in it checks.
//!
//! [`check_bytes`] reads a bundle, takes the program of its text, and asks the checker for the verdict on each
//! derivation. It shares no code with the search that makes them.

mod check;
pub mod laws;

pub use check::check_bytes;
