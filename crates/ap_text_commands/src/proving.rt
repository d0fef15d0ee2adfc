//! The answers of a text's queries with their derivations, as a bundle.
//!
//! [`prove_program`] finds the answers, so many workers between them, and makes the derivation of each
//! from the path at which it was found; [`prove_text`] is the report of the command on a text. What is
//! written does not depend on how many workers there are.

mod text;

pub use text::prove_text;
