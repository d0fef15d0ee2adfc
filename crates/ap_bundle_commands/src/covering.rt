//! The report on a bundle: which output of its query's search covers each ground proof.
//!
//! [`cover_bytes`] reads a bundle, takes the program of its text, and checks each derivation; where each is a
//! ground proof and no higher than a depth, it searches the queries to that depth and writes which answer, or
//! which stuck branch, covers each proof. So a reader learns which answer speaks for a judgement that was derived
//! elsewhere.

mod cover;

pub use cover::cover_bytes;
