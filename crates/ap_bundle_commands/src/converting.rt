//! A bundle, written again in the version that is asked for.
//!
//! [`convert_bytes`] reads a bundle of either version and writes it; the text in it isn't looked into.
//! [`laws`] says what comes of that, there and back.

mod convert;
pub mod laws;

pub use convert::convert_bytes;
