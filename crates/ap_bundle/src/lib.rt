//! Bundles: a text with derivations of answers to its queries, as bytes.
//!
//! `specs/Written.antt` says what is written, and `specs/Reading.antt` what bytes stand
//! for, or where they are faulty.
#![tactic(auto)]

pub mod faults;
pub mod version;
pub mod words;
