//! How names and variables are spelled: as identifiers that stand for them, each in its own way.
//!
//! They come one after another, each with the word of an identifier, and get that word, where it wasn't given
//! before, and else the word with a number behind it.
#![tactic(auto)]

pub mod spelt;
