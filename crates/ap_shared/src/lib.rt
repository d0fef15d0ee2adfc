//! Terms that share their parts, and derivations over them.
//!
//! A term is the number of a line in a table, and a line has the numbers of the term's parts. So what many
//! terms have in common stands once, however deep a derivation is that cites them.
#![tactic(auto)]

pub mod arena;
pub mod derivations;
pub mod entering;
pub mod expanding;
pub mod lines;
pub mod nodes;
pub mod places;
pub mod sharing;
mod sizes;
