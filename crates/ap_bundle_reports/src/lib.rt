//! The reports on the derivations of a bundle, for the program of its text.
//!
//! `verdicts`: the first that is refused, or how many there are. `covers`: what covers each ground proof. `written`: the bundle
//! in a version. `lines`: the reports of one line.
#![tactic(auto)]

pub mod covers;
pub mod lines;
pub mod verdicts;
pub mod written;
