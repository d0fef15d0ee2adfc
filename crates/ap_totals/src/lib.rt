//! Totals of queries: how many answers, cuts and stuck branches they have, and how many bytes their reports.
#![tactic(auto)]

pub mod totals;
