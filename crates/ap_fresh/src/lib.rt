//! Freshness of names for terms whose variables are bound, as the least set of conditions.
#![tactic(auto)]

pub mod error;
mod pending;
pub mod reduction;
mod sought;
