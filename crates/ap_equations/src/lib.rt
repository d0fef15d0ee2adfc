//! The equations that are left of a unification, and what a rule makes of them.
#![tactic(auto)]

pub mod plain;
pub mod work;
