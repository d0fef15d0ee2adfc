//! Nominal unification, after Urban, Pitts and Gabbay.
#![tactic(auto)]

mod binders;
mod finish;
pub mod fresh;
mod fronts;
mod heads;
mod moved;
mod moved_runs;
mod parts;
mod reducing;
mod runs;
mod settled;
mod sides;
mod solved;
pub mod terms;
pub mod unify;
mod ways;
