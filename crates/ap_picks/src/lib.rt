//! Ground terms that are picked for types.
//!
//! [`Picker::pick`] gives a type one of its terms, in which each name is new. A data type's term is an
//! application of the constructor that is chosen for it; [`choices_of`] chooses them, in rounds.
#![tactic(auto)]

mod choices;
pub mod laws;
mod opening;
mod picking;

pub use choices::{Choice, choices_of};
pub use picking::{Picker, picker_of};
