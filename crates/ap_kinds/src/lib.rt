//! The types of one item: the kinds of its identifiers.
//!
//! An item is walked once, with the type that is wanted at each place, and its type equations are
//! solved. `specs/ItemKinds.antt` says which kinds type an item and what is found of them.
#![tactic(auto)]

mod errors;
mod goals;
mod inside;
mod kinds;
mod places;
mod read_types;
mod reading;
mod shapes;
mod sorts;
mod systems;
mod tables;
mod terms;
mod wants;

pub use errors::KindsError;
pub use kinds::{IdentKind, kinds_of_clause, kinds_of_query};
pub use sorts::{goal_with_sorts, terms_with_sorts};
