//! The stated instance of an answer, and queries that are made of a property.
#![tactic(auto)]

mod asking;
mod constructors;
pub mod names;
mod parts;
pub mod picks;
mod putting;
mod stating;

pub use asking::{Asked, ask};
pub use constructors::copy_constructors;
pub use parts::{copy_query, hypothesis_of, is_property};
pub use putting::put_in_of;
pub use stating::{Stated, stated_of};
