//! An interactive session: a text is loaded, and queries are asked of it one after the other.
//!
//! [`step`] takes a line of what is typed. What it answers for a query is the report of the loaded text with that
//! query alone, by the same call as a run of that text. [`load`] puts a text in place of what is loaded, where it
//! has no fault.
#![tactic(auto)]

mod adding;
mod answers;
mod asking;
mod loading;
mod obeying;
mod replies;
mod reports;
mod saying;
mod session;
mod stepping;
mod telling;

pub use answers::Answer;
pub use loading::{Loading, Outcome, load};
pub use replies::{Reply, Step};
pub use session::{Session, Settings};
pub use stepping::step;
pub use telling::Told;
