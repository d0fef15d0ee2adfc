//! What workers keep and share, and the account of each path that comes to one of them.
//!
//! [`Event`]: what a worker does, as laws and promises tell of it. `deques`: deques of paths, from which others
//! steal. `locked`: a book that they share, behind a ticket lock. [`tools`]: what a worker keeps of these.
#![tactic(auto)]

mod deques;
mod events;
mod locked;
pub mod tools;

pub use deques::{
    Cut, Fair, Hand, Kept, Left, Owner, Placed, Pops, Puts, Robs, Shape, Stolen, Thief, Unite,
    tasks,
};
pub use events::Event;
pub use locked::{Own, Raw, Seat, SharedBook, Stage, View};
