//! What the workers of a search do, event by event: a list of events is permitted where [`play`] gives the state
//! behind it.
#![tactic(auto)]

mod kids;
mod laws;
mod playing;
mod states;
mod steps;
mod workers;

pub use laws::{are_in_order, are_permitted, stays_whole};
pub use playing::play;
pub use states::Core;
