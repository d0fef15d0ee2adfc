//! How often each clause of a text is used in the derivations of all answers of its queries.
//!
//! [`count_text`] is the report of the command on a text. A clause without a use is dead at that depth, which
//! authors of rules look for. Many workers find the answers and count the uses; what is written does not
//! depend on how many there are.

mod counts;
pub mod laws;
mod lines;
mod order;
mod text;

pub use text::count_text;
