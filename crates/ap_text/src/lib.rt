//! From a text to its program, or to its first fault: its tokens, its items, their types, their names.
#![tactic(auto)]

mod error;
mod items;
pub mod laws;
mod outlook;
mod text;

pub use error::TextError;
pub use text::program_of_text;
