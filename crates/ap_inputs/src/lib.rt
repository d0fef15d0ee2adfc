//! What is typed at a prompt: where a query ends, which lines are commands and what they ask for, and the items of
//! a text that are shown or left out.
#![tactic(auto)]

pub mod items;
pub mod lines;
pub mod orders;
pub mod questions;
