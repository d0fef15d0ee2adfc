//! Items with the places of their tokens, and messages about places of a text.
//!
//! A message is a sentence, the place that it is about, and notes; it is written with the line round the place
//! and the place marked below it (`messages`, `spots`). `reader` reads the tokens of an item once more, up to the
//! first at which no item can go on, into nodes that know their tokens. What is said of a text that doesn't split
//! into tokens, or of an item that isn't in the grammar, needs no more than this: `characters`, `nesting`,
//! `grammar`.
#![tactic(auto)]

pub mod characters;
mod goal_reader;
pub mod grammar;
mod habit_table;
mod habits;
mod item_reader;
pub mod items;
pub mod messages;
pub mod nearest;
pub mod nesting;
pub mod nodes;
pub mod reader;
pub mod slips;
pub mod spots;
mod symbols;
mod term_reader;
