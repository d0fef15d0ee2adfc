//! The parser: the symbols of a text's next item, and the item that they read as, or its fault.
//!
//! `specs/GoalGrammar.antt` and `specs/ItemGrammar.antt` are the grammars of goals and items,
//! `specs/Nesting.antt` says how deep an item is, and `specs/Reading.antt` what tokens read as.
#![tactic(auto)]

mod faults;
mod flat;
mod front;
mod goals;
mod items;
mod joining;
mod marks;
mod matching;
mod nesting;
mod reading;

pub use faults::SynError;
pub use front::{Front, item_of_front, next_front};
pub use reading::{fault, form_item};
