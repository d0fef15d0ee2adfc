//! What the words of an item stand for: declared types, constructors and predicates, and the identifiers
//! of a clause or query, numbered by first occurrence.
//!
//! `specs/Declarations.antt` says what the items so far declare, `specs/Types.antt` which type a tree
//! of a type stands for, `specs/Identifiers.antt` and `specs/Resolution.antt` which identifier each
//! occurrence of a word is, `specs/Flaws.antt` which faults an item's words show before it is typed,
//! and `specs/Words.antt` which words a text has.
#![tactic(auto)]

pub mod declarations;
pub mod flaws;
pub mod goal_flaws;
pub mod goals;
pub mod identifiers;
pub mod item_flaws;
mod marks;
pub mod numbers;
pub mod owned;
mod singles;
pub mod terms;
pub mod text_words;
pub mod types;
pub mod words;
