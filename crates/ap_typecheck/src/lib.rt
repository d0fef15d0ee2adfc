//! Typing of a text: its items as a program, or its first fault.
//!
//! `specs/Checking.antt` says which program the items of a text make, and which fault is the first;
//! `specs/Declaring.antt` what each item adds.
#![tactic(auto)]

mod declaring;
mod error;
mod items;
pub mod laws;
mod locals;
mod spellings;
mod state;
mod texts;
mod typing;

pub use error::TypeError;
pub use texts::Typing;
