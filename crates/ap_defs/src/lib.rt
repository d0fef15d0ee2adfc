//! The plain types of the interpreter, and the definitions that all contracts cite.
//!
//! A value of a recursive type holds addresses, so contracts never compare two of them. Each such
//! type has a twin without addresses in `specs/`, and one view: `term_of`, `ground_of`, `type_of`,
//! `goal_of`, `derivation_of`, `answer_of`, `out_of`. Every clause speaks of the view.
#![tactic(auto)]

pub mod copies;
pub mod faults;
pub mod goals;
pub mod limits;
pub mod lists;
pub mod memory;
pub mod outcomes;
pub mod paths;
pub mod spines;
pub mod terms;
pub mod walks;
