//! What is shown of an answer, with its parts lent, and the lines of a report.
#![tactic(auto)]

pub mod answers;
mod beginnings;
pub mod bindings;
mod conditions;
mod leaves;
pub mod locals;
pub mod occurrences;
pub mod place;
pub mod printing;
mod report;
pub mod shown;
pub mod speller;
pub mod text;
pub mod var_sets;
pub mod words;
