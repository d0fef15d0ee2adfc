//! A checker of derivations, which shares no code with the search that makes them, beside the plain
//! types and how terms are put together (`ap_defs`).
//!
//! A derivation is as deep as whoever made it wants: its nodes stand on a stack of their own, as do the parts
//! of a term that is judged (`ap_judge`), or whose names and variables are listed.
#![tactic(auto)]

mod answers;
mod fits;
mod free;
mod new_names;
mod nodes;
pub mod refusals;
pub mod rules;
pub mod verify;
mod visits;
mod walk;
