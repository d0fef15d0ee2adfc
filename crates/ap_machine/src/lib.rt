//! Where a search stands: a `machine::Machine` has its goal stack, with the path, the bindings, the
//! conditions and the numbers so far, and can go back to where it was. `answers` makes the answer of a
//! state in which no goal waits.
#![tactic(auto)]

mod along;
pub mod answer_copies;
pub mod answers;
pub mod asked;
pub mod brought;
mod chains;
pub mod closing;
pub mod frames;
pub mod free_vars;
pub mod goal_stack;
pub mod looks;
pub mod machine;
mod moving;
pub mod renaming;
pub mod saves;
pub mod unbound;
pub mod vars;
