//! The derivation of an answer, made again from the path of its branch.
//!
//! A branch keeps its path and no derivation. `derivations::derive` follows the path once more from
//! the root: `selecting` takes the goals in the order in which they are selected and keeps a node
//! of each, which is the derivation in preorder; `closing` enters what the variables stand for in the
//! end in a table, each of them once; `assembling` then makes the derivation of the nodes, from the
//! last to the first. Neither the path nor the depth of the derivation lies on the machine's call
//! stack.
//!
//! `counting` counts how often derivations use each clause.
#![tactic(auto)]

pub mod assembling;
mod closing;
pub mod counting;
pub mod derivations;
pub mod laws;
pub mod nodes;
pub mod selecting;
