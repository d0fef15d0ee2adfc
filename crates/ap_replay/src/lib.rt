//! The search of a problem as a tree of paths: the branch at a path is found by making its choices
//! anew from the root, so that paths are all that workers hand to one another. `solver` gives the outputs
//! of a query, by one worker or by several.
#![tactic(auto)]

pub mod error;
pub mod problem_tree;
pub mod replay;
pub mod solver;
