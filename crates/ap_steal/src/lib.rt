//! Workers that steal search a tree of paths.
//!
//! Each worker has a hand, a deque of its own and thieves of the others' deques (Blumofe and
//! Leiserson, Scheduling Multithreaded Computations by Work Stealing, 1999). What it does to a path
//! it enters in one shared book, whose history is the search's result: legal, by the plans of the
//! tree, with nothing open. So its outputs in path order are those of the tree, however many
//! workers there are.
#![tactic(auto)]

mod jobs;
mod reach;
mod run;
mod searching;
mod step;
mod work;

pub use jobs::Job;
pub use searching::{search, search_within};
