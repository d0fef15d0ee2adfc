//! The trees of tests: two choices at each path up to a depth, and a cut at each end.
#![tactic(auto)]
