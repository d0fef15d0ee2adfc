//! What the programs do without: permutations of names, what is shown of answers and solutions of type equations
//! as values, clauses renamed apart, and freshness and equality of ground terms. `differing` tells at which places
//! two lists of numbers differ, by vectors.
#![tactic(auto)]

pub mod differing;
mod flat;
pub mod ground;
pub mod perm;
pub mod renaming;
pub mod shown;
pub mod solutions;
mod writing;
