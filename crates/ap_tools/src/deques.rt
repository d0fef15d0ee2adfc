//! Deques of paths for workers that steal: what was popped, stolen and left is what was pushed.
//!
//! A deque has one owner, who pushes and pops at its back, and thieves, who take from its front
//! (Blumofe and Leiserson, Scheduling Multithreaded Computations by Work Stealing, 1999; Chase and
//! Lev, Dynamic Circular Work-Stealing Deque, 2005). Each path is known by its type to be in the
//! tree that is searched. Where a steal overlaps other calls it may find nothing; the clauses say
//! when.

mod closing;
mod hand;
mod owner;
mod placed;
mod rule;
mod thief;

pub use closing::{Left, tasks};
pub use hand::Hand;
pub use owner::{Kept, Owner};
pub use placed::{Placed, Shape};
pub use rule::{Cut, Fair, Looks, Pops, Puts, Robs, Unite};
pub use thief::{Stolen, Thief};
