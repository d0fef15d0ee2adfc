//! Sequential nominal resolution of the queries of a program, to a depth, after Cheney and Urban,
//! "Nominal Logic Programming".
//!
//! `ap_machine::machine::Machine` is where a search stands, and `ap_turns::turns::take_turn` takes its
//! first goal. `run` goes on, depth first, over a stack of choice points: neither goals nor choices nor
//! the depth lie on the thread's own stack. `problem` asks a query of a restricted program.
#![tactic(auto)]

pub mod branch;
pub mod choices;
pub mod counted;
pub mod descent;
pub mod ends;
mod letting_go;
pub mod points;
pub mod problem;
pub mod run;
pub mod standing;
pub mod step;
mod wanted;
mod ways;
