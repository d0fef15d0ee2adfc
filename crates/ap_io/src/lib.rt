//! Where bytes come from and go to, and the gate that workers pass.
//!
//! The interpreter reads from a [`Source`] and writes to a [`Sink`]. Each counts its failures, and a
//! call may answer [`Failed`] only where its count rose in that call. So a caller can tell a true
//! failure from a body that merely gives up.
//!
//! | Object | Is |
//! |---|---|
//! | [`MemSource`], [`MemSink`] | in memory; they fail at the calls that they are told |
//! | [`SteadySource`], [`SteadySink`] | in memory; they never fail |
//! | [`StdSource`], [`StdSink`] | any reader and writer of std |
#![tactic(auto)]

mod counts;
mod front;
mod gate;
mod memory;
mod standard;
mod steady;
mod traits;

pub use gate::{Gate, NoGate};
pub use memory::{MemSink, MemSource};
pub use standard::{StdSink, StdSource};
pub use steady::{SteadySink, SteadySource};
pub use traits::{Failed, Sink, Source};
