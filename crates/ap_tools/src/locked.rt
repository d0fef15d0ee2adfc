//! A book that workers share, behind a ticket lock.
//!
//! Each call draws a ticket, waits until it is served, and then has the book to itself (Mellor-Crummey
//! and Scott, Algorithms for Scalable Synchronization on Shared-Memory Multiprocessors, 1991). Before it
//! draws one it waits a while for a free book, since a thread that is kept from running while it has a
//! ticket holds up the others. So all entries stand in one history. Contracts see of each seat its
//! number and the history as it last saw it; a call says what the book answers at a history that begins
//! with that, and has no further entry of the seat.

mod closing;
mod logs;
mod plays;
mod seat;
mod shared;
mod view;

pub use seat::Seat;
pub use shared::{Raw, SharedBook};
pub use view::{Own, Stage, View};
