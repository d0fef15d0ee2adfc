//! What workers do, event by event.

use ap_defs::lists::List;

/// An atomic step of one worker, by the worker's number. A skip has the number of answers that had
/// ended before its path.
#[derive(Drop)]
pub enum Event {
    Push(u32),
    Pop(u32),
    Steal(u32, u32),
    Split(u32, List<u32>),
    Done(u32),
    Skip(u32, u64),
}
