// What a worker passes before each task.

/// A gate that each worker passes before each of its tasks. A test may hold a worker there until
/// another one has come.
pub trait Gate: Sync {
    /// The worker is about to take this task. Each worker counts its tasks from 1. The call returns
    /// when the worker may go on.
    fn enter(&self, worker: u32, task: u64);

    /// Whether it may hold a worker until another one has come. Then all workers are started, however
    /// short the work is.
    fn may_hold(&self) -> bool;
}

/// A gate that is always open.
#[derive(Clone, Copy)]
pub struct NoGate;

impl Gate for NoGate {
    /// Returns at once.
    fn enter(&self, _worker: u32, _task: u64) {}

    /// It holds none.
    fn may_hold(&self) -> bool {
        false
    }
}
