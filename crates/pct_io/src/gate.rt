//! A hook that is meant to be called before each turn of a worker.

/// A hook that is meant to be called before each turn of a worker. It can delay the worker, print or count. It returns
/// nothing, and no contract depends on it.
pub trait Gate: Sync {
    /// Is called with the worker's number and the number of its turn, counted from 1.
    fn at(&self, worker: u32, turn: u32);
}

/// A gate that does nothing.
#[derive(Clone, Copy, Debug)]
pub struct NoGate;

impl Gate for NoGate {
    fn at(&self, _worker: u32, _turn: u32) {}
}
