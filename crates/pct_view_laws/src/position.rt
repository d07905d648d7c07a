//! Where a thread is.

use pct_model::Status;

/// The statement that a frame executes next: the index of its function, and the program counter.
#[derive(Clone, Copy)]
pub struct Position {
    pub func: u32,
    pub pc: u32,
}

/// Where a step of a thread begins.
#[derive(Clone, Copy)]
pub struct StepStart {
    /// The status of the thread.
    pub status: Status,
    /// The position of its top frame, if it has frames.
    pub position: Option<Position>,
}
