//! What is kept of a thread.

/// The cleanup handlers that a thread ran. Handlers are given by the number of a stack of them.
#[derive(Clone, Copy)]
pub enum RanHandlers {
    /// The thread has not begun to end. The handlers that it ran, the newest on top: this stack is one of the monitor.
    BeforeEnd { ran: usize },
    /// The thread has begun to end. What is left of the handlers that were open then, if those that ran are the newest of them, in
    /// order: this stack is one of the judge.
    Ending { left: Option<usize> },
}
