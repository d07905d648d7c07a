//! What the law of processes reads of threads.

/// What is known of the thread of an event, and of the thread that the event joins, if it is a join.
#[derive(Clone, Copy)]
pub struct ThreadFacts {
    /// Whether the thread is known.
    pub known: bool,
    /// Whether it has ended.
    pub ended: bool,
    /// Whether it exits its process.
    pub exiting: bool,
    /// Whether the thread that the event joins is known. Means nothing at other events.
    pub joined_known: bool,
}
