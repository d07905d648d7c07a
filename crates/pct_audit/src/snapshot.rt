//! What the laws of handlers read of a thread.

use pct_model::Reason;

/// What the events so far report of a thread: its newest handler, how many are pushed, and how many of those that were pushed as it
/// began to end are left.
#[derive(Clone, Copy)]
pub struct Snapshot {
    pub newest: Option<(u32, u32)>,
    pub pushed: usize,
    pub left: usize,
    pub reason: Reason,
    pub ended: Option<u32>,
    pub passes: u32,
}
