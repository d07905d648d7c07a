//! What a host was opened with, and what a pass knows. These values take part in contracts alone.

use pct_engine::Engine;
use pct_model::Entry;
use std::collections::LinkedList;
use std::snapshot::Snapshot;

/// What a host was opened with: the script, the configuration and the history of its engine, and the number of its workers.
#[derive(Drop)]
pub struct Opening {
    pub engine: Snapshot<Engine>,
    pub workers: u32,
}

/// What a worker knows of the history of its host. No value of it is made.
pub struct Known {
    /// The worker's number.
    pub number: u64,
    /// The entries that it has seen: a prefix of the history.
    pub seen: LinkedList<Entry>,
    /// Those that it made, in order.
    pub mine: LinkedList<Entry>,
    /// For each entry that its pass made, in order, its place, which is the number of the entries before it, and the number of the take at
    /// which it was made.
    pub at: LinkedList<(u64, u64)>,
}

/// The view of a pass. No value of it is made.
pub struct View {
    pub opening: Opening,
    pub known: Known,
    /// How often the pass tried to take the turn.
    pub takes: u64,
    /// How often it found the turn taken.
    pub misses: u64,
    /// What it found in the turn word at its last take.
    pub found: u64,
    /// Whether it has the turn.
    pub holding: bool,
    /// The number of passes that were made, in the one pass that may split; 0 in every other.
    pub made: u64,
    /// What was known to each pass that it took in.
    pub olds: LinkedList<Known>,
}
