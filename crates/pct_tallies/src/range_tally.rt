//! The tally of a range of seeds, with what was run.

use crate::seeds::Seeds;
use crate::tally::Tally;

/// The numbers that a run is limited by.
#[derive(Clone, Copy, Debug, PartialEq, Eq)]
pub struct Limits {
    /// The most steps.
    pub budget: u32,
    /// The most passes over the destructors of a thread.
    pub passes: u32,
    /// The thread slots of a process.
    pub slots: u32,
}

/// What is run under each seed of a tally.
#[derive(Clone, Copy, Debug, PartialEq, Eq)]
pub struct Subject {
    /// The script: the 64 lower-case hexadecimal digits of the SHA-256 of its canonical text.
    pub digest: [u8; 64],
    pub limits: Limits,
}

/// What is counted of the runs under the seeds of a range.
#[derive(Drop)]
pub struct RangeTally {
    pub seeds: Seeds,
    pub subject: Subject,
    pub tally: Tally,
}

/// The tally of a range in a text, and the number of its first line, counted from 1.
#[derive(Drop)]
pub struct PlacedTally {
    pub line: u32,
    pub range: RangeTally,
}
