//! The numbers of one run.

use pct_model::Verdict;

/// What is counted of the run of a script under a seed.
#[derive(Clone, Copy, Debug, PartialEq, Eq)]
pub struct SeedRun {
    pub seed: u64,
    pub verdict: Verdict,
    /// The number of its entries.
    pub steps: u32,
    /// The number of its events `joined`.
    pub joined: u32,
    /// The number of those events with the value of a canceled thread.
    pub canceled: u32,
}
