//! The theorems on how threads end, over every run. The crate has no code that runs: the engine cites its lemmas.
#![tactic(auto)]

mod law;

pub use law::runs_end_threads;
