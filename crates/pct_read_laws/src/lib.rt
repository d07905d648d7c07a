//! The law of the reports of runs: what is read of them, without their scripts, keeps the laws of events. The crate has no code that runs.
#![tactic(auto)]

mod law;

pub use law::reports_of_runs_are_lawful;
