//! The law that the report of every run passes its audit. The crate has no code that runs.
#![tactic(auto)]

mod law;

pub use law::reports_of_runs_pass;
