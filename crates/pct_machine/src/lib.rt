//! The state of a run, and its steps.
#![tactic(auto)]

mod candidates;
mod machine;
mod processes;
mod scheduler;

pub use machine::Machine;
