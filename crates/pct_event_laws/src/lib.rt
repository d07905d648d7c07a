//! The laws of runs that are about events alone, and that they hold of the same events with their functions, mutexes, condition variables,
//! semaphores and once controls numbered otherwise: of those that are read of a report, whose text has names and not indexes. The crate has
//! no code that runs.
#![tactic(auto)]

mod law;

pub use law::{laws_are_of_events, renaming_changes_no_law};
