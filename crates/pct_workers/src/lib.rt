//! The work of workers: each takes its turns on a shared host, on a thread of its own if threads can be made; and a whole run by workers.
#![tactic(auto)]

mod run;
mod workers;

pub use run::{Runtime, run_shared};
pub use workers::{run_workers, work};
