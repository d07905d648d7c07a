//! What the events of runs name: items of the script, cancellation points of the table, and processes and threads by ids from 1; and that
//! their numbers have 32 bits. So the text of an event determines it. The crate has no code that runs.
#![tactic(auto)]

mod law;

pub use law::{numbers_of_runs_fit, runs_name_items, scripts_have_names};
