//! The schedules of runs: `read_schedule` reads one from a text, and `read_prefix` the first entries of one, `write_schedule`
//! writes one, `split_replay` finds one in an input of `replay`, `replay` runs a script under one, and `follow` under its entries
//! up to the first that is not legal.
#![tactic(auto)]

mod replay_fault;
mod replaying;

pub use pct_schedule::{ScheduleFault, ScheduleWhy, write_schedule};
pub use pct_schedule_laws::{replay_inputs_exist, reports_are_read_back};
pub use pct_schedule_reader::{Entries, read_prefix, read_schedule, split_replay};
pub use replay_fault::ReplayFault;
pub use replaying::{follow, replay};
