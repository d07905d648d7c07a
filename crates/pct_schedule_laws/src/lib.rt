//! The laws of schedules: the schedule of a report is read back from the report's text, and a script and a schedule have
//! an input of `replay`. The reader of schedules is that of `pct_schedule_reader`, the writer that of `pct_schedule`.
#![tactic(auto)]

mod law;

pub use law::{replay_inputs_exist, reports_are_read_back};
