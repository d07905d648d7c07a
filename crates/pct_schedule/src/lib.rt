//! The text of a schedule: its lines, what its reader returns, and the theorems on the schedule and the prefix in a text.
//! `write_schedule` writes it; `pct_schedule_reader` reads it.
#![tactic(auto)]

mod end;
mod fault;
mod law;
mod line;
mod writer;

pub use end::End;
pub use fault::ScheduleFault;
pub use law::schedules_are_prefixes;
pub use line::{begins_with, entry_in, header_of, is_end, split_go};
pub use pct_model::ScheduleWhy;
pub use writer::write_schedule;
