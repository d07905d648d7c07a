//! The laws of event lines: what a report has of the events of a script is read back, without the script.
#![tactic(auto)]

mod law;

pub use law::event_lines_are_read_back;
