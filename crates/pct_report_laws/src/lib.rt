//! The law of reports: the reader of reports accepts what a report of a script's events is, and finds its event lines.
#![tactic(auto)]

mod law;

pub use law::reports_are_read;
