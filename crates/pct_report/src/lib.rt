//! The report of a run, written to a sink: its events, its verdict and its schedule. Other texts take from it the line of a
//! verdict.
#![tactic(auto)]

mod report;

pub use report::{write_report, write_verdict_line};
