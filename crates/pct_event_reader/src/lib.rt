//! The events of a report as values, with the configuration of its run.
#![tactic(auto)]

mod event;
mod numbers;
mod reader;
mod value;

pub use reader::{EventReport, Events, read_events};
