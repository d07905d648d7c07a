//! The law of the forms of events: a line is the text of an event exactly if it is read as an event.
#![tactic(auto)]

mod law;

pub use law::events_are_read_by_forms;
