//! The texts of events: the words of an event, the line of an event, and the fields that are words or names.
#![tactic(auto)]

mod event_fields;
mod event_lines;
mod fields;
pub mod names;

pub use event_fields::fields_of_event;
pub use event_lines::prepend_event;
pub use fields::{Fields, write_words};
