//! Reading the text of a schedule: `read_schedule` reads it, which may be part of a whole report, `read_prefix` reads it without
//! its last line, too, and `split_replay` finds it in an input of `replay`.
#![tactic(auto)]

mod reader;
mod splitter;

pub use reader::{Entries, read_prefix, read_schedule};
pub use splitter::split_replay;
