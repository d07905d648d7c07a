//! Reading a report: the configuration of its run, and the places of its event lines.
#![tactic(auto)]

mod event;
mod fault;
mod reader;
mod text;
mod word;

pub use fault::{ReportFault, ReportWhy};
pub use pct_expect::Span;
pub use reader::{ReportText, Spans, read_report};
pub use text::{Row, WordKind, events, has_form};
pub use word::{caller_of, first_word, stop_of};
