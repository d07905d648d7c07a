//! Expectations: rules over the events of a run. `read_expect` reads them from a text, and `judge` says which of them hold.
#![tactic(auto)]

mod fault;
mod judging;
mod law;
mod matching;
mod parsing;
mod reader;
mod rule;
mod span;
mod spelled_lines;
mod threads;
mod verdict;

pub use fault::{ExpectFault, ExpectWhy};
pub use judging::judge;
pub use law::answers_are_one;
pub use reader::read_expect;
pub use rule::{Expects, Pattern, Rule, RuleKind, Word};
pub use span::Span;
pub use verdict::{Judged, Verdicts};
