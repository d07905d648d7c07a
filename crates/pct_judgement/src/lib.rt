//! The answer of `expect`: which rules of a text hold of the events in a report, and the text of that answer.
#![tactic(auto)]

mod answer_text;
mod judgement;

pub use answer_text::{write_judgement, write_report_refusal};
pub use judgement::{Judgement, failed_count, judge_input};
