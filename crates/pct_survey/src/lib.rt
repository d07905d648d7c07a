//! Surveys: how often rules hold of the runs of one script under many seeds, and with which verdicts the runs end.
#![tactic(auto)]

mod counting;
mod holding;
mod judging;
mod law;
mod matching;
mod property;
mod survey_text;
mod surveying;
mod threads;

pub use counting::{EndingCount, EndingCounts, RuleCount, RuleCounts, Survey};
pub use judging::{JudgedRun, Subject};
pub use law::surveys_are_one;
pub use property::Property;
pub use survey_text::write_survey;
pub use surveying::{MAX_SURVEYED, survey};
