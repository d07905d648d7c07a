//! Findings: for each law that is about events alone, the first event of a report that it does not allow, whoever wrote the report.
#![tactic(auto)]

mod events;
mod findings;
mod monitors;

pub use events::judge_events;
pub use findings::{EventLaw, Findings};
