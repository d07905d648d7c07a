//! The answer of `judge`: for each law that is about events alone, whether the events of a report keep it, whoever wrote the report, and the text
//! of that answer.
#![tactic(auto)]

mod findings_text;
mod report_findings;

pub use findings_text::{Report, write_findings};
pub use report_findings::{ReportFindings, judge_report};
