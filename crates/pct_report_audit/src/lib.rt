//! The answer of `audit`: whether the events in a report keep five laws of threads, whoever wrote it, and the text of that answer.
#![tactic(auto)]

mod audit_text;
mod report_audit;

pub use audit_text::write_audit;
pub use report_audit::{ReportAudit, audit_report};
