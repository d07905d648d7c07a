//! Audits of the events in a report.

ghost use Rattle.std.specs.Prelude.{◌≡◌, ◌<◌, ◌≤◌, ◌^◌, IfOk, IsErr, List, ℕ, length, Ok as Gives, Some as Spelled};
ghost use Rattle.pct_event_reader.specs.EventReports.{event_report_in};
ghost use Rattle.pct_model.specs.declared.limits.TheConstants.{MAX_INPUT};
ghost use Rattle.pct_report_audit.specs.ReportAudits.{IsReportAudit};

use pct_audit::{AuditFault, audit};
use pct_event_reader::{EventReport, read_events};
use pct_io::NoMemory;
use pct_report_reader::{ReportFault, ReportWhy};
use std::alloc::Global;

/// What the audit of a report says.
#[derive(Clone, Copy)]
pub enum ReportAudit {
    /// The events keep the laws: how many events the report has.
    Passed { events: u32 },
    /// The first event at which a law fails, and the first law that fails there.
    Failed(AuditFault),
    /// The report is refused: the line of its first fault, counted from 1, and the reason.
    Refused { line: u32, why: ReportWhy },
}

/// Audits a report, the text of which has at most 16,777,216 bytes.
///
/// `read_events` reads the report, and `audit` judges its events by five laws, with the limits in the report's schedule. Nothing else of the
/// schedule is compared with the events, nor is the verdict; so the answer does not depend on who wrote the report.
///
/// `NoMemory` means that memory ran out. It comes only with a text that is not empty.
pub fn audit_report(alloc: Global, text: &[u8]) -> Result<ReportAudit, NoMemory>
    requires { length text.now ≤ MAX_INPUT }
    ensures audit { IfOk result (IsReportAudit text.now) }
    ensures memory { IsErr result → 0 < length text.now }
{
    match read_events(alloc, text) {
        Ok(report) => audit_events(alloc, &report),
        Err(ReportFault::Refused { line, why }) => Ok(ReportAudit::Refused { line, why }),
        Err(ReportFault::NoMemory) => Err(NoMemory),
    }
}

// Audits the events that were read of a report.
fn audit_events(alloc: Global, report: &EventReport) -> Result<ReportAudit, NoMemory>
    requires slots { 0 < report.now.config.slots }
    requires few { length report.now.events < 2 ^ 32 }
    ensures { (text : List ℕ) → event_report_in text ≡ Gives (report.now.config, (Spelled report.now.events, report.now.lines)) → IfOk result (IsReportAudit text) }
{
    let events = report.events.as_slice();
    match audit(alloc, report.config.passes, report.config.slots, events)? {
        None => Ok(ReportAudit::Passed {
            events: events.len() as u32,
        }),
        Some(fault) => Ok(ReportAudit::Failed(fault)),
    }
}
