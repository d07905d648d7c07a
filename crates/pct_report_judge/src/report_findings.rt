//! What is found in a report.

ghost use Rattle.std.specs.Prelude.{◌<◌, ◌≤◌, ◌^◌, All, IfOk, IsErr, length};
ghost use Rattle.pct_expect.specs.Events.{IsWithin};
ghost use Rattle.pct_event_judge.specs.Findings.{AreFindings};
ghost use Rattle.pct_model.specs.declared.limits.TheConstants.{MAX_INPUT};
ghost use Rattle.pct_report_judge.specs.ReportFindings.{AreReportFindings, lines_in};

use pct_event_judge::{Findings, judge_events};
use pct_event_reader::{EventReport, read_events};
use pct_io::NoMemory;
use pct_report_reader::{ReportFault, ReportWhy, Spans};
use std::alloc::Global;

/// What is found in a report.
#[derive(Drop)]
pub enum ReportFindings {
    /// For each law the first event that it does not allow; and the event lines of the report.
    Judged { found: Findings, lines: Spans },
    /// The report is refused: the line of its first fault, counted from 1, and the reason.
    Refused { line: u32, why: ReportWhy },
}

/// Judges the events of a report by each law that is about events alone. The text of the report has at most 16,777,216 bytes.
///
/// `read_events` reads the report, and `judge_events` judges its events, with the limits in the report's schedule. Nothing else of the
/// schedule is compared with the events, nor is the verdict; so the answer does not depend on who wrote the report.
///
/// `NoMemory` means that memory ran out. It comes only with a text that is not empty.
pub fn judge_report(alloc: Global, text: &[u8]) -> Result<ReportFindings, NoMemory>
    requires { length text.now ≤ MAX_INPUT }
    ensures findings { IfOk result (AreReportFindings text.now) }
    ensures within { IfOk result (λ found. All (IsWithin text.now) (lines_in found)) }
    ensures memory { IsErr result → 0 < length text.now }
{
    match read_events(alloc, text) {
        Ok(report) => {
            let found = findings_of(alloc, &report)?;
            Ok(ReportFindings::Judged {
                found,
                lines: report.lines,
            })
        }
        Err(ReportFault::Refused { line, why }) => Ok(ReportFindings::Refused { line, why }),
        Err(ReportFault::NoMemory) => Err(NoMemory),
    }
}

// What is found of the events that were read of a report.
fn findings_of(alloc: Global, report: &EventReport) -> Result<Findings, NoMemory>
    requires slots { 0 < report.now.config.slots }
    requires few { length report.now.events < 2 ^ 32 }
    ensures { IfOk result (AreFindings report.now.config.passes report.now.config.slots report.now.events) }
{
    judge_events(
        alloc,
        report.config.passes,
        report.config.slots,
        report.events.as_slice(),
    )
}
