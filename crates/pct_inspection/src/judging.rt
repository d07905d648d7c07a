//! What is found of the events of a report: `judge`.

ghost use Rattle.std.specs.Prelude.{◌≡◌, ◌<◌, ◌≤◌, ℕ, All, List, length, IfOk, IsErr};
ghost use Rattle.pct_expect.specs.Events.{IsWithin};
ghost use Rattle.pct_model.specs.declared.limits.TheConstants.{MAX_INPUT};
ghost use Rattle.pct_report_judge.specs.FindingsTexts.{findings_text};
ghost use Rattle.pct_report_judge.specs.ReportFindings.{AreReportFindings, lines_in};
ghost use Rattle.pct_inspection.specs.declared.words.Inspection.TheVariants as inspection;
ghost use Rattle.pct_inspection.specs.Answer.{Answered, AsksFor};

use crate::answer::Answer;
use pct_event_judge::Findings;
use pct_io::{Failed, NoMemory};
use pct_report_judge::{Report, ReportFindings, judge_report, write_findings};
use pct_view_texts::TextBuffer;
use std::alloc::Global;

/// The answer of `judge` to an input, which is the text of a report.
pub(crate) fn judge_input(alloc: Global, input: &[u8]) -> Result<Answer, NoMemory>
    requires { length input.now ≤ MAX_INPUT }
    ensures answer { (words : List (List ℕ)) → AsksFor words inspection.Judge → Answered words input.now result }
    ensures memory { IsErr result → 0 < length input.now }
{
    let findings = judge_report(alloc, input)?;
    let answer = answer_of(alloc, input, &findings);
    drop(findings);
    answer
}

// The answer that says what is found of a report.
fn answer_of(alloc: Global, input: &[u8], findings: &ReportFindings) -> Result<Answer, NoMemory>
    requires fits { length input.now ≤ MAX_INPUT }
    requires findings { AreReportFindings input.now findings.now }
    requires within { All (IsWithin input.now) (lines_in findings.now) }
    ensures answer { (words : List (List ℕ)) → AsksFor words inspection.Judge → Answered words input.now result }
    ensures memory { IsErr result → 0 < length input.now }
{
    match findings {
        ReportFindings::Judged { found, lines } => {
            let report = Report {
                text: input,
                lines: lines.as_slice(),
            };
            let text = text_of(alloc, report, found)?;
            Ok(Answer::Judged {
                text,
                kept: found.are_kept(),
            })
        }
        ReportFindings::Refused { line, why } => Ok(Answer::ReportRefused {
            line: *line,
            why: *why,
        }),
    }
}

// The text of what is found of a report.
fn text_of(alloc: Global, report: Report, found: &Findings) -> Result<Vec<u8>, NoMemory>
    requires { All (IsWithin report.text.now) report.lines.now }
    ensures { IfOk result (λ text. text.items ≡ findings_text report.entry.text.now report.entry.lines.now found.now) }
{
    let mut text = TextBuffer::new(alloc);
    match write_findings(report, found, &mut text) {
        Ok(()) => Ok(text.into_bytes()),
        Err(Failed) => Err(NoMemory),
    }
}
