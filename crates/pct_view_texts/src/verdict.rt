//! The verdict of a run.

ghost use Rattle.pct_model.specs.Keywords.{line_text};
ghost use Rattle.pct_model.specs.Report.{verdict_line};
ghost use Rattle.pct_view_texts.specs.TextBuffers.{Appends};

use crate::TextBuffer;
use pct_io::{Failed, NoMemory};
use pct_model::Verdict;
use pct_report::write_verdict_line;

/// Appends the line of a verdict, as in a report.
pub fn push_verdict(text: &mut TextBuffer, verdict: Verdict) -> Result<(), NoMemory>
    ensures { Appends text.old text.new (line_text (verdict_line verdict)) result }
{
    match write_verdict_line(text, verdict) {
        Ok(()) => Ok(()),
        Err(Failed) => Err(NoMemory),
    }
}
