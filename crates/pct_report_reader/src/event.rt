//! The lines of a report down to its verdict.

ghost use Rattle.std.specs.Prelude.{◌≡◌};
ghost use Rattle.pct_model.specs.Lines.{split_once};
ghost use Rattle.pct_report_reader.specs.Reading.{are_positive, begins_schedule, begins_verdict, format_of_title, is_event, is_thread, is_verdict};

use crate::text::{events, is_among, verdicts};
use crate::word::{first_word, is_positive};
use pct_model::{Format, Keyword};
use pct_text::split_once;

/// The format of a report with this first line.
pub(crate) fn format_of_title(line: &[u8]) -> Option<Format>
    ensures { result ≡ format_of_title line.now }
{
    if line == b"report 1".as_slice() {
        Some(Format::One)
    } else if line == b"report 2".as_slice() {
        Some(Format::Two)
    } else {
        None
    }
}

// Whether a word is `PID.TID`.
#[tactic(auto, unfolding(crate::specs::Reading::is_thread))]
fn is_thread(word: &[u8]) -> bool
    ensures { result ≡ is_thread word.now }
{
    match split_once(word, b'.') {
        Some((pid, tid)) => is_positive(pid) && is_positive(tid),
        None => false,
    }
}

/// Whether a line is an event: `PID.TID` and the text of the event.
#[tactic(auto, unfolding(crate::specs::Reading::is_event))]
pub(crate) fn is_event(line: &[u8]) -> bool
    ensures { result ≡ is_event line.now }
{
    let (thread, words) = first_word(line);
    is_thread(thread) && is_among(events(), words)
}

/// Whether a line is a verdict: `verdict` and the text of the verdict.
#[tactic(auto, unfolding(crate::specs::Reading::is_verdict))]
pub(crate) fn is_verdict(line: &[u8]) -> bool
    ensures { result ≡ is_verdict line.now }
{
    let (title, words) = first_word(line);
    Keyword::Verdict.text() == title && is_among(verdicts(), words)
}

/// Whether a line begins with `verdict` and a space.
#[tactic(auto, unfolding(pct_model::specs::Keywords::keyword_text))]
pub(crate) fn begins_verdict(line: &[u8]) -> bool
    ensures { result ≡ begins_verdict line.now }
{
    line.starts_with(b"verdict ")
}

/// Whether a line begins with `schedule`, the number of the format, and a space.
pub(crate) fn begins_schedule(format: Format, line: &[u8]) -> bool
    ensures { result ≡ begins_schedule format line.now }
{
    match format {
        Format::One => line.starts_with(b"schedule 1 "),
        Format::Two => line.starts_with(b"schedule 2 "),
    }
}
