//! Reading a report with its events.

ghost use Rattle.std.specs.Prelude.{◌≡◌, ◌<◌, ◌≤◌, ◌^◌, All, Err, IfOk, IsOk, Some, length, map, true};
ghost use Rattle.pct_expect.specs.Events.{IsWithin, part_at};
ghost use Rattle.pct_model.specs.declared.limits.TheConstants.{MAX_INPUT};
ghost use Rattle.pct_model.specs.Lines.{lines_of, strip_cr, words_of};
ghost use Rattle.pct_model.specs.Run.{is_config};
ghost use Rattle.pct_report_reader.specs.declared.fault.ReportFault.TheVariants.{NoMemory as OutOfMemory};
ghost use Rattle.pct_report_reader.specs.Gives.{Gives};
ghost use Rattle.pct_report_reader.specs.Reading.{body_in, is_event};
ghost use Rattle.pct_event_reader.specs.EventReports.{HasIds, event_report_in, events_of_words};

use crate::event::read_event;
use crate::numbers::EventNumbers;
use pct_expect::Span;
use pct_io::NoMemory;
use pct_model::{Config, Event, Sequence};
use pct_report_reader::{ReportFault, Spans, read_report};
use std::alloc::Global;

/// Events, in the order in which they happened. A contract sees the list.
pub type Events = Sequence<Event>;

/// What is read of a report whose events are judged.
#[derive(Drop)]
pub struct EventReport {
    /// The configuration of the run.
    pub config: Config,
    /// The events.
    pub events: Events,
    /// The event lines, one for each event.
    pub lines: Spans,
}

/// What is read of a report, the text of which has at most 16,777,216 bytes: the configuration of the run, the events, and the event lines.
///
/// `read_report` says which texts are read, and when each error comes. A name of a function, mutex, condition variable, semaphore or once
/// control is given by its number: how many other names of its kind come before its first place in the report as a name of that kind.
/// The time is linear in the size of the text, apart from the search for names in balanced trees.
pub fn read_events(alloc: Global, text: &[u8]) -> Result<EventReport, ReportFault>
    requires { length text.now ≤ MAX_INPUT }
    ensures read { Gives (λ report. (report.config, (Some report.events, report.lines))) result (event_report_in text.now) }
    ensures config { IfOk result (λ report. is_config report.config ≡ true) }
    ensures ids { IfOk result (λ report. All HasIds report.events) }
    ensures few { IfOk result (λ report. length report.events < 2 ^ 32) }
    ensures within { IfOk result (λ report. All (IsWithin text.now) report.lines) }
    ensures memory { result ≡ Err OutOfMemory → IsOk (body_in (map strip_cr (lines_of text.now))) }
{
    let report = read_report(alloc, text)?;
    let events = events_of_lines(alloc, text, report.lines.as_slice())?;
    Ok(EventReport {
        config: report.config,
        events: Sequence::of(events),
        lines: report.lines,
    })
}

// The events of the lines of a text.
fn events_of_lines(alloc: Global, text: &[u8], lines: &[Span]) -> Result<Vec<Event>, NoMemory>
    requires within { All (IsWithin text.now) lines.now }
    requires events { All (λ span. is_event (part_at text.now span) ≡ true) lines.now }
    requires few { length lines.now ≤ MAX_INPUT }
    ensures events { IfOk result (λ events. events_of_words (map (λ span. words_of (part_at text.now span)) lines.now) ≡ Some events.items) }
    ensures ids { IfOk result (λ events. All HasIds events.items) }
    ensures few { IfOk result (λ events. length events.items < 2 ^ 32) }
{
    let mut names = EventNumbers::new(alloc);
    let mut events = Vec::new(alloc);
    for span in lines {
        let line = &text[span.start as usize..span.end as usize];
        events.push(read_event(line, &mut names)?)?;
    }
    Ok(events)
}
