//! The text of what is found in a report.

ghost use Rattle.std.specs.Prelude.{◌≡◌, All, flat_map};
ghost use Rattle.pct_expect.specs.Events.{IsWithin};
ghost use Rattle.pct_io.specs.Writes.{Writes};
ghost use Rattle.pct_model.specs.Keywords.{line_text};
ghost use Rattle.pct_report_judge.specs.FindingsTexts.{event_line, finding, findings_text, law_line, law_text};

use pct_event_judge::{EventLaw, Findings};
use pct_expect::Span;
use pct_io::{Failed, Field, Sink, write_line};

/// A report: its text and its event lines.
#[derive(Clone, Copy)]
pub struct Report<'a> {
    pub text: &'a [u8],
    pub lines: &'a [Span],
}

// The laws, in the order of the lines.
const LAWS: [EventLaw; 11] = [
    EventLaw::Once,
    EventLaw::RanAll,
    EventLaw::AfterEnd,
    EventLaw::Process,
    EventLaw::Slot,
    EventLaw::Join,
    EventLaw::Cond,
    EventLaw::CallOnce,
    EventLaw::Requests,
    EventLaw::Keys,
    EventLaw::Leftover,
];

/// Writes what is found of the events of a report: a line for each law, `LAW kept`, or `LAW event K TEXT`, where K is the number of the first
/// event that the law does not allow, counted from 1, and TEXT is its line.
///
/// `Failed` means that the sink recorded one error, and that a prefix of the text was written. The call allocates no memory.
pub fn write_findings<K: Sink>(report: Report, found: &Findings, sink: &mut K) -> Result<(), Failed>
    requires { All (IsWithin report.text.now) report.lines.now }
    ensures { Writes K.written K.errors K.inners sink.old sink.new (findings_text report.entry.text.now report.entry.lines.now found.now) result }
{
    write_laws(report, &LAWS, found, sink)
}

// Writes what is found of each of some laws.
fn write_laws<K: Sink>(
    report: Report,
    laws: &[EventLaw],
    found: &Findings,
    sink: &mut K,
) -> Result<(), Failed>
    requires { All (IsWithin report.text.now) report.lines.now }
    ensures { Writes K.written K.errors K.inners sink.old sink.new (flat_map (law_line report.entry.text.now report.entry.lines.now found.now) laws.now) result }
{
    for law in laws {
        write_finding(report, *law, found.of(*law), sink)?;
    }
    Ok(())
}

// Writes what is found of a law.
fn write_finding<K: Sink>(
    report: Report,
    law: EventLaw,
    found: Option<u32>,
    sink: &mut K,
) -> Result<(), Failed>
    requires { All (IsWithin report.text.now) report.lines.now }
    ensures { Writes K.written K.errors K.inners sink.old sink.new (line_text (finding report.entry.text.now report.entry.lines.now (law_text law) found)) result }
{
    let name = Field::Text(text_of_law(law));
    match found {
        None => write_line(sink, &[name, Field::Text(b"kept")]),
        Some(number) => write_line(
            sink,
            &[
                name,
                Field::Text(b"event"),
                Field::Number(number),
                Field::Text(event_line(report, number)),
            ],
        ),
    }
}

// The line of an event.
fn event_line<'a>(report: Report<'a>, number: u32) -> &'a [u8]
    requires { All (IsWithin report.text.now) report.lines.now }
    ensures { result.now ≡ event_line report.entry.text.now report.entry.lines.now number }
{
    match report.lines.get((number as usize).saturating_sub(1)) {
        Some(span) => &report.text[span.start as usize..span.end as usize],
        None => &[],
    }
}

// The word for a law.
#[tactic(auto, unfolding(crate::specs::FindingsTexts::law_text))]
fn text_of_law(law: EventLaw) -> &'static [u8]
    ensures { result.now ≡ law_text law }
{
    match law {
        EventLaw::Once => b"once",
        EventLaw::RanAll => b"ran_all",
        EventLaw::AfterEnd => b"after_end",
        EventLaw::Process => b"process",
        EventLaw::Slot => b"slot",
        EventLaw::Join => b"join",
        EventLaw::Cond => b"cond",
        EventLaw::CallOnce => b"call_once",
        EventLaw::Requests => b"requests",
        EventLaw::Keys => b"keys",
        EventLaw::Leftover => b"leftover",
    }
}
