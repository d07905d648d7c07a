//! Reading a report: first the lines down to the verdict are checked, then the schedule, and then the places of the events are stored.

ghost use Rattle.std.specs.Prelude.{◌≡◌, ◌+◌, ◌<◌, ◌≤◌, ◌^◌, All, Err, IfOk, IsOk, length, map, true};
ghost use Rattle.pct_expect.specs.Events.{IsWithin, events_in};
ghost use Rattle.pct_model.specs.declared.limits.TheConstants.{MAX_INPUT};
ghost use Rattle.pct_model.specs.LineParsing.{words_in};
ghost use Rattle.pct_model.specs.Lines.{lines_of, strip_cr};
ghost use Rattle.pct_model.specs.Run.{is_config};
ghost use Rattle.pct_report_reader.specs.declared.fault.ReportFault.TheVariants.{NoMemory};
ghost use Rattle.pct_report_reader.specs.Body.{as_body};
ghost use Rattle.pct_report_reader.specs.Gives.{Gives, GivesAlways};
ghost use Rattle.pct_report_reader.specs.Reading.{body_from, body_in, event_lines, report_in, schedule_after, schedule_follows, span_of};

use crate::event::{begins_schedule, begins_verdict, format_of_title, is_event, is_verdict};
use crate::fault::{ReportFault, ReportWhy};
use pct_expect::Span;
use pct_model::{Config, Format, Sequence};
use pct_schedule::ScheduleFault;
use pct_schedule_reader::read_schedule;
use pct_text::{first_line, strip_cr};
use std::alloc::{AllocError, Global};

/// The places of lines in a text, in order, each without its line end. A contract sees the list.
pub type Spans = Sequence<Span>;

/// What is read of a report.
#[derive(Debug, Drop)]
pub struct ReportText {
    /// The configuration of the run.
    pub config: Config,
    /// The event lines.
    pub lines: Spans,
}

// The lines of a report down to its verdict: the report's format, the number of the verdict's line, and the text after it.
#[derive(Clone, Copy)]
struct Body<'a> {
    format: Format,
    number: u32,
    after: &'a [u8],
}

/// What is read of a report, the text of which has at most 16,777,216 bytes: the configuration of the run, and the event lines.
///
/// A line ends with an LF or at the end of the text; a CR before the end is dropped. The first line is `report 1` or `report 2`. Each line
/// after it is an event, up to the first line that begins with `verdict` and a space, which is a verdict. The lines after that are a
/// schedule that `read_schedule` accepts, whose header is the first of them and has the report's format.
///
/// An event is `PID.TID` and a text that a report, of either format, may have of an event; the words are separated by one space. Numbers are
/// decimal without leading zeros and at most 4294967295; PID, TID, the id in `create` and the process id in `fork` are not 0. Names have 1 to
/// 31 letters, digits or `_` and do not begin with a digit.
///
/// `Refused` names the first line that is not as said, counted from 1. Where there is no verdict, or where the schedule has no last line, it
/// is the line after the last one. `NoMemory` comes only with a text whose lines down to the verdict are not refused.
pub fn read_report(alloc: Global, text: &[u8]) -> Result<ReportText, ReportFault>
    requires { length text.now ≤ MAX_INPUT }
    ensures read { Gives (λ report. (report.config, report.lines)) result (report_in text.now) }
    ensures config { IfOk result (λ report. is_config report.config ≡ true) }
    ensures within { IfOk result (λ report. All (IsWithin text.now) report.lines) }
    ensures few { IfOk result (λ report. length report.lines < 2 ^ 32) }
    ensures events { IfOk result (λ report. events_in text.now report.lines
        ≡ map (λ line. words_in line.1) (event_lines text.now)) }
    ensures memory { result ≡ Err NoMemory → IsOk (body_in (map strip_cr (lines_of text.now))) }
{
    let body = body_in(text)?;
    let config = schedule_after(alloc, body)?;
    let lines = event_spans(alloc, text)?;
    Ok(ReportText {
        config,
        lines: Sequence::of(lines),
    })
}

// The lines of a report down to its verdict.
fn body_in(text: &[u8]) -> Result<Body<'_>, ReportFault>
    requires { length text.now ≤ MAX_INPUT }
    ensures read { GivesAlways as_body result (body_in (map strip_cr (lines_of text.now))) }
    ensures bound { IfOk result (λ body. body.number + length body.after.now ≤ MAX_INPUT) }
{
    let header = ReportFault::Refused {
        line: 1,
        why: ReportWhy::BadHeader,
    };
    let Some((title, after)) = first_line(text) else {
        return Err(header);
    };
    match format_of_title(strip_cr(title)) {
        Some(format) => body_from(format, after),
        None => Err(header),
    }
}

// The lines of a report after its title, down to its verdict.
fn body_from(format: Format, text: &[u8]) -> Result<Body<'_>, ReportFault>
    requires { length text.now < MAX_INPUT }
    ensures read { GivesAlways as_body result (body_from format 2 (map strip_cr (lines_of text.now))) }
    ensures bound { IfOk result (λ body. body.number + length body.after.now ≤ MAX_INPUT) }
{
    let mut number = 2;
    let mut rest = text;
    while let Some((raw, after)) = first_line(rest) {
        let line = strip_cr(raw);
        if begins_verdict(line) {
            return if is_verdict(line) {
                Ok(Body {
                    format,
                    number,
                    after,
                })
            } else {
                Err(ReportFault::Refused {
                    line: number,
                    why: ReportWhy::BadVerdict,
                })
            };
        }
        if !is_event(line) {
            return Err(ReportFault::Refused {
                line: number,
                why: ReportWhy::BadEvent,
            });
        }
        number += 1;
        rest = after;
    }
    Err(ReportFault::Refused {
        line: number,
        why: ReportWhy::BadVerdict,
    })
}

// The configuration of the schedule after the verdict.
fn schedule_after(alloc: Global, body: Body) -> Result<Config, ReportFault>
    requires { body.number + length body.after.now ≤ MAX_INPUT }
    ensures read { Gives (λ config. config) result
        (schedule_after body.entry.format body.entry.number (map strip_cr (lines_of body.entry.after.now))) }
    ensures config { IfOk result (λ config. is_config config ≡ true) }
{
    if !schedule_follows(body.format, body.after) {
        return Err(ReportFault::Refused {
            line: body.number + 1,
            why: ReportWhy::BadSchedule,
        });
    }
    match read_schedule(alloc, body.after) {
        Ok((config, _)) => Ok(config),
        Err(ScheduleFault::Refused { line, .. }) => Err(ReportFault::Refused {
            line: body.number + line,
            why: ReportWhy::BadSchedule,
        }),
        Err(ScheduleFault::NoMemory) => Err(ReportFault::NoMemory),
    }
}

// Whether a text begins as a schedule of this format.
fn schedule_follows(format: Format, text: &[u8]) -> bool
    ensures { result ≡ schedule_follows format (map strip_cr (lines_of text.now)) }
{
    match first_line(text) {
        Some((line, _)) => begins_schedule(format, strip_cr(line)),
        None => false,
    }
}

// The places of the event lines of a report.
fn event_spans(alloc: Global, text: &[u8]) -> Result<Vec<Span>, AllocError>
    requires { length text.now ≤ MAX_INPUT }
    ensures { IfOk result (λ spans. spans.items ≡ map span_of (event_lines text.now)) }
{
    let mut spans = Vec::new(alloc);
    let Some((_, after)) = first_line(text) else {
        return Ok(spans);
    };
    let mut rest = after;
    while let Some((raw, after)) = first_line(rest) {
        let line = strip_cr(raw);
        if begins_verdict(line) {
            return Ok(spans);
        }
        let start = text.len() - rest.len();
        spans.push(Span {
            start: start as u32,
            end: (start + line.len()) as u32,
        })?;
        rest = after;
    }
    Ok(spans)
}
