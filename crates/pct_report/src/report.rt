//! The report of a run.

ghost use Rattle.std.specs.Prelude.{◌≤◌, [], ◌∷◌, ◌++◌, length, decimal};
ghost use Rattle.std.specs.List.{flat_map};
ghost use Rattle.pct_io.specs.Prepends.{Prepends};
ghost use Rattle.pct_io.specs.Writes.{Writes};
ghost use Rattle.pct_model.specs.declared.keyword.Keyword.TheVariants as keyword;
ghost use Rattle.pct_model.specs.Keywords.{keyword_text, line_text, text_of};
ghost use Rattle.pct_model.specs.Report.{event_line, verdict_line, report_lines, report_of, schedule_lines, title_line};
ghost use Rattle.pct_model.specs.Run.{Run};
ghost use Rattle.pct_engine.specs.EngineStates.{IsRunOf};

use pct_engine::Engine;
use pct_event_texts::{fields_of_event, prepend_event, write_words};
use pct_io::{BufferedSink, Failed, Field, Sink, write_all, write_line};
use pct_model::{Config, Entry, Event, Keyword, Script, Verdict};
use pct_schedule::write_schedule;

/// Writes the report of an engine's run: a title, the events in order, the verdict, and the schedule. The run may be
/// continued, and then its verdict is `Open`.
///
/// `Failed` means that the sink recorded one error, and that a prefix of the report was written. The call allocates no
/// memory.
pub fn write_report<K: Sink>(engine: &Engine, sink: &mut K) -> Result<(), Failed>
    ensures report { (after : Run) → IsRunOf engine.now after → Writes K.written K.errors K.inners sink.old sink.new (report_of engine.now.script engine.now.config engine.now.history after) result }
    // The run of the entries is defined, for every engine.
    ensures runs { (after : Run) × IsRunOf engine.now after }
{
    write_run_report(
        engine.script(),
        engine.config(),
        engine.events(),
        engine.verdict(),
        engine.history(),
        sink,
    )
}

// Writes the report of a run: a title, the events in order, the verdict, and the schedule. Bytes are collected before
// they are written to the sink.
fn write_run_report<K: Sink>(
    script: &Script,
    config: Config,
    events: &[Event],
    verdict: Verdict,
    entries: &[Entry],
    sink: &mut K,
) -> Result<(), Failed>
    ensures { Writes K.written K.errors K.inners sink.old sink.new (text_of (report_lines script.now config events.now verdict entries.now)) result }
{
    let mut out = BufferedSink::new(sink);
    write_parts(&mut out, script, config, events, verdict, entries)?;
    out.flush()
}

fn write_parts<K: Sink>(
    sink: &mut K,
    script: &Script,
    config: Config,
    events: &[Event],
    verdict: Verdict,
    entries: &[Entry],
) -> Result<(), Failed>
    ensures { Writes K.written K.errors K.inners sink.old sink.new (text_of (report_lines script.now config events.now verdict entries.now)) result }
{
    write_run(sink, script, config, events)?;
    write_end(sink, config, verdict, entries)
}

// The title and the events.
fn write_run<K: Sink>(
    sink: &mut K,
    script: &Script,
    config: Config,
    events: &[Event],
) -> Result<(), Failed>
    ensures { Writes K.written K.errors K.inners sink.old sink.new (line_text (title_line config) ++ flat_map (λ e. line_text (event_line script.now e)) events.now) result }
{
    write_title(sink, config)?;
    write_events(sink, script, events)
}

#[tactic(auto, unfolding(pct_model::specs::Report::title_line))]
fn write_title<K: Sink>(sink: &mut K, config: Config) -> Result<(), Failed>
    ensures { Writes K.written K.errors K.inners sink.old sink.new (line_text (title_line config)) result }
{
    write_line(
        sink,
        &[
            Field::Text(Keyword::Report.text()),
            Field::Number(config.format.number()),
        ],
    )
}

// The size in bytes of the buffer in which lines are gathered, and how many lines at most are gathered in it.
const CAPACITY: usize = 4096;

const MOST_LINES: usize = 64;

fn write_events<K: Sink>(sink: &mut K, script: &Script, events: &[Event]) -> Result<(), Failed>
    ensures { Writes K.written K.errors K.inners sink.old sink.new (flat_map (λ e. line_text (event_line script.now e)) events.now) result }
{
    let mut buffer = [0; CAPACITY];
    let mut rest = events;
    while !rest.is_empty() {
        let (few, after) = rest.split_at(rest.len().min(MOST_LINES));
        write_together(sink, script, few, &mut buffer)?;
        rest = after;
    }
    Ok(())
}

// Gathers the lines of the events and writes them at once. Lines that do not fit together are written one by one.
fn write_together<K: Sink>(
    sink: &mut K,
    script: &Script,
    events: &[Event],
    buffer: &mut [u8],
) -> Result<(), Failed>
    ensures { Writes K.written K.errors K.inners sink.old sink.new (flat_map (λ e. line_text (event_line script.now e)) events.now) result }
{
    match prepend_events(script, events, buffer, buffer.len()) {
        Some(start) => write_all(sink, &buffer[start..]),
        None => write_each(sink, script, events),
    }
}

// Writes the lines of the events, as `prepend_line` writes one.
fn prepend_events(script: &Script, events: &[Event], buffer: &mut [u8], end: usize) -> Option<usize>
    requires { end ≤ length buffer.old }
    ensures { Prepends buffer.old buffer.new end (flat_map (λ e. line_text (event_line script.now e)) events.now) result }
{
    let mut start = end;
    for position in (0..events.len()).rev() {
        start = prepend_event(script, &events[position], buffer, start)?;
    }
    Some(start)
}

// Writes the lines of the events one by one.
#[cold]
fn write_each<K: Sink>(sink: &mut K, script: &Script, events: &[Event]) -> Result<(), Failed>
    ensures { Writes K.written K.errors K.inners sink.old sink.new (flat_map (λ e. line_text (event_line script.now e)) events.now) result }
{
    for event in events {
        write_event(sink, script, *event)?;
    }
    Ok(())
}

// The verdict and the schedule.
fn write_end<K: Sink>(
    sink: &mut K,
    config: Config,
    verdict: Verdict,
    entries: &[Entry],
) -> Result<(), Failed>
    ensures { Writes K.written K.errors K.inners sink.old sink.new (line_text (verdict_line verdict) ++ text_of (schedule_lines config entries.now)) result }
{
    write_verdict_line(sink, verdict)?;
    write_schedule(config, entries, sink)
}

/// Writes the line of a verdict. `Failed` means that the sink recorded one error, and that a prefix of the line was
/// written. The call allocates no memory.
#[tactic(auto, unfolding(pct_model::specs::Report::verdict_line, pct_model::specs::Report::verdict_words, pct_model::specs::StopTexts::stop_words))]
pub fn write_verdict_line<K: Sink>(sink: &mut K, verdict: Verdict) -> Result<(), Failed>
    ensures { Writes K.written K.errors K.inners sink.old sink.new (line_text (verdict_line verdict)) result }
{
    let title = Field::Text(Keyword::Verdict.text());
    match verdict {
        Verdict::Complete => write_line(sink, &[title, Field::Text(Keyword::Complete.text())]),
        Verdict::Deadlock => write_line(sink, &[title, Field::Text(Keyword::Deadlock.text())]),
        Verdict::Budget => write_line(sink, &[title, Field::Text(Keyword::Budget.text())]),
        Verdict::Open => write_line(sink, &[title, Field::Text(Keyword::Open.text())]),
        Verdict::Undefined(why) => write_line(
            sink,
            &[
                title,
                Field::Text(why.class().text()),
                Field::Text(why.name().text()),
            ],
        ),
    }
}

// The line of one event.
#[tactic(auto, unfolding(pct_model::specs::Report::event_line, pct_model::specs::Report::thread_text))]
fn write_event<K: Sink>(sink: &mut K, script: &Script, event: Event) -> Result<(), Failed>
    ensures { Writes K.written K.errors K.inners sink.old sink.new (line_text (event_line script.now event)) result }
{
    let thread = Field::Dotted(event.pid, event.tid);
    write_words(sink, thread, fields_of_event(script, event.what))
}
