//! The line of a step.

ghost use Rattle.std.specs.Prelude.{[], ◌∷◌, ◌++◌, map, decimal};
ghost use Rattle.std.specs.List.{join_with_byte};
ghost use Rattle.std.specs.Option.{option_map_or};
ghost use Rattle.pct_model.specs.EventTexts.{event_names, event_words};
ghost use Rattle.pct_model.specs.Report.{alt_words, thread_text};
ghost use Rattle.pct_view_texts.specs.Fields.{field_text, fields_text};
ghost use Rattle.pct_view_texts.specs.Positions.{statement_phrases};
ghost use Rattle.pct_view_texts.specs.TextBuffers.{Appends};
ghost use Rattle.pct_view_texts.specs.Trace.{start_phrases, step_fields};

use crate::choice::push_choice;
use crate::events::push_events;
use crate::position::push_statement;
use crate::status::push_start;
use crate::{Source, TextBuffer};
use pct_io::NoMemory;
use pct_model::{Alt, Entry, Event, Script};
use pct_views::StepStart;

/// A step of a run: its number, where it begins, its entry and its events.
#[derive(Clone, Copy)]
pub struct Step<'a> {
    pub number: usize,
    pub start: Option<StepStart>,
    pub entry: Entry,
    pub events: &'a [Event],
}

/// Appends the line of a step.
pub fn push_step(text: &mut TextBuffer, source: Source, step: &Step) -> Result<(), NoMemory>
    ensures { Appends text.old text.new (fields_text (step_fields source.entry.lines.now source.entry.script.now step.now.number (record { start = step.now.start; entry = step.now.entry; events = map (λ e. e.what) step.now.events.now }))) result }
{
    push_number_and_thread(text, step.number, &step.entry)?;
    push_place(text, source, step.start)?;
    push_outcome(text, source.script, step.entry.alt, step.events)
}

// Appends the number of a step and its thread, each before a tab.
#[tactic(auto, unfolding(pct_model::specs::Report::thread_text))]
fn push_number_and_thread(
    text: &mut TextBuffer,
    number: usize,
    entry: &Entry,
) -> Result<(), NoMemory>
    ensures { Appends text.old text.new (decimal number ++ 9 ∷ thread_text entry.now.pid entry.now.tid ++ 9 ∷ []) result }
{
    text.push_count(number)?;
    text.push(b"\t")?;
    text.push_dotted(entry.pid, entry.tid)?;
    text.push(b"\t")
}

// Appends where a step begins, and the statement there, separated by a tab.
#[tactic(auto, unfolding(crate::specs::Fields::field_text))]
fn push_place(
    text: &mut TextBuffer,
    source: Source,
    start: Option<StepStart>,
) -> Result<(), NoMemory>
    ensures { Appends text.old text.new (field_text (option_map_or (start_phrases source.entry.lines.now source.entry.script.now) start []) ++ 9 ∷ field_text (option_map_or (λ s. statement_phrases source.entry.script.now s.position) start [])) result }
{
    match start {
        None => text.push(b"-\t-"),
        Some(start) => {
            push_start(text, source, start)?;
            text.push(b"\t")?;
            push_statement(text, source.script, start.position)
        }
    }
}

// Appends a choice and events, each after a tab, and the end of the line.
fn push_outcome(
    text: &mut TextBuffer,
    script: &Script,
    choice: Alt,
    events: &[Event],
) -> Result<(), NoMemory>
    ensures { Appends text.old text.new (9 ∷ join_with_byte 32 (alt_words choice) ++ 9 ∷ field_text (map (event_words (event_names script.now)) (map (λ e. e.what) events.now)) ++ 10 ∷ []) result }
{
    text.push(b"\t")?;
    push_choice(text, choice)?;
    text.push(b"\t")?;
    push_events(text, script, events)?;
    text.push(b"\n")
}
