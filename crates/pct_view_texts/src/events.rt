//! The events of a step.

ghost use Rattle.std.specs.Prelude.{◌++◌, map, codes};
ghost use Rattle.std.specs.List.{flat_map};
ghost use Rattle.pct_model.specs.EventTexts.{event_names, event_words};
ghost use Rattle.pct_event_texts.specs.EventFields.{words_of};
ghost use Rattle.pct_view_texts.specs.Fields.{field_text, phrase_text};
ghost use Rattle.pct_view_texts.specs.TextBuffers.{Appends};

use crate::TextBuffer;
use pct_event_texts::{Fields, fields_of_event};
use pct_io::{Field, NoMemory};
use pct_model::{Event, Script, What};

/// Appends events, or `-` if there are none.
#[tactic(auto, unfolding(crate::specs::Fields::field_text))]
pub(crate) fn push_events(
    text: &mut TextBuffer,
    script: &Script,
    events: &[Event],
) -> Result<(), NoMemory>
    ensures { Appends text.old text.new (field_text (map (event_words (event_names script.now)) (map (λ e. e.what) events.now))) result }
{
    match events.split_first() {
        None => text.push(b"-"),
        Some((first, rest)) => {
            push_event(text, script, first.what)?;
            push_other_events(text, script, rest)
        }
    }
}

// Appends each event after a comma.
fn push_other_events(
    text: &mut TextBuffer,
    script: &Script,
    events: &[Event],
) -> Result<(), NoMemory>
    ensures { Appends text.old text.new (flat_map (λ e. codes ", " ++ phrase_text (event_words (event_names script.now) e.what)) events.now) result }
{
    for event in events {
        text.push(b", ")?;
        push_event(text, script, event.what)?;
    }
    Ok(())
}

// Appends an event.
fn push_event(text: &mut TextBuffer, script: &Script, what: What) -> Result<(), NoMemory>
    ensures { Appends text.old text.new (phrase_text (event_words (event_names script.now) what)) result }
{
    push_fields(text, fields_of_event(script, what))
}

// Appends the words of an event.
fn push_fields(text: &mut TextBuffer, fields: Fields) -> Result<(), NoMemory>
    ensures { Appends text.old text.new (phrase_text (words_of fields.entry)) result }
{
    match fields {
        Fields::One(word, a) => text.push_words(&[Field::Text(word.text()), a]),
        Fields::Two(word, a, b) => text.push_words(&[Field::Text(word.text()), a, b]),
        Fields::Three(word, a, b, c) => text.push_words(&[Field::Text(word.text()), a, b, c]),
        Fields::Four(word, a, b, c, d) => {
            text.push_words(&[Field::Text(word.text()), a, b, c, d])
        }
    }
}
