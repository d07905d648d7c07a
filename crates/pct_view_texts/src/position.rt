//! The position of a thread, and the statement there.

ghost use Rattle.std.specs.Prelude.{◌≡◌};
ghost use Rattle.pct_view_texts.specs.Fields.{field_text};
ghost use Rattle.pct_view_texts.specs.Positions.{is_timed_at, position_phrases, position_text, statement_phrases};
ghost use Rattle.pct_view_texts.specs.TextBuffers.{Appends};

use crate::{Source, TextBuffer};
use pct_event_texts::names::func;
use pct_io::{Failed, NoMemory};
use pct_model::Script;
use pct_printer::write_statement_words;
use pct_views::Position;

/// Appends the position of a thread, or `-` if it has no frames.
#[tactic(auto, unfolding(crate::specs::Fields::field_text))]
pub(crate) fn push_position(
    text: &mut TextBuffer,
    source: Source,
    position: Option<Position>,
) -> Result<(), NoMemory>
    ensures { Appends text.old text.new (field_text (position_phrases source.entry.lines.now source.entry.script.now position)) result }
{
    match position {
        None => text.push(b"-"),
        Some(position) => push_place(text, source, position),
    }
}

// Appends `FUNC:LINE`.
fn push_place(text: &mut TextBuffer, source: Source, position: Position) -> Result<(), NoMemory>
    ensures { Appends text.old text.new (position_text source.entry.lines.now source.entry.script.now position) result }
{
    text.push_field(&func(source.script, position.func))?;
    text.push(b":")?;
    text.push_number(source.lines.line(position.func, position.pc).unwrap_or(0))
}

/// Appends the statement at the position of a thread, or `-` if there is none.
#[tactic(auto, unfolding(crate::specs::Fields::field_text, pct_view_laws::specs::TracedSteps::statement_on))]
pub(crate) fn push_statement(
    text: &mut TextBuffer,
    script: &Script,
    position: Option<Position>,
) -> Result<(), NoMemory>
    ensures { Appends text.old text.new (field_text (statement_phrases script.now position)) result }
{
    let Some(position) = position else {
        return text.push(b"-");
    };
    let Some(func) = script.funcs.as_slice().get(position.func as usize) else {
        return text.push(b"-");
    };
    let Some(statement) = func.body.as_slice().get(position.pc as usize) else {
        return text.push(b"-");
    };
    match write_statement_words(text, script, func.locals.as_slice(), *statement) {
        Ok(()) => Ok(()),
        Err(Failed) => Err(NoMemory),
    }
}

/// Whether the statement at the position of a thread is a wait with a time.
#[tactic(auto, unfolding(pct_view_laws::specs::TracedSteps::statement_on))]
pub(crate) fn is_timed_at(script: &Script, position: Option<Position>) -> bool
    ensures { result ≡ is_timed_at script.now position }
{
    let Some(position) = position else {
        return false;
    };
    let Some(func) = script.funcs.as_slice().get(position.func as usize) else {
        return false;
    };
    let Some(statement) = func.body.as_slice().get(position.pc as usize) else {
        return false;
    };
    statement.is_timed()
}
