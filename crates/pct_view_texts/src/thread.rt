//! The line of a thread.

ghost use Rattle.std.specs.Prelude.{[], ◌∷◌, ◌++◌, map};
ghost use Rattle.pct_model.specs.Report.{thread_text};
ghost use Rattle.pct_view_laws.specs.Listed.{ListedThread};
ghost use Rattle.pct_views.specs.ShownThreads.{ShowsThread};
ghost use Rattle.pct_view_texts.specs.Choices.{cancelability, handler_phrase, mode_word, state_word, status_and_wait, thread_fields};
ghost use Rattle.pct_view_texts.specs.Fields.{field_text, fields_text};
ghost use Rattle.pct_view_texts.specs.Positions.{is_timed_at, position_phrases, statement_phrases};
ghost use Rattle.pct_view_texts.specs.TextBuffers.{Appends};

use crate::handlers::push_handlers;
use crate::position::{push_position, push_statement};
use crate::wait::push_status_and_wait;
use crate::{Source, TextBuffer};
use pct_cancel::Cancel;
use pct_event_texts::names::word;
use pct_io::NoMemory;
use pct_model::{Keyword, Mode, Script, State};
use pct_views::ThreadView;

/// Appends the line of a thread.
pub fn push_thread(
    text: &mut TextBuffer,
    source: Source,
    thread: &ThreadView,
) -> Result<(), NoMemory>
    ensures { (l : ListedThread) → ShowsThread l thread.now → Appends text.old text.new (fields_text (thread_fields source.entry.lines.now source.entry.script.now l)) result }
{
    push_place(text, source, thread)?;
    push_state(text, source.script, thread)
}

// Appends the id of a thread, its position and the statement there, each before a tab.
#[tactic(auto, unfolding(pct_model::specs::Report::thread_text))]
fn push_place(text: &mut TextBuffer, source: Source, thread: &ThreadView) -> Result<(), NoMemory>
    ensures { Appends text.old text.new (thread_text thread.now.pid thread.now.tid ++ 9 ∷ field_text (position_phrases source.entry.lines.now source.entry.script.now thread.now.start.position) ++ 9 ∷ field_text (statement_phrases source.entry.script.now thread.now.start.position)) result }
{
    text.push_dotted(thread.pid, thread.tid)?;
    text.push(b"\t")?;
    push_position(text, source, thread.start.position)?;
    text.push(b"\t")?;
    push_statement(text, source.script, thread.start.position)
}

// Appends the status of a thread and what it waits for, its cancelability and its handlers, each after a tab, and the end of
// the line.
fn push_state(text: &mut TextBuffer, script: &Script, thread: &ThreadView) -> Result<(), NoMemory>
    ensures { Appends text.old text.new (9 ∷ field_text (status_and_wait script.now thread.now.pid (is_timed_at script.now thread.now.start.position) thread.now.start.status thread.now.wait) ++ 9 ∷ field_text (cancelability thread.now.cancel.state thread.now.cancel.mode thread.now.cancel.pending) ++ 9 ∷ field_text (map (handler_phrase script.now) thread.now.handlers.now) ++ 10 ∷ []) result }
{
    text.push(b"\t")?;
    push_status_and_wait(text, script, thread)?;
    text.push(b"\t")?;
    push_cancelability(text, thread.cancel)?;
    text.push(b"\t")?;
    push_handlers(text, script, thread.handlers)?;
    text.push(b"\n")
}

// Appends the cancelability of a thread.
#[tactic(auto, unfolding(crate::specs::Fields::field_text))]
fn push_cancelability(text: &mut TextBuffer, cancel: Cancel) -> Result<(), NoMemory>
    ensures { Appends text.old text.new (field_text (cancelability cancel.state cancel.mode cancel.pending)) result }
{
    push_state_and_mode(text, cancel.state, cancel.mode)?;
    if cancel.pending {
        text.push(b", request pending")
    } else {
        text.push(b", no request")
    }
}

// Appends a cancelability state and type.
fn push_state_and_mode(text: &mut TextBuffer, state: State, mode: Mode) -> Result<(), NoMemory>
    ensures { Appends text.old text.new (state_word state ++ 32 ∷ mode_word mode) result }
{
    let state = match state {
        State::Enable => Keyword::Enable,
        State::Disable => Keyword::Disable,
    };
    let mode = match mode {
        Mode::Deferred => Keyword::Deferred,
        Mode::Asynchronous => Keyword::Asynchronous,
    };
    text.push_words(&[word(state), word(mode)])
}
