//! The cleanup handlers of a thread.

ghost use Rattle.std.specs.Prelude.{◌≡◌, ◌++◌, map, codes, IfOk};
ghost use Rattle.std.specs.List.{flat_map};
ghost use Rattle.pct_view_texts.specs.Choices.{handler_phrase};
ghost use Rattle.pct_view_texts.specs.Fields.{field_text, phrase_text};
ghost use Rattle.pct_view_texts.specs.TextBuffers.{Appends};

use crate::TextBuffer;
use pct_cleanup::Handlers;
use pct_event_texts::names::func;
use pct_io::{Field, NoMemory};
use pct_model::Script;

/// Appends the handlers of a thread, newest first, or `-` if there are none.
#[tactic(auto, unfolding(crate::specs::Fields::field_text))]
pub(crate) fn push_handlers(
    text: &mut TextBuffer,
    script: &Script,
    handlers: &Handlers,
) -> Result<(), NoMemory>
    ensures { Appends text.old text.new (field_text (map (handler_phrase script.now) handlers.now)) result }
{
    let mut left = copy(handlers)?;
    match left.pop() {
        None => text.push(b"-"),
        Some(newest) => {
            push_handler(text, script, newest)?;
            push_older_handlers(text, script, left)
        }
    }
}

// A copy of the handlers.
fn copy(handlers: &Handlers) -> Result<Handlers, NoMemory>
    ensures { IfOk result (λ copy. copy ≡ handlers.now) }
{
    Ok(handlers.clone()?)
}

// Appends each handler after a comma.
fn push_older_handlers(
    text: &mut TextBuffer,
    script: &Script,
    handlers: Handlers,
) -> Result<(), NoMemory>
    ensures { Appends text.old text.new (flat_map (λ handler. codes ", " ++ phrase_text (handler_phrase script.now handler)) handlers) result }
{
    let mut left = handlers;
    while let Some(handler) = left.pop() {
        text.push(b", ")?;
        push_handler(text, script, handler)?;
    }
    Ok(())
}

// Appends the function of a handler, and its argument.
fn push_handler(text: &mut TextBuffer, script: &Script, handler: (u32, u32)) -> Result<(), NoMemory>
    ensures { Appends text.old text.new (phrase_text (handler_phrase script.now handler)) result }
{
    text.push_words(&[func(script, handler.0), Field::Number(handler.1)])
}
