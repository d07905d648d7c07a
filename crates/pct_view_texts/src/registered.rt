//! What a process has registered with atexit and pthread_atfork, how far it is, and its once controls.

ghost use Rattle.std.specs.Prelude.{◌≡◌, ◌∷◌, ◌++◌, map, flat_map, zip, codes};
ghost use Rattle.pct_view_texts.specs.Fields.{after_commas, field_text, phrase_text};
ghost use Rattle.pct_view_texts.specs.States.{exit_function_phrase, exit_phrases, fork_handlers_phrase, once_phrases, registered_phrases, restricted_phrases};
ghost use Rattle.pct_view_texts.specs.TextBuffers.{Appends};

use crate::TextBuffer;
use crate::phrases::{push_phrase, push_phrases};
use crate::specific::func_or_dash;
use pct_event_texts::names::func;
use pct_io::{Field, NoMemory};
use pct_model::{ForkHandlers, Name, OnceState, Script};
use pct_process::{ExitFunctions, ProcessState};
use std::alloc::Global;

/// Appends a tab and the field of what a process with this id has registered, and of its once controls.
pub(crate) fn push_registered(
    alloc: Global,
    text: &mut TextBuffer,
    script: &Script,
    pid: u32,
    state: &ProcessState,
) -> Result<(), NoMemory>
    ensures { Appends text.old text.new (9 ∷ field_text (registered_phrases script.now pid state.now.shared)) result }
{
    let mut phrases = TextBuffer::new(alloc);
    push_each_registered(&mut phrases, script, pid, state)?;
    push_phrases(text, &phrases)
}

// Appends how far a process with this id is, what it has registered, and its once controls, each after a comma.
fn push_each_registered(
    phrases: &mut TextBuffer,
    script: &Script,
    pid: u32,
    state: &ProcessState,
) -> Result<(), NoMemory>
    ensures { Appends phrases.old phrases.new (after_commas (registered_phrases script.now pid state.now.shared)) result }
{
    push_progress(phrases, state.exit_value, state.restricted)?;
    push_exit_functions(phrases, script, &state.exit_functions)?;
    push_fork_handlers(phrases, script, state.fork_handlers.as_slice())?;
    push_onces(
        phrases,
        pid,
        script.onces.as_slice(),
        state.onces.as_slice(),
    )
}

// Appends the value with which exit began, and whether the process is restricted, each after a comma.
fn push_progress(
    phrases: &mut TextBuffer,
    exit_value: Option<u32>,
    restricted: bool,
) -> Result<(), NoMemory>
    ensures { Appends phrases.old phrases.new (after_commas (exit_phrases exit_value) ++ after_commas (restricted_phrases restricted)) result }
{
    if let Some(value) = exit_value {
        push_phrase(phrases, &[Field::Text(b"exiting"), Field::Number(value)])?;
    }
    if restricted {
        phrases.push(b", restricted")?;
    }
    Ok(())
}

// Appends each exit function after a comma, the newest first.
fn push_exit_functions(
    phrases: &mut TextBuffer,
    script: &Script,
    functions: &ExitFunctions,
) -> Result<(), NoMemory>
    ensures { Appends phrases.old phrases.new (flat_map (λ f. codes ", " ++ phrase_text (exit_function_phrase script.now f)) functions.now) result }
{
    let mut left = ExitFunctions::new();
    left.copy_from(functions);
    while let Some(function) = left.newest() {
        push_phrase(phrases, &[Field::Text(b"atexit"), func(script, function)])?;
        left.pop();
    }
    Ok(())
}

// Appends each registration of fork handlers after a comma.
fn push_fork_handlers(
    phrases: &mut TextBuffer,
    script: &Script,
    registrations: &[ForkHandlers],
) -> Result<(), NoMemory>
    ensures { Appends phrases.old phrases.new (flat_map (λ h. codes ", " ++ phrase_text (fork_handlers_phrase script.now h)) registrations.now) result }
{
    for handlers in registrations {
        push_registration(phrases, script, handlers)?;
    }
    Ok(())
}

// Appends the fork handlers of one registration after a comma.
fn push_registration(
    phrases: &mut TextBuffer,
    script: &Script,
    handlers: &ForkHandlers,
) -> Result<(), NoMemory>
    ensures { Appends phrases.old phrases.new (codes ", " ++ phrase_text (fork_handlers_phrase script.now handlers.now)) result }
{
    push_phrase(
        phrases,
        &[
            Field::Text(b"atfork"),
            func_or_dash(script, handlers.prepare),
            func_or_dash(script, handlers.parent),
            func_or_dash(script, handlers.child),
        ],
    )
}

// Appends each once control of a process with this id, with these names and states, that is busy or done, after a comma.
fn push_onces(
    phrases: &mut TextBuffer,
    pid: u32,
    names: &[Name],
    states: &[OnceState],
) -> Result<(), NoMemory>
    ensures { Appends phrases.old phrases.new (after_commas (flat_map (once_phrases pid) (zip names.now states.now))) result }
{
    for (name, state) in names.iter().zip(states) {
        push_once(phrases, pid, name.as_bytes(), *state)?;
    }
    Ok(())
}

// Appends a once control with this name and state, if it is busy or done, after a comma.
#[tactic(auto, unfolding(pct_model::specs::Report::thread_text))]
fn push_once(
    phrases: &mut TextBuffer,
    pid: u32,
    name: &[u8],
    state: OnceState,
) -> Result<(), NoMemory>
    ensures { Appends phrases.old phrases.new (after_commas (once_phrases pid (name.now, state))) result }
{
    match state {
        OnceState::Fresh => Ok(()),
        OnceState::Busy(id) => push_phrase(
            phrases,
            &[
                Field::Text(b"once"),
                Field::Text(name),
                Field::Text(b"called by"),
                Field::Dotted(pid, id),
            ],
        ),
        OnceState::Done => push_phrase(
            phrases,
            &[
                Field::Text(b"once"),
                Field::Text(name),
                Field::Text(b"done"),
            ],
        ),
    }
}
