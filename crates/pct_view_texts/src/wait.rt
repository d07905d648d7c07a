//! What a thread waits for.

ghost use Rattle.std.specs.Prelude.{[], ◌∷◌, ◌++◌, codes};
ghost use Rattle.pct_io.specs.Fields.{field_text as word_text};
ghost use Rattle.pct_view_texts.specs.Choices.{status_and_wait, status_of_waiting, wait_phrases, waits_for};
ghost use Rattle.pct_view_texts.specs.Fields.{before_comma, field_text, phrase_text};
ghost use Rattle.pct_view_texts.specs.Positions.{is_timed_at};
ghost use Rattle.pct_view_texts.specs.TextBuffers.{Appends};

use crate::TextBuffer;
use crate::position::is_timed_at;
use crate::status::push_status;
use pct_event_texts::names::{cond, mutex, once, sem};
use pct_io::{Field, NoMemory};
use pct_model::{Script, Status};
use pct_views::{ThreadView, Wait};

/// Appends the status of a thread, and what it waits for, if it waits.
#[tactic(auto, unfolding(crate::specs::Choices::status_and_wait))]
pub(crate) fn push_status_and_wait(
    text: &mut TextBuffer,
    script: &Script,
    thread: &ThreadView,
) -> Result<(), NoMemory>
    ensures { Appends text.old text.new (field_text (status_and_wait script.now thread.now.pid (is_timed_at script.now thread.now.start.position) thread.now.start.status thread.now.wait)) result }
{
    let status = thread.start.status;
    let timed = is_timed_at(script, thread.start.position);
    let Some(wait) = thread.wait else {
        return push_status(text, script, timed, status);
    };
    push_status_of_waiting(text, script, timed, status)?;
    push_wait(text, script, thread.pid, wait)
}

// Appends the status of a thread that waits, before a comma, or nothing if the thread is running. `timed`: its next statement is a wait with a
// time.
fn push_status_of_waiting(
    text: &mut TextBuffer,
    script: &Script,
    timed: bool,
    status: Status,
) -> Result<(), NoMemory>
    ensures { Appends text.old text.new (before_comma (status_of_waiting script.now timed status)) result }
{
    match status {
        Status::Running => Ok(()),
        _ => {
            push_status(text, script, timed, status)?;
            text.push(b", ")
        }
    }
}

// Appends what a thread of a process with this id waits for.
#[tactic(auto, unfolding(crate::specs::Fields::field_text, crate::specs::Choices::wait_phrases, pct_model::specs::Report::thread_text))]
fn push_wait(text: &mut TextBuffer, script: &Script, pid: u32, wait: Wait) -> Result<(), NoMemory>
    ensures { Appends text.old text.new (field_text (wait_phrases script.now pid wait)) result }
{
    match wait {
        Wait::Mutex { mutex: m, owner } => push_mutex_wait(
            text,
            mutex(script, m),
            Field::Dotted(pid, owner),
        ),
        Wait::Once { once: o, caller } => push_once_wait(
            text,
            once(script, o),
            Field::Dotted(pid, caller),
        ),
        Wait::Thread(id) => push_wait_for(text, b"thread", Field::Dotted(pid, id)),
        Wait::Process(child) => push_wait_for(text, b"process", Field::Number(child)),
        Wait::Semaphore(index) => push_wait_for(text, b"semaphore", sem(script, index)),
        Wait::Condition(index) => push_condition_wait(text, cond(script, index)),
        Wait::Signal => text.push_words(&[Field::Text(b"waits for"), Field::Text(b"a signal")]),
    }
}

// Appends that a thread waits for something of this kind.
fn push_wait_for<'a>(text: &mut TextBuffer, kind: &'a [u8], name: Field<'a>) -> Result<(), NoMemory>
    ensures { Appends text.old text.new (phrase_text (waits_for (kind.now ∷ word_text name.entry ∷ []))) result }
{
    text.push_words(&[Field::Text(b"waits for"), Field::Text(kind), name])
}

// Appends that a thread waits for a condition variable.
fn push_condition_wait(text: &mut TextBuffer, name: Field) -> Result<(), NoMemory>
    ensures { Appends text.old text.new (phrase_text (waits_for (codes "condition" ∷ codes "variable" ∷ word_text name.entry ∷ []))) result }
{
    text.push_words(&[
        Field::Text(b"waits for"),
        Field::Text(b"condition"),
        Field::Text(b"variable"),
        name,
    ])
}

// Appends that a thread waits for a once control, and who called its init routine.
fn push_once_wait(text: &mut TextBuffer, name: Field, caller: Field) -> Result<(), NoMemory>
    ensures { Appends text.old text.new (phrase_text (waits_for (codes "once" ∷ codes "control" ∷ word_text name.entry ∷ [])) ++ codes ", " ++ phrase_text (codes "called" ∷ codes "by" ∷ word_text caller.entry ∷ [])) result }
{
    push_wait_for(text, b"once control", name)?;
    text.push(b", ")?;
    text.push_words(&[Field::Text(b"called by"), caller])
}

// Appends that a thread waits for a mutex, and who holds it.
fn push_mutex_wait(text: &mut TextBuffer, name: Field, owner: Field) -> Result<(), NoMemory>
    ensures { Appends text.old text.new (phrase_text (waits_for (codes "mutex" ∷ word_text name.entry ∷ [])) ++ codes ", " ++ phrase_text (codes "held" ∷ codes "by" ∷ word_text owner.entry ∷ [])) result }
{
    push_wait_for(text, b"mutex", name)?;
    text.push(b", ")?;
    text.push_words(&[Field::Text(b"held by"), owner])
}
