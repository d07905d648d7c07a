//! The status of a thread, and where a step begins.

ghost use Rattle.std.specs.Prelude.{◌≡◌, true, [], ◌∷◌, ◌++◌, codes};
ghost use Rattle.pct_io.specs.Fields.{field_text as word_text};
ghost use Rattle.pct_model.specs.declared.line_kind.LineKind.TheVariants as line_kind;
ghost use Rattle.pct_model.specs.EventTexts.{cond_name, mutex_name};
ghost use Rattle.pct_model.specs.LineKinds.{is_no_point};
ghost use Rattle.pct_view_texts.specs.Fields.{field_text, phrase_text};
ghost use Rattle.pct_view_texts.specs.Positions.{cause_words, cond_wait_kind, in_call, phase_words, sem_wait_kind, status_phrases};
ghost use Rattle.pct_view_texts.specs.TextBuffers.{Appends};
ghost use Rattle.pct_view_texts.specs.Trace.{start_phrases};

use crate::position::{is_timed_at, push_position};
use crate::{Source, TextBuffer};
use pct_event_texts::names::{cond, keyword_of, mutex, point, sem, word};
use pct_io::{Field, NoMemory};
use pct_model::{Cause, Keyword, LineKind, Phase, Script, Status};
use pct_views::StepStart;

/// Appends the status of a thread. `timed`: its next statement is a wait with a time.
#[tactic(auto, unfolding(crate::specs::Fields::field_text, crate::specs::Positions::status_phrases))]
pub(crate) fn push_status(
    text: &mut TextBuffer,
    script: &Script,
    timed: bool,
    status: Status,
) -> Result<(), NoMemory>
    ensures { Appends text.old text.new (field_text (status_phrases script.now timed status)) result }
{
    match status {
        Status::Running => text.push(b"running"),
        Status::AtPoint(index) => push_point(text, index),
        Status::Joining(id) => push_call(text, LineKind::Join, Field::Number(id)),
        Status::InSem(index) => push_call(text, sem_wait_kind(timed), sem(script, index)),
        Status::InWaitPid(pid) => push_call(text, LineKind::WaitPid, Field::Number(pid)),
        Status::Waiting(c, m) => push_cond_wait(text, script, timed, c, m),
        Status::Reacquire(c, m, why) => {
            push_cond_wait(text, script, timed, c, m)?;
            push_cause(text, why)
        }
        Status::Ending => text.push(Keyword::Ending.text()),
        Status::Forking(at) => push_forking(text, at.phase),
        Status::Exiting => text.push(b"exiting"),
        Status::Ended(value) => text.push_words(&[word(Keyword::Ended), Field::Number(value)]),
    }
}

// sem_wait or, with the flag, sem_timedwait.
fn sem_wait_kind(timed: bool) -> LineKind
    ensures kind { result ≡ sem_wait_kind timed }
    ensures no_point { is_no_point result ≡ true }
{
    if timed {
        LineKind::SemTimedWait
    } else {
        LineKind::SemWait
    }
}

// pthread_cond_wait or, with the flag, pthread_cond_timedwait.
fn cond_wait_kind(timed: bool) -> LineKind
    ensures kind { result ≡ cond_wait_kind timed }
    ensures no_point { is_no_point result ≡ true }
{
    if timed {
        LineKind::CondTimedWait
    } else {
        LineKind::CondWait
    }
}

// Appends the call in which a thread is at the cancellation point with this index.
fn push_point(text: &mut TextBuffer, index: u32) -> Result<(), NoMemory>
    ensures { Appends text.old text.new (phrase_text (in_call (line_kind.Point index) [])) result }
{
    text.push_words(&[Field::Text(b"in"), point(index)])
}

// Appends the call of a line's kind in which a thread is, with its argument.
fn push_call(text: &mut TextBuffer, kind: LineKind, argument: Field) -> Result<(), NoMemory>
    requires { is_no_point kind ≡ true }
    ensures { Appends text.old text.new (phrase_text (in_call kind (word_text argument.entry ∷ []))) result }
{
    text.push_words(&[Field::Text(b"in"), keyword_of(kind), argument])
}

// Appends the wait on a condition variable in which a thread is.
fn push_cond_wait(
    text: &mut TextBuffer,
    script: &Script,
    timed: bool,
    c: u32,
    m: u32,
) -> Result<(), NoMemory>
    ensures { Appends text.old text.new (phrase_text (in_call (cond_wait_kind timed) (cond_name script.now c ∷ mutex_name script.now m ∷ []))) result }
{
    text.push_words(&[
        Field::Text(b"in"),
        keyword_of(cond_wait_kind(timed)),
        cond(script, c),
        mutex(script, m),
    ])
}

// Appends a comma, and why a thread does not wait on a condition variable any more.
fn push_cause(text: &mut TextBuffer, cause: Cause) -> Result<(), NoMemory>
    ensures { Appends text.old text.new (codes ", " ++ phrase_text (cause_words cause)) result }
{
    match cause {
        Cause::Signalled => text.push(b", unblocked by a signal"),
        Cause::Broadcast => text.push(b", unblocked by a broadcast"),
        Cause::Canceled => text.push(b", acts on a request"),
        Cause::TimedOut => text.push(b", unblocked as its time expired"),
    }
}

// Appends the call of fork in which a thread is, and its phase.
fn push_forking(text: &mut TextBuffer, phase: Phase) -> Result<(), NoMemory>
    ensures { Appends text.old text.new (phrase_text (in_call line_kind.Fork []) ++ codes ", " ++ phrase_text (phase_words phase)) result }
{
    text.push_words(&[Field::Text(b"in"), keyword_of(LineKind::Fork)])?;
    text.push(b", ")?;
    match phase {
        Phase::Prepare => text.push(Keyword::Prepare.text()),
        Phase::Parent => text.push(Keyword::Parent.text()),
        Phase::Child => text.push(Keyword::Child.text()),
    }
}

/// Appends where a step begins.
pub(crate) fn push_start(
    text: &mut TextBuffer,
    source: Source,
    start: StepStart,
) -> Result<(), NoMemory>
    ensures { Appends text.old text.new (field_text (start_phrases source.entry.lines.now source.entry.script.now start)) result }
{
    match start.status {
        Status::Running => push_position(text, source, start.position),
        status => {
            let timed = is_timed_at(source.script, start.position);
            push_status(text, source.script, timed, status)
        }
    }
}
