//! Reading the line of an event.

ghost use Rattle.std.specs.Prelude.{◌≡◌, ◌∷◌, ◌+◌, ◌<◌, ◌≤◌, IfOk, OnOk, Some, true, find, length, map};
ghost use Rattle.std.specs.List.{list_any};
ghost use Rattle.pct_model.specs.EventTexts.{EventNames};
ghost use Rattle.pct_model.specs.Lines.{words_of};
ghost use Rattle.pct_event_reader.specs.EventReports.{HasIds};
ghost use Rattle.pct_event_reader.specs.Numberings.{IsNumberings, Numbers, name_count};
ghost use Rattle.pct_event_reader.specs.Values.{ending_with, once_with, values_of, what_with};
ghost use Rattle.pct_name_numbers.specs.EventReading.{event_of, thread_of};
ghost use Rattle.pct_report_reader.specs.Forms.{as_form, words_left};
ghost use Rattle.pct_report_reader.specs.Reading.{is_event, is_thread};
ghost use Rattle.pct_report_reader.specs.Texts.{are_words, event_forms, has_form};

use crate::numbers::EventNumbers;
use crate::value::{Value, caller, flag, number, positive, stop};
use arrayvec::ArrayVec;
use pct_io::NoMemory;
use pct_model::{Event, Keyword, What};
use pct_report_reader::{Row, WordKind, events, first_word, has_form};
use pct_text::split_once;

/// The event of a line, whose names are numbered after those that were read before.
pub(crate) fn read_event<'a>(
    line: &'a [u8],
    names: &mut EventNumbers<'a>,
) -> Result<Event, NoMemory>
    requires event { is_event line.now ≡ true }
    requires room { name_count names.old + 4 < 4294967296 }
    ensures event { IfOk result (λ event. (before : EventNames) → IsNumberings names.old before → Numbers (event_of before (words_of line.now)) names.new event) }
    ensures ids { IfOk result (λ event. (before : EventNames) → IsNumberings names.old before → HasIds event) }
    ensures count { OnOk result (name_count names.new ≤ name_count names.old + 4) }
{
    let (thread, after) = first_word(line);
    let (pid, tid) = thread_of(thread);
    let (first, rest) = first_word(after.unwrap());
    let (keyword, kinds) = form_of(first, rest);
    let values = read_words(kinds, rest, names)?;
    Ok(Event {
        pid,
        tid,
        what: what(keyword, values.as_slice()),
    })
}

// The process and the thread of a word `PID.TID`.
fn thread_of(word: &[u8]) -> (u32, u32)
    requires { is_thread word.now ≡ true }
    ensures thread { thread_of word.now ≡ Some result }
    ensures ids { (0 < result.0) × (0 < result.1) }
{
    let (pid, tid) = split_once(word, b'.').unwrap();
    (positive(pid), positive(tid))
}

// The form of the text of an event.
fn form_of(first: &[u8], rest: Option<&[u8]>) -> Row
    requires { list_any (has_form (first.now ∷ words_left rest)) event_forms ≡ true }
    ensures { find (has_form (first.now ∷ words_left rest.entry)) event_forms ≡ Some (as_form result) }
{
    form_among(events(), first, rest).unwrap()
}

// The first of these forms that the words have.
fn form_among(forms: &[Row], first: &[u8], rest: Option<&[u8]>) -> Option<Row>
    ensures { result ≡ find (λ row. has_form (first.now ∷ words_left rest.entry) (as_form row)) forms.now }
{
    forms
        .iter()
        .copied()
        .find(|row| has_form(*row, first, rest))
}

// The values of words, one word for each kind.
fn read_words<'a>(
    kinds: &[WordKind],
    words: Option<&'a [u8]>,
    names: &mut EventNumbers<'a>,
) -> Result<ArrayVec<Value, 4>, NoMemory>
    requires kinds { are_words kinds.now (words_left words) ≡ true }
    requires few { length kinds.now ≤ 4 }
    requires room { name_count names.old + 4 < 4294967296 }
    ensures values { IfOk result (λ values. (before : EventNames) → IsNumberings names.old before
        → Numbers (values_of kinds.now before (words_left words.entry)) names.new values.items) }
    ensures count { OnOk result (name_count names.new ≤ name_count names.old + 4) }
{
    let mut values = ArrayVec::new();
    let mut left = kinds;
    let mut rest = words;
    while let Some((kind, others)) = left.split_first() {
        let (word, after) = first_word(rest.unwrap());
        values.push(names.value(*kind, word)?);
        left = others;
        rest = after;
    }
    Ok(values)
}

// The event with a first word and the values of the words after it.
#[tactic(auto, unfolding(crate::specs::Values::what_with))]
fn what(first: Keyword, values: &[Value]) -> What
    ensures { result ≡ what_with first values.now }
{
    match first {
        Keyword::Emit => What::Emit(number(values, 0)),
        Keyword::Create => What::Created {
            id: number(values, 0),
            detached: !flag(values, 1),
        },
        Keyword::Answer => What::Answer {
            call: caller(values, 0),
            number: number(values, 1),
        },
        Keyword::Push => What::Pushed(number(values, 0), number(values, 1)),
        Keyword::Pop => What::Popped {
            f: number(values, 0),
            a: number(values, 1),
            run: flag(values, 2),
        },
        Keyword::Request => What::Request(number(values, 0)),
        Keyword::Detach => What::Detached(number(values, 0)),
        Keyword::State => What::StateSet(flag(values, 0)),
        Keyword::Type => What::ModeSet(flag(values, 0)),
        Keyword::Call => What::Called(number(values, 0)),
        Keyword::Done => What::Done(number(values, 0)),
        Keyword::Joined => What::Joined(number(values, 0), number(values, 1)),
        Keyword::Ending => ending(values),
        Keyword::Handler => What::HandlerRun(number(values, 0), number(values, 1)),
        Keyword::Pass => What::PassBegun(number(values, 0)),
        Keyword::Dtor => What::DtorRun {
            pass: number(values, 0),
            key: number(values, 1),
            f: number(values, 2),
            v: number(values, 3),
        },
        Keyword::Leftover => What::Leftover(number(values, 0)),
        Keyword::Ended => What::EndedWith(number(values, 0)),
        Keyword::Key => What::KeyMade(number(values, 0)),
        Keyword::KeyDelete => What::KeyGone(number(values, 0)),
        Keyword::Acquire => What::Acquired(number(values, 0)),
        Keyword::Release => What::Released(number(values, 0)),
        Keyword::Signal => What::Signalled(number(values, 0), number(values, 1)),
        Keyword::Broadcast => What::BroadcastTo(number(values, 0), number(values, 1)),
        Keyword::CancelWait => What::WaitCanceled(number(values, 0)),
        Keyword::Expire => What::WaitExpired(number(values, 0)),
        Keyword::HandOn => What::HandedOn(number(values, 0), number(values, 1)),
        Keyword::Take => What::Taken(number(values, 0)),
        Keyword::Post => What::Posted(number(values, 0)),
        Keyword::Once => once(number(values, 0), flag(values, 1)),
        Keyword::Fork => What::Forked(number(values, 0)),
        Keyword::Prepare => What::PrepareRun(number(values, 0)),
        Keyword::Parent => What::ParentRun(number(values, 0)),
        Keyword::Child => What::ChildRun(number(values, 0)),
        Keyword::Exit => What::ExitBegun(number(values, 0)),
        Keyword::AtExit => What::ExitRun(number(values, 0)),
        Keyword::ProcessEnd => What::ProcessEnded(number(values, 0)),
        Keyword::Reap => What::Reaped(number(values, 0), number(values, 1)),
        _ => What::Stopped(stop(values, 0)),
    }
}

// The beginning of a thread's end: by cancellation, with a value, or by cancellation in a wait.
#[tactic(auto, unfolding(crate::specs::Values::ending_with))]
fn ending(values: &[Value]) -> What
    ensures { result ≡ ending_with values.now }
{
    if values.len() == 1 {
        What::EndingCanceled
    } else if values.len() == 2 {
        What::EndingExit(number(values, 1))
    } else {
        What::EndingInWait(number(values, 1), number(values, 2))
    }
}

// The routine of a once control is called, or returned.
fn once(control: u32, is_called: bool) -> What
    ensures { result ≡ once_with control is_called }
{
    if is_called {
        What::OnceCalled(control)
    } else {
        What::OnceDone(control)
    }
}
