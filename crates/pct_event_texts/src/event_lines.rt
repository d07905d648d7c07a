//! The lines of events.

ghost use Rattle.std.specs.Prelude.{◌≤◌, [], ◌∷◌, ◌++◌, length, codes, decimal};
ghost use Rattle.pct_io.specs.Prepends.{Prepends};
ghost use Rattle.pct_model.specs.Keywords.{line_text};
ghost use Rattle.pct_model.specs.Report.{event_line, thread_text};

use crate::event_fields::fields_of_event;
use crate::fields::prepend_words;
use crate::names::{cond_name, func_name, mutex_name, text_if};
use pct_cancel::point_name;
use pct_io::{Field, prepend, prepend_number, prepend_short};
use pct_model::{Event, Keyword, Script, What};

/// Writes the line of an event to a buffer so that it ends at `end`, and returns where it starts. It is `None` exactly if
/// the line does not fit before `end`. Lines of frequent events need no list of fields.
#[tactic(auto, unfolding(pct_model::specs::Report::event_line, pct_model::specs::EventTexts::event_words, pct_model::specs::Keywords::keyword_text))]
pub fn prepend_event(script: &Script, event: &Event, buffer: &mut [u8], end: usize) -> Option<usize>
    requires { end ≤ length buffer.old }
    ensures { Prepends buffer.old buffer.new end (line_text (event_line script.now event.now)) result }
{
    match event.what {
        What::Emit(value) => number_event(event, (b" emit ", value), buffer, end),
        What::Acquired(m) => name_event(event, (b" acquire ", mutex_name(script, m)), buffer, end),
        What::Released(m) => name_event(event, (b" release ", mutex_name(script, m)), buffer, end),
        What::Called(index) => name_event(event, (b" call ", point_name(index)), buffer, end),
        What::Done(index) => name_event(event, (b" done ", point_name(index)), buffer, end),
        What::Pushed(f, a) => pair_event(event, (b" push ", func_name(script, f), a), buffer, end),
        What::Signalled(c, id) => {
            pair_event(event, (b" signal ", cond_name(script, c), id), buffer, end)
        }
        What::Popped { f, a, run } => {
            let last = text_if(run, Keyword::Run, Keyword::Drop);
            pop_event(event, (func_name(script, f), a, last), buffer, end)
        }
        What::Created { id, detached } => {
            let kind = text_if(detached, Keyword::Detached, Keyword::Joinable);
            create_event(event, (id, kind), buffer, end)
        }
        What::Joined(id, value) => join_event(event, (id, value), buffer, end),
        What::EndingExit(value) => number_event(event, (b" ending exit ", value), buffer, end),
        What::EndedWith(value) => number_event(event, (b" ended ", value), buffer, end),
        _ => prepend_words(
            Field::Dotted(event.pid, event.tid),
            fields_of_event(script, event.what),
            buffer,
            end,
        ),
    }
}

// Writes the line of an event: its thread, the word and the name, as `prepend` writes a text.
#[inline(always)]
fn name_event(event: &Event, words: (&[u8], &[u8]), buffer: &mut [u8], end: usize) -> Option<usize>
    requires { end ≤ length buffer.old }
    ensures { Prepends buffer.old buffer.new end ((thread_text event.now.pid event.now.tid ++ (words.entry.0.now ++ words.entry.1.now)) ++ 10 ∷ []) result }
{
    let start = name_line(words.0, words.1, buffer, end)?;
    prepend_thread(event, buffer, start)
}

// Writes the line of an event: its thread, the word and the number, as `prepend` writes a text.
#[inline(always)]
fn number_event(event: &Event, words: (&[u8], u32), buffer: &mut [u8], end: usize) -> Option<usize>
    requires { end ≤ length buffer.old }
    ensures { Prepends buffer.old buffer.new end ((thread_text event.now.pid event.now.tid ++ (words.entry.0.now ++ decimal words.entry.1)) ++ 10 ∷ []) result }
{
    let start = number_line(words.0, words.1, buffer, end)?;
    prepend_thread(event, buffer, start)
}

// Writes the line of an event: its thread, the word, the name and the number, as `prepend` writes a text.
#[inline(always)]
fn pair_event(
    event: &Event,
    words: (&[u8], &[u8], u32),
    buffer: &mut [u8],
    end: usize,
) -> Option<usize>
    requires { end ≤ length buffer.old }
    ensures { Prepends buffer.old buffer.new end ((thread_text event.now.pid event.now.tid ++ (words.entry.0.now ++ (words.entry.1.now ++ 32 ∷ decimal words.entry.2))) ++ 10 ∷ []) result }
{
    let start = pair_line(words.0, (words.1, words.2), buffer, end)?;
    prepend_thread(event, buffer, start)
}

// Writes the line of a pop: its thread, the name of the function, its argument and the last word, as `prepend` writes
// a text.
#[inline(always)]
fn pop_event(
    event: &Event,
    words: (&[u8], u32, &[u8]),
    buffer: &mut [u8],
    end: usize,
) -> Option<usize>
    requires { end ≤ length buffer.old }
    ensures { Prepends buffer.old buffer.new end ((thread_text event.now.pid event.now.tid ++ (codes " pop " ++ (words.entry.0.now ++ 32 ∷ (decimal words.entry.1 ++ 32 ∷ words.entry.2.now)))) ++ 10 ∷ []) result }
{
    let argument = kind_line(b" ", (words.1, words.2), buffer, end)?;
    let start = name_after(b" pop ", words.0, buffer, argument)?;
    prepend_thread(event, buffer, start)
}

// Writes the line of a creation: its thread, the number of the new thread and its kind, as `prepend` writes a text.
#[inline(always)]
fn create_event(event: &Event, words: (u32, &[u8]), buffer: &mut [u8], end: usize) -> Option<usize>
    requires { end ≤ length buffer.old }
    ensures { Prepends buffer.old buffer.new end ((thread_text event.now.pid event.now.tid ++ (codes " create " ++ (decimal words.entry.0 ++ 32 ∷ words.entry.1.now))) ++ 10 ∷ []) result }
{
    let start = kind_line(b" create ", words, buffer, end)?;
    prepend_thread(event, buffer, start)
}

// Writes the line of a join: its thread, the number of the joined thread and its value, as `prepend` writes a text.
#[inline(always)]
fn join_event(event: &Event, words: (u32, u32), buffer: &mut [u8], end: usize) -> Option<usize>
    requires { end ≤ length buffer.old }
    ensures { Prepends buffer.old buffer.new end ((thread_text event.now.pid event.now.tid ++ (codes " joined " ++ (decimal words.0 ++ 32 ∷ decimal words.1))) ++ 10 ∷ []) result }
{
    let last = number_line(b" ", words.1, buffer, end)?;
    let start = number_after(b" joined ", words.0, buffer, last)?;
    prepend_thread(event, buffer, start)
}

// Writes the process and the thread of an event, as `prepend` writes a text.
#[inline(always)]
#[tactic(auto, unfolding(pct_model::specs::Report::thread_text))]
fn prepend_thread(event: &Event, buffer: &mut [u8], end: usize) -> Option<usize>
    requires { end ≤ length buffer.old }
    ensures { Prepends buffer.old buffer.new end (thread_text event.now.pid event.now.tid) result }
{
    let dot = number_after(b".", event.tid, buffer, end)?;
    prepend_number(event.pid as u64, buffer, dot)
}

// Writes the word, the name, a space, the number and an LF, as `prepend` writes a text.
#[inline(always)]
fn pair_line(word: &[u8], pair: (&[u8], u32), buffer: &mut [u8], end: usize) -> Option<usize>
    requires { end ≤ length buffer.old }
    ensures { Prepends buffer.old buffer.new end (word.now ++ pair.entry.0.now ++ 32 ∷ decimal pair.entry.1 ++ 10 ∷ []) result }
{
    let space = number_line(b" ", pair.1, buffer, end)?;
    name_after(word, pair.0, buffer, space)
}

// Writes the word, the number, a space, the kind and an LF, as `prepend` writes a text.
#[inline(always)]
fn kind_line(word: &[u8], pair: (u32, &[u8]), buffer: &mut [u8], end: usize) -> Option<usize>
    requires { end ≤ length buffer.old }
    ensures { Prepends buffer.old buffer.new end (word.now ++ decimal pair.entry.0 ++ 32 ∷ pair.entry.1.now ++ 10 ∷ []) result }
{
    let kind = name_line(b" ", pair.1, buffer, end)?;
    number_after(word, pair.0, buffer, kind)
}

// Writes the word, the number and an LF, as `prepend` writes a text.
#[inline(always)]
fn number_line(word: &[u8], number: u32, buffer: &mut [u8], end: usize) -> Option<usize>
    requires { end ≤ length buffer.old }
    ensures { Prepends buffer.old buffer.new end (word.now ++ decimal number ++ 10 ∷ []) result }
{
    let line_end = prepend(b"\n", buffer, end)?;
    number_after(word, number, buffer, line_end)
}

// Writes the word and the number, as `prepend` writes a text.
#[inline(always)]
fn number_after(word: &[u8], number: u32, buffer: &mut [u8], end: usize) -> Option<usize>
    requires { end ≤ length buffer.old }
    ensures { Prepends buffer.old buffer.new end (word.now ++ decimal number) result }
{
    let start = prepend_number(number as u64, buffer, end)?;
    prepend(word, buffer, start)
}

// Writes the word, the name and an LF, as `prepend` writes a text.
#[inline(always)]
fn name_line(word: &[u8], name: &[u8], buffer: &mut [u8], end: usize) -> Option<usize>
    requires { end ≤ length buffer.old }
    ensures { Prepends buffer.old buffer.new end (word.now ++ name.now ++ 10 ∷ []) result }
{
    let line_end = prepend(b"\n", buffer, end)?;
    name_after(word, name, buffer, line_end)
}

// Writes the word and the name, as `prepend` writes a text.
#[inline(always)]
fn name_after(word: &[u8], name: &[u8], buffer: &mut [u8], end: usize) -> Option<usize>
    requires { end ≤ length buffer.old }
    ensures { Prepends buffer.old buffer.new end (word.now ++ name.now) result }
{
    let start = prepend_short(name, buffer, end)?;
    prepend(word, buffer, start)
}
