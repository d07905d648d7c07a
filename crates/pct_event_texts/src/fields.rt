//! The words of an event.

ghost use Rattle.std.specs.Prelude.{◌≤◌, ◌∷◌, length};
ghost use Rattle.pct_io.specs.Prepends.{Prepends};
ghost use Rattle.pct_io.specs.Writes.{Writes};
ghost use Rattle.pct_io.specs.Fields.{field_text};
ghost use Rattle.pct_model.specs.Keywords.{line_text};
ghost use Rattle.pct_event_texts.specs.EventFields.{words_of};

use pct_io::{Failed, Field, Sink, prepend_line, write_line};
use pct_model::Keyword;

/// The words of an event: a fixed word, and one to four fields.
#[derive(Clone, Copy)]
pub enum Fields<'a> {
    One(Keyword, Field<'a>),
    Two(Keyword, Field<'a>, Field<'a>),
    Three(Keyword, Field<'a>, Field<'a>, Field<'a>),
    Four(Keyword, Field<'a>, Field<'a>, Field<'a>, Field<'a>),
}

/// Writes the line of a thread and the words of its event. `Failed` means that the sink recorded one error, and that a
/// prefix of the line was written. The call allocates no memory.
pub fn write_words<K: Sink>(sink: &mut K, thread: Field, fields: Fields) -> Result<(), Failed>
    ensures { Writes K.written K.errors K.inners sink.old sink.new (line_text (field_text thread.entry ∷ words_of fields.entry)) result }
{
    match fields {
        Fields::One(word, a) => write_line(sink, &[thread, Field::Text(word.text()), a]),
        Fields::Two(word, a, b) => write_line(sink, &[thread, Field::Text(word.text()), a, b]),
        Fields::Three(word, a, b, c) => {
            write_line(sink, &[thread, Field::Text(word.text()), a, b, c])
        }
        Fields::Four(word, a, b, c, d) => {
            write_line(sink, &[thread, Field::Text(word.text()), a, b, c, d])
        }
    }
}

/// Writes the line of a thread and the words of its event, as `prepend_line` does.
#[inline(always)]
pub(crate) fn prepend_words(
    thread: Field,
    fields: Fields,
    buffer: &mut [u8],
    end: usize,
) -> Option<usize>
    requires { end ≤ length buffer.old }
    ensures { Prepends buffer.old buffer.new end (line_text (field_text thread.entry ∷ words_of fields.entry)) result }
{
    match fields {
        Fields::One(word, a) => prepend_line(&[thread, Field::Text(word.text()), a], buffer, end),
        Fields::Two(word, a, b) => {
            prepend_line(&[thread, Field::Text(word.text()), a, b], buffer, end)
        }
        Fields::Three(word, a, b, c) => {
            prepend_line(&[thread, Field::Text(word.text()), a, b, c], buffer, end)
        }
        Fields::Four(word, a, b, c, d) => {
            prepend_line(&[thread, Field::Text(word.text()), a, b, c, d], buffer, end)
        }
    }
}
