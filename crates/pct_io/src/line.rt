//! Output lines, built from fields.

ghost use Rattle.std.specs.Prelude.{◌≤◌, [], ◌∷◌, ◌++◌, length, map, decimal};
ghost use Rattle.std.specs.List.{flat_map, join_with_byte};
ghost use Rattle.pct_io.specs.Prepends.{Prepends};
ghost use Rattle.pct_io.specs.Writes.{Writes};
ghost use Rattle.pct_io.specs.Fields.{field_text};

use crate::line_buffer::{CAPACITY, prepend, prepend_number};
use crate::read_write::{write_all, write_parts};
use crate::{Failed, Sink};
use itoa::Buffer;

/// A field of a line.
#[derive(Clone, Copy)]
pub enum Field<'a> {
    /// The bytes as they are.
    Text(&'a [u8]),
    /// A number in decimal, without leading zeros.
    Number(u32),
    /// A count in decimal, without leading zeros.
    Count(usize),
    /// Two numbers in decimal, separated by a dot.
    Dotted(u32, u32),
}

/// Writes a line: the fields, separated by one space, followed by LF (byte 10). `Failed` means that a prefix of the line
/// was written and that the sink recorded one error. It allocates no memory.
pub fn write_line<K: Sink>(sink: &mut K, fields: &[Field]) -> Result<(), Failed>
    ensures { Writes K.written K.errors K.inners sink.old sink.new (join_with_byte 32 (map field_text fields.now) ++ 10 ∷ []) result }
{
    let mut bytes = [0; CAPACITY];
    match prepend_line(fields, &mut bytes, CAPACITY) {
        Some(start) => write_all(sink, &bytes[start..]),
        None => write_by_fields(sink, fields),
    }
}

/// Writes a line, as `write_line` does, to a buffer so that it ends at `end`, and returns where it starts. It is `None`
/// exactly if the line does not fit before `end`.
#[inline(always)]
pub fn prepend_line(fields: &[Field], buffer: &mut [u8], end: usize) -> Option<usize>
    requires { end ≤ length buffer.old }
    ensures { Prepends buffer.old buffer.new end (join_with_byte 32 (map field_text fields.now) ++ 10 ∷ []) result }
{
    let line_end = prepend(b"\n", buffer, end)?;
    prepend_fields(fields, buffer, line_end)
}

// Writes the fields, separated by one space, as `prepend` writes a text.
#[inline(always)]
fn prepend_fields(fields: &[Field], buffer: &mut [u8], end: usize) -> Option<usize>
    requires { end ≤ length buffer.old }
    ensures { Prepends buffer.old buffer.new end (join_with_byte 32 (map field_text fields.now)) result }
{
    match fields.split_first() {
        None => Some(end),
        Some((first, rest)) => {
            let start = prepend_spaced(rest, buffer, end)?;
            prepend_field(first, buffer, start)
        }
    }
}

// Writes the fields, each preceded by a space, as `prepend` writes a text.
#[inline(always)]
fn prepend_spaced(fields: &[Field], buffer: &mut [u8], end: usize) -> Option<usize>
    requires { end ≤ length buffer.old }
    ensures { Prepends buffer.old buffer.new end (flat_map (λ field. 32 ∷ field_text field) fields.now) result }
{
    let mut start = end;
    for position in (0..fields.len()).rev() {
        start = prepend_spaced_field(&fields[position], buffer, start)?;
    }
    Some(start)
}

// Writes a space and the field, as `prepend` writes a text.
#[inline(always)]
fn prepend_spaced_field(field: &Field, buffer: &mut [u8], end: usize) -> Option<usize>
    requires { end ≤ length buffer.old }
    ensures { Prepends buffer.old buffer.new end (32 ∷ field_text field.now) result }
{
    let start = prepend_field(field, buffer, end)?;
    prepend(b" ", buffer, start)
}

// Writes the field, as `prepend` writes a text.
#[inline(always)]
fn prepend_field(field: &Field, buffer: &mut [u8], end: usize) -> Option<usize>
    requires { end ≤ length buffer.old }
    ensures { Prepends buffer.old buffer.new end (field_text field.now) result }
{
    match field {
        Field::Text(text) => prepend(text, buffer, end),
        Field::Number(number) => prepend_number(*number as u64, buffer, end),
        Field::Count(count) => prepend_number(*count as u64, buffer, end),
        Field::Dotted(first, second) => prepend_dotted(*first, *second, buffer, end),
    }
}

// Writes two numbers separated by a dot, as `prepend` writes a text.
#[inline(always)]
fn prepend_dotted(first: u32, second: u32, buffer: &mut [u8], end: usize) -> Option<usize>
    requires { end ≤ length buffer.old }
    ensures { Prepends buffer.old buffer.new end (decimal first ++ 46 ∷ decimal second) result }
{
    let after_dot = prepend_number(second as u64, buffer, end)?;
    let dot = prepend(b".", buffer, after_dot)?;
    prepend_number(first as u64, buffer, dot)
}

// Writes the line field by field, for a line that is too long for the buffer.
#[cold]
fn write_by_fields<K: Sink>(sink: &mut K, fields: &[Field]) -> Result<(), Failed>
    ensures { Writes K.written K.errors K.inners sink.old sink.new (join_with_byte 32 (map field_text fields.now) ++ 10 ∷ []) result }
{
    write_fields(sink, fields)?;
    write_all(sink, b"\n")
}

// Writes the fields, separated by one space.
fn write_fields<K: Sink>(sink: &mut K, fields: &[Field]) -> Result<(), Failed>
    ensures { Writes K.written K.errors K.inners sink.old sink.new (join_with_byte 32 (map field_text fields.now)) result }
{
    match fields.split_first() {
        None => Ok(()),
        Some((first, rest)) => {
            write_field(sink, first)?;
            write_spaced(sink, rest)
        }
    }
}

// Writes the fields, each preceded by a space.
fn write_spaced<K: Sink>(sink: &mut K, fields: &[Field]) -> Result<(), Failed>
    ensures { Writes K.written K.errors K.inners sink.old sink.new (flat_map (λ field. 32 ∷ field_text field) fields.now) result }
{
    for field in fields {
        write_spaced_field(sink, field)?;
    }
    Ok(())
}

/// Writes a space followed by the field. `Failed` means that a prefix of this text was written and that the sink
/// recorded one error. It allocates no memory.
pub fn write_spaced_field<K: Sink>(sink: &mut K, field: &Field) -> Result<(), Failed>
    ensures { Writes K.written K.errors K.inners sink.old sink.new (32 ∷ field_text field.now) result }
{
    write_all(sink, b" ")?;
    write_field(sink, field)
}

fn write_field<K: Sink>(sink: &mut K, field: &Field) -> Result<(), Failed>
    ensures { Writes K.written K.errors K.inners sink.old sink.new (field_text field.now) result }
{
    match field {
        Field::Text(text) => write_all(sink, text),
        Field::Number(number) => write_all(sink, Buffer::new().format(*number).as_bytes()),
        Field::Count(count) => write_all(sink, Buffer::new().format(*count).as_bytes()),
        Field::Dotted(first, second) => write_parts(
            sink,
            &[
                Buffer::new().format(*first).as_bytes(),
                b".",
                Buffer::new().format(*second).as_bytes(),
            ],
        ),
    }
}
