//! Filling of a buffer from its end to its start.
ghost use Rattle.std.specs.Prelude.{◌≤◌, length, decimal};
ghost use Rattle.pct_io.specs.Prepends.{Prepends};

use itoa::{Buffer, write_digits};

/// The size of the buffer of a line in bytes. A longer line is written field by field.
pub(crate) const CAPACITY: usize = 128;

// The largest number of decimal digits of a 64-bit number.
const MOST_DIGITS: usize = 20;

// The largest number of bytes that are copied one by one.
const MOST_SHORT: usize = 8;

/// Writes the text so that it ends at `end`, and returns where it starts. It is `None` exactly if the text does not fit
/// before `end`.
#[inline(always)]
pub fn prepend(text: &[u8], buffer: &mut [u8], end: usize) -> Option<usize>
    requires { end ≤ length buffer.old }
    ensures { Prepends buffer.old buffer.new end text.now result }
{
    if text.len() > end {
        return None;
    }
    let start = end - text.len();
    buffer[start..end].copy_from_slice(text);
    Some(start)
}

/// Writes the text, as `prepend` does: for a text that is mostly of a few bytes.
#[inline(always)]
pub fn prepend_short(text: &[u8], buffer: &mut [u8], end: usize) -> Option<usize>
    requires { end ≤ length buffer.old }
    ensures { Prepends buffer.old buffer.new end text.now result }
{
    if text.len() > MOST_SHORT || text.len() > end {
        return prepend(text, buffer, end);
    }
    let mut start = end;
    for position in (0..text.len()).rev() {
        start -= 1;
        buffer[start] = text[position];
    }
    Some(start)
}

/// Writes the number in decimal, as `prepend` writes a text.
#[inline(always)]
pub fn prepend_number(number: u64, buffer: &mut [u8], end: usize) -> Option<usize>
    requires { end ≤ length buffer.old }
    ensures { Prepends buffer.old buffer.new end (decimal number) result }
{
    if number < 10 && end > 0 {
        buffer[end - 1] = b'0' + number as u8;
        return Some(end - 1);
    }
    prepend_digits(number, buffer, end)
}

// Writes the number in decimal, as `prepend` writes a text.
#[inline(never)]
fn prepend_digits(number: u64, buffer: &mut [u8], end: usize) -> Option<usize>
    requires { end ≤ length buffer.old }
    ensures { Prepends buffer.old buffer.new end (decimal number) result }
{
    if end < MOST_DIGITS {
        return prepend_formatted(number, buffer, end);
    }
    if number >= 10 && number < 100 {
        buffer[end - 1] = b'0' + (number % 10) as u8;
        buffer[end - 2] = b'0' + (number / 10) as u8;
        return Some(end - 2);
    }
    Some(write_digits(number, buffer, end))
}

// Writes the number in decimal, as `prepend` writes a text, where the longest number may not fit.
#[cold]
fn prepend_formatted(number: u64, buffer: &mut [u8], end: usize) -> Option<usize>
    requires { end ≤ length buffer.old }
    ensures { Prepends buffer.old buffer.new end (decimal number) result }
{
    prepend(Buffer::new().format(number).as_bytes(), buffer, end)
}
