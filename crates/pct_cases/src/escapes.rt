//! What a line of an input or of an output stands for.

use itoa::Buffer;
use pct_text::split_number;
use std::alloc::AllocError;

// How much of an escape was read.
#[derive(Clone, Copy)]
enum Escape {
    Nothing,
    Backslash,
    Hex,
    HighDigit(u8),
}

/// Adds the bytes that a line stands for to a text: those of its copies, if it begins with `\*` and their number.
pub(crate) fn add_line(text: &mut Vec<u8>, line: &[u8]) -> Result<(), AllocError> {
    let (count, copied) = copies_of(line);
    for before in 0..count {
        add_copy(text, copied, before + 1)?;
    }
    Ok(())
}

// How often the line is copied, and what is copied.
fn copies_of(line: &[u8]) -> (u32, &[u8]) {
    if let Some(after) = line.strip_prefix(b"\\*")
        && let Some((count, copied)) = split_number(after)
    {
        return (count, copied);
    }
    (1, line)
}

// Adds a copy of a line with this number to a text, and a line end, unless the line ends in a single `\`.
fn add_copy(text: &mut Vec<u8>, line: &[u8], number: u32) -> Result<(), AllocError> {
    let mut escape = Escape::Nothing;
    for byte in line {
        escape = add_byte(text, escape, *byte, number)?;
    }
    if !matches!(escape, Escape::Backslash) {
        text.push(b'\n')?;
    }
    Ok(())
}

// Adds the byte that one more byte of a line completes, if it does, and returns how much of an escape was read. `\#` is the
// number of the copy.
fn add_byte(
    text: &mut Vec<u8>,
    escape: Escape,
    byte: u8,
    number: u32,
) -> Result<Escape, AllocError> {
    match escape {
        Escape::Nothing => {
            if byte == b'\\' {
                return Ok(Escape::Backslash);
            }
            text.push(byte)?;
        }
        Escape::Backslash => {
            if byte == b'x' {
                return Ok(Escape::Hex);
            }
            if byte == b'#' {
                text.extend_from_slice(Buffer::new().format(number).as_bytes())?;
            } else {
                text.push(named(byte))?;
            }
        }
        Escape::Hex => return Ok(Escape::HighDigit(digit(byte))),
        Escape::HighDigit(high) => text.push((high << 4) | digit(byte))?,
    }
    Ok(Escape::Nothing)
}

// The byte of an escape of one letter; every other byte stands for itself.
fn named(letter: u8) -> u8 {
    match letter {
        b'r' => b'\r',
        b't' => b'\t',
        other => other,
    }
}

// The value of a hexadecimal digit in lower case.
fn digit(byte: u8) -> u8 {
    match byte {
        b'0'..=b'9' => byte - b'0',
        b'a'..=b'f' => byte - b'a' + 10,
        _ => 0,
    }
}
