//! The lines of a text.

ghost use Rattle.std.specs.Prelude.{◌≡◌, ◌==◌, [], MatchOption, position};
ghost use Rattle.std.specs.Option.{option_map};
ghost use Rattle.pct_model.specs.Lines.{split_once, strip_cr};
ghost use Rattle.pct_text.specs.FirstLine.{IsFirstLine};

use memchr::memchr;

/// The first line of a text, without its LF (byte 10), and the rest of the text after it. It is `None` exactly for the
/// empty text. A last line need not end with an LF: the rest after it is empty in both cases.
#[inline(always)]
pub fn first_line(text: &[u8]) -> Option<(&[u8], &[u8])>
    ensures { MatchOption result (text.now ≡ [])
        (λ parts. IsFirstLine text.now parts.0.now parts.1.now) }
{
    let (first, rest) = text.split_first()?;
    if *first == b'\n' {
        return Some((&[], rest));
    }
    match memchr(b'\n', text) {
        Some(end) => {
            let (line, left) = text.split_at(end);
            let (_, after) = left.split_first()?;
            Some((line, after))
        }
        None => Some((text, &[])),
    }
}

/// The line without the CR (byte 13) at its end. At most one CR is removed.
pub fn strip_cr(line: &[u8]) -> &[u8]
    ensures { result.now ≡ strip_cr line.now }
{
    match line.split_last() {
        Some((last, prefix)) if *last == b'\r' => prefix,
        _ => line,
    }
}

fn index_of(bytes: &[u8], delimiter: u8) -> Option<usize>
    ensures { result ≡ position (λ byte. byte == delimiter) bytes.now }
{
    bytes.iter().position(|byte| *byte == delimiter)
}

/// The bytes before the first delimiter, and the bytes after it. It is `None` where the delimiter does not occur.
pub fn split_once(bytes: &[u8], delimiter: u8) -> Option<(&[u8], &[u8])>
    ensures { option_map (λ parts. (parts.0.now, parts.1.now)) result
        ≡ split_once delimiter bytes.now }
{
    let index = index_of(bytes, delimiter)?;
    let (before, rest) = bytes.split_at(index);
    let (_, after) = rest.split_first()?;
    Some((before, after))
}
