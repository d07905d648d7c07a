//! The words of a line of a script's text: its longest runs of bytes other than tab, CR and space.

ghost use Rattle.std.specs.Prelude.{◌≡◌, ◌<◌, [], ◌∷◌, not, length, position, IfSome};
ghost use Rattle.std.specs.List.{list_all};
ghost use Rattle.std.specs.Option.{option_map_or};
ghost use Rattle.pct_model.specs.LineParsing.{is_blank, is_allowed, words_in, begins_comment, spell_something};

fn is_blank(byte: u8) -> bool
    ensures { result ≡ is_blank byte }
{
    byte == b'\t' || byte == b'\r' || byte == b' '
}

fn is_allowed(byte: u8) -> bool
    ensures { result ≡ is_allowed byte }
{
    33 <= byte && byte <= 126 || is_blank(byte)
}

/// Whether each of the bytes is a tab, a CR, a space or a printable ASCII character.
pub fn are_allowed(bytes: &[u8]) -> bool
    ensures { result ≡ list_all is_allowed bytes.now }
{
    bytes.iter().all(|byte| is_allowed(*byte))
}

// The index of the first byte that is not a blank.
fn word_start(bytes: &[u8]) -> Option<usize>
    ensures { result ≡ position (λ byte. not (is_blank byte)) bytes.now }
{
    bytes.iter().position(|byte| !is_blank(*byte))
}

// The index of the first blank.
fn word_end(bytes: &[u8]) -> Option<usize>
    ensures { result ≡ position (λ byte. is_blank byte) bytes.now }
{
    bytes.iter().position(|byte| is_blank(*byte))
}

/// The first word of the bytes, and the bytes after it. It is `None` where they have no word.
#[inline]
pub fn next_word(bytes: &[u8]) -> Option<(&[u8], &[u8])>
    ensures words { words_in bytes.now
        ≡ option_map_or (λ parts. parts.0.now ∷ words_in parts.1.now) result [] }
    ensures shorter { IfSome result (λ parts. length parts.1.now < length bytes.now) }
{
    let start = word_start(bytes)?;
    let (_, rest) = bytes.split_at(start);
    Some(rest.split_at(word_end(rest).unwrap_or(rest.len())))
}

/// The number of words in the bytes.
pub fn count_words(bytes: &[u8]) -> usize
    ensures { result ≡ length (words_in bytes.now) }
{
    let mut count = 0;
    let mut rest = bytes;
    while let Some((_, after)) = next_word(rest) {
        count += 1;
        rest = after;
    }
    count
}

fn begins_comment(word: &[u8]) -> bool
    ensures { result ≡ begins_comment word.now }
{
    match word {
        [] => false,
        [first, ..] => *first == b'#',
    }
}

/// Whether a line is neither blank nor a comment: it has a word, and its first word does not begin with `#`.
#[inline]
pub fn spells_something(line: &[u8]) -> bool
    ensures { result ≡ spell_something (words_in line.now) }
{
    match next_word(line) {
        Some((word, _)) => !begins_comment(word),
        None => false,
    }
}
