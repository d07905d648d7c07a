//! Which events a pattern matches.

ghost use Rattle.std.specs.Prelude.{◌≡◌, ◌∷◌, ◌++◌, Some, bytes_eq, decimal, map, slice_get};
ghost use Rattle.pct_expect.specs.Events.{matches, word_matches};
ghost use Rattle.pct_io.specs.Fields.{field_text};
ghost use Rattle.pct_model.specs.EventTexts.{event_names, event_words};
ghost use Rattle.pct_model.specs.Report.{event_line};

use itoa::Buffer;
use pct_event_texts::{Fields, fields_of_event};
use pct_expect::Word;
use pct_io::Field;
use pct_model::{Event, Script, What};

/// Whether a pattern matches an event of a script, whose words are those of its line in a report.
pub(crate) fn is_match(script: &Script, event: &Event, pattern: &[Word]) -> bool
    ensures { result ≡ matches pattern.now (event_line script.now event.now) }
{
    // The second word tells most events apart, so it is compared before the others are made.
    let word = word_of(script, event.what);
    if pattern.len() < 2 {
        return false;
    }
    if !word_matches(pattern[1].as_slice(), &word) {
        return false;
    }
    are_words(script, event, pattern)
}

// The word of an event, which is the second of its line.
fn word_of(script: &Script, what: What) -> Field<'static>
    ensures { slice_get (event_words (event_names script.now) what) 0 ≡ Some (field_text result) }
{
    match fields_of_event(script, what) {
        Fields::One(word, _) => Field::Text(word.text()),
        Fields::Two(word, _, _) => Field::Text(word.text()),
        Fields::Three(word, _, _, _) => Field::Text(word.text()),
        Fields::Four(word, _, _, _, _) => Field::Text(word.text()),
    }
}

// Whether a pattern matches the words of an event.
#[tactic(auto, unfolding(pct_model::specs::Report::event_line, pct_model::specs::Report::thread_text))]
fn are_words(script: &Script, event: &Event, pattern: &[Word]) -> bool
    ensures { result ≡ matches pattern.now (event_line script.now event.now) }
{
    let thread = Field::Dotted(event.pid, event.tid);
    match fields_of_event(script, event.what) {
        Fields::One(word, a) => are_fields(pattern, &[thread, Field::Text(word.text()), a]),
        Fields::Two(word, a, b) => are_fields(pattern, &[thread, Field::Text(word.text()), a, b]),
        Fields::Three(word, a, b, c) => {
            are_fields(pattern, &[thread, Field::Text(word.text()), a, b, c])
        }
        Fields::Four(word, a, b, c, d) => {
            are_fields(pattern, &[thread, Field::Text(word.text()), a, b, c, d])
        }
    }
}

// Whether a pattern matches these fields, one by one.
fn are_fields(pattern: &[Word], fields: &[Field]) -> bool
    ensures { result ≡ matches pattern.now (map field_text fields.now) }
{
    if pattern.len() != fields.len() {
        return false;
    }
    for index in 0..pattern.len() {
        if !word_matches(pattern[index].as_slice(), &fields[index]) {
            return false;
        }
    }
    true
}

// Whether a word of a pattern matches a field.
fn word_matches(asked: &[u8], field: &Field) -> bool
    ensures { result ≡ word_matches asked.now (field_text field.now) }
{
    asked == b"*".as_slice() || is_field(asked, field)
}

// Whether bytes are the text of a field.
fn is_field(bytes: &[u8], field: &Field) -> bool
    ensures { result ≡ bytes_eq bytes.now (field_text field.now) }
{
    match field {
        Field::Text(text) => bytes == *text,
        Field::Number(number) => is_number(bytes, *number as u64),
        Field::Count(count) => is_number(bytes, *count as u64),
        Field::Dotted(first, second) => is_dotted(bytes, *first, *second),
    }
}

// Whether bytes are a number in decimal.
fn is_number(bytes: &[u8], number: u64) -> bool
    ensures { result ≡ bytes_eq bytes.now (decimal number) }
{
    bytes == Buffer::new().format(number).as_bytes()
}

// Whether bytes are two numbers in decimal, separated by a dot.
fn is_dotted(bytes: &[u8], first: u32, second: u32) -> bool
    ensures { result ≡ bytes_eq bytes.now (decimal first ++ 46 ∷ decimal second) }
{
    match bytes.strip_prefix(Buffer::new().format(first).as_bytes()) {
        Some(rest) => match rest.split_first() {
            Some((dot, after)) => *dot == b'.' && is_number(after, second as u64),
            None => false,
        },
        None => false,
    }
}
